//! A tree in a list: node i is the earlier of the nodes 2 i and 2 i + 1, and the second half of the
//! list contains the leaves. Node 0 is unused.

ghost use Rattle.std.specs.Prelude.{◌≡◌, ℕ, ◌+◌, ◌*◌, ◌/◌, ◌<◌, ◌≤◌, length, drop, slice_set, true};
ghost use Rattle.due_index.specs.Tree.{node_at, below, IsTree, IsTreeBut};

use crate::number::DueNumber;

/// Returns true if two dues are equal.
#[inline(always)]
pub(crate) fn is_same(first: DueNumber, second: DueNumber) -> bool
    ensures { result ≡ true → first ≡ second }
{
    first == second
}

// Returns the earlier of a node's two children.
#[inline(always)]
fn lesser_below(nodes: &[DueNumber], at: usize) -> DueNumber
    requires { 2 * at + 1 < length nodes.now }
    ensures { result ≡ below nodes.now at }
{
    nodes[2 * at].or_earlier(nodes[2 * at + 1])
}

/// The ancestors of a changed leaf that are computed again. The tree is the same either way.
#[derive(Clone, Copy)]
pub(crate) enum Path {
    /// Those below the first one that keeps its due.
    UpToKept,
    /// All of them, without a comparison at each.
    ToRoot,
}

// Updates the ancestors of a node that changed.
#[inline(always)]
fn mend(nodes: &mut [DueNumber], changed: usize, path: Path)
    requires inside { 2 * (changed / 2) + 1 < length nodes.old }
    requires met { IsTreeBut (changed / 2) nodes.old }
    ensures met { IsTree nodes.new }
    ensures leaves { (half : ℕ) → length nodes.old ≡ 2 * half →
        drop half nodes.new ≡ drop half nodes.old }
{
    let mut at = changed / 2;
    while at > 0 {
        let least = lesser_below(nodes, at);
        if let Path::UpToKept = path {
            if is_same(nodes[at], least) {
                return;
            }
        }
        nodes[at] = least;
        at = at / 2;
    }
}

/// Sets the due of a leaf, and returns the first of all dues.
#[inline(always)]
pub(crate) fn put(nodes: &mut [DueNumber], leaf: usize, due: DueNumber, path: Path) -> DueNumber
    requires inside { leaf < length nodes.old }
    requires lowest { length nodes.old ≤ 2 * leaf }
    requires even { 2 * (leaf / 2) + 1 < length nodes.old }
    requires met { IsTree nodes.old }
    ensures met { IsTree nodes.new }
    ensures leaves { (half place : ℕ) → length nodes.old ≡ 2 * half → leaf ≡ half + place →
        drop half nodes.new ≡ slice_set (drop half nodes.old) place due }
    ensures least { result ≡ node_at nodes.new 1 }
{
    nodes[leaf] = due;
    mend(nodes, leaf, path);
    nodes[1]
}
