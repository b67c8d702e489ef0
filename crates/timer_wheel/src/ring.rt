//! Doubly linked lists of keys.
ghost use Rattle.std.specs.Prelude.{◌≡◌, ◌≢◌, ℕ, ◌+◌, ◌<◌, ◌==◌, [], ◌∷◌, ◌++◌, cond, length, slice_get, slice_set, Some, IfOk, OnOk, OnErr, IfSome, IfNone, IsTrue};
ghost use Rattle.timer_wheel.specs.Rings.{next_of, prev_of, list_of};

use std::alloc::{AllocError, Global};
use std::marker::Model;

/// The number of lists in a ring.
pub const LISTS: usize = 2051;

// A key's list, and its neighbours there.
#[derive(Clone, Copy)]
struct Link {
    list: usize,
    next: usize,
    prev: usize,
}

/// Keys from 0 up, each in one of 2051 lists. Contracts see the list of each key.
///
/// Each list is a circle through a head of its own, and the heads are stored before the keys.
/// Moving a key to another list therefore changes four links, and no list has an end that needs a
/// check.
#[derive(Drop)]
pub struct Ring {
    links: Vec<Link>,
}

impl Model for Ring {
    ghost use Rattle.std.specs.Prelude.{ℕ, List};

    ghost Value = { List ℕ };

    ghost use Rattle.timer_wheel.specs.Rings.{lists_in, IsLinked};

    ghost view = { λ r. lists_in r.links.items };

    ghost invariant = { λ r. IsLinked r.links.items };
}

// Sets the successor of a link.
fn set_next(links: &mut Vec<Link>, at: usize, next: usize)
    requires { at < length links.old.items }
    ensures next { (q : ℕ) →
        next_of links.new.items q ≡ cond (q == at) next (next_of links.old.items q) }
    ensures prev { (q : ℕ) → prev_of links.new.items q ≡ prev_of links.old.items q }
    ensures list { (q : ℕ) → list_of links.new.items q ≡ list_of links.old.items q }
    ensures len { length links.new.items ≡ length links.old.items }
{
    links[at].next = next;
}

// Sets the predecessor of a link.
fn set_prev(links: &mut Vec<Link>, at: usize, prev: usize)
    requires { at < length links.old.items }
    ensures next { (q : ℕ) → next_of links.new.items q ≡ next_of links.old.items q }
    ensures prev { (q : ℕ) →
        prev_of links.new.items q ≡ cond (q == at) prev (prev_of links.old.items q) }
    ensures list { (q : ℕ) → list_of links.new.items q ≡ list_of links.old.items q }
    ensures len { length links.new.items ≡ length links.old.items }
{
    links[at].prev = prev;
}

// Sets the list of a link.
fn set_list(links: &mut Vec<Link>, at: usize, list: usize)
    requires { at < length links.old.items }
    ensures next { (q : ℕ) → next_of links.new.items q ≡ next_of links.old.items q }
    ensures prev { (q : ℕ) → prev_of links.new.items q ≡ prev_of links.old.items q }
    ensures list { (q : ℕ) →
        list_of links.new.items q ≡ cond (q == at) list (list_of links.old.items q) }
    ensures len { length links.new.items ≡ length links.old.items }
{
    links[at].list = list;
}

// Swaps the successors of two links, which joins two circles into one, or splits one into two.
fn cross(links: &mut Vec<Link>, a: usize, b: usize)
    requires a_in { a < length links.old.items }
    requires b_in { b < length links.old.items }
    requires after_a { next_of links.old.items a < length links.old.items }
    requires after_b { next_of links.old.items b < length links.old.items }
    ensures next { (q : ℕ) → next_of links.new.items q
        ≡ cond (q == b) (next_of links.old.items a)
        (cond (q == a) (next_of links.old.items b) (next_of links.old.items q)) }
    ensures prev { (q : ℕ) → prev_of links.new.items q
        ≡ cond (q == next_of links.old.items a) b
        (cond (q == next_of links.old.items b) a (prev_of links.old.items q)) }
    ensures list { (q : ℕ) → list_of links.new.items q ≡ list_of links.old.items q }
    ensures len { length links.new.items ≡ length links.old.items }
{
    let after_a = next(links, a);
    let after_b = next(links, b);
    set_next(links, a, after_b);
    set_next(links, b, after_a);
    set_prev(links, after_b, a);
    set_prev(links, after_a, b);
}

// Returns the successor of a link.
fn next(links: &Vec<Link>, at: usize) -> usize
    requires { at < length links.now.items }
    ensures { result ≡ next_of links.now.items at }
{
    links[at].next
}

// Returns the predecessor of a link.
fn prev(links: &Vec<Link>, at: usize) -> usize
    requires { at < length links.now.items }
    ensures { result ≡ prev_of links.now.items at }
{
    links[at].prev
}

// Returns the list of a link.
fn list(links: &Vec<Link>, at: usize) -> usize
    requires { at < length links.now.items }
    ensures { result ≡ list_of links.now.items at }
{
    links[at].list
}

impl Ring {
    /// Creates a ring without keys.
    pub fn new(alloc: Global) -> Result<Ring, AllocError>
        ensures { IfOk result (λ r. r ≡ []) }
    {
        let mut links = Vec::with_capacity(alloc, LISTS)?;
        for list in 0..LISTS {
            links.push(Link {
                list,
                next: list,
                prev: list,
            })?;
        }
        Ok(Ring { links })
    }

    /// Returns the number of keys.
    pub fn len(&self) -> usize
        ensures { result ≡ length self.now }
    {
        self.links.len() - LISTS
    }

    /// Returns the list of a key.
    pub fn list(&self, key: usize) -> usize
        requires { key < length self.now }
        ensures { slice_get self.now key ≡ Some result }
    {
        let links = &self.links;
        list(links, LISTS + key)
    }

    /// Returns a key of a list.
    pub fn first(&self, list: usize) -> Option<usize>
        requires { list < 2051 }
        ensures some { IfSome result (λ k. slice_get self.now k ≡ Some list) }
        ensures within { IfSome result (λ k. k < length self.now) }
        ensures none { IfNone result ((k : ℕ) → slice_get self.now k ≢ Some list) }
    {
        let behind = next(&self.links, list);
        if behind < LISTS {
            return None;
        }
        Some(behind - LISTS)
    }

    /// Returns true only if a list has at most one key.
    pub fn is_alone(&self, list: usize) -> bool
        requires { list < 2051 }
        ensures { IsTrue result → (j k : ℕ) → slice_get self.now j ≡ Some list →
            slice_get self.now k ≡ Some list → j ≡ k }
    {
        let behind = next(&self.links, list);
        let before = prev(&self.links, list);
        if behind != before {
            return false;
        }
        true
    }

    /// Adds one more key, in a list.
    pub fn add(&mut self, list: usize) -> Result<(), AllocError>
        requires { list < 2051 }
        ensures ok { OnOk result (self.new ≡ self.old ++ list ∷ []) }
        ensures err { OnErr result (self.new ≡ self.old) }
    {
        let at = self.links.len();
        self.links.push(Link {
            list,
            next: at,
            prev: at,
        })?;
        cross(&mut self.links, list, at);
        Ok(())
    }

    /// Moves a key to a list.
    pub fn put(&mut self, key: usize, list: usize)
        requires known { key < length self.old }
        requires list { list < 2051 }
        ensures { self.new ≡ slice_set self.old key list }
    {
        let links = &mut self.links;
        let at = LISTS + key;
        let before = prev(links, at);
        cross(links, before, at);
        set_list(links, at, list);
        cross(links, list, at);
    }
}
