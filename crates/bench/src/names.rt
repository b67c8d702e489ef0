//! Lists of names.

ghost use Rattle.std.specs.Prelude.{◌≡◌, ◌+◌, ◌<◌, ◌==◌, ℕ, cond, vec_len, vec_capacity};
ghost use Rattle.bench.specs.Custody.{times};

// Removes one occurrence of a name from the list.
pub(crate) fn remove_one(names: &mut Vec<u32>, name: u32)
    requires there { 0 < times name names.old.items }
    ensures others { (x : ℕ) →
        times x names.new.items + cond (name == x) 1 0 ≡ times x names.old.items }
    ensures len { vec_len names.new + 1 ≡ vec_len names.old }
    ensures room { vec_capacity names.new ≡ vec_capacity names.old }
{
    // The resident that arrived last is usually the one that leaves.
    if let Some(last) = names.len().checked_sub(1) {
        if names[last] == name {
            names.swap_remove(last);
            return;
        }
    }
    for k in 0..names.len() {
        if names[k] == name {
            names.swap_remove(k);
            return;
        }
    }
    unreachable!()
}
