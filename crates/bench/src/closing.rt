//! The names of closed benches, and their audit.

ghost use Rattle.std.specs.Prelude.{◌≡◌, ◌+◌, ◌≤◌, ◌<◌, ℕ, length, vec_len, vec_capacity, OnOk, IfErr};
ghost use Rattle.std.specs.Bool.{Decides};
ghost use Rattle.bench.specs.Custody.{times, named};
ghost use Rattle.bench.specs.Ends.{deque_view};
ghost use Rattle.bench.specs.Audits.{Accounted, NowhereAt, NowhereIn, IsLeast, stands};

use crate::deque::Deque;
use crate::mail::RingMail;
use shard::Parcel;

/// The names of a bench that was closed.
#[derive(Drop)]
pub struct Closing {
    pub admitted: Vec<u32>,
    pub adopted: Vec<u32>,
    pub ended: Vec<u32>,
    pub resident: Vec<u32>,
    pub handed_out: Vec<u32>,
    pub deque: Vec<u32>,
}

// Takes parcels from the deque until it is empty.
pub(crate) fn drain(deque: &mut Deque, left: &mut Vec<u32>)
    requires { (vec_len left.old ≡ 0)
        × (length (deque_view deque.old).pushed
        ≤ length (deque_view deque.old).taken + vec_capacity left.old) }
    ensures pushed { (deque_view deque.new).pushed ≡ (deque_view deque.old).pushed }
    ensures taken { (x : ℕ) →
        named x (deque_view deque.new).taken
        ≡ named x (deque_view deque.old).taken + times x left.new.items }
{
    while let Some(parcel) = deque.pop() {
        left.push_reserved(name_of(parcel));
    }
}

// Discards a parcel, except for its name.
fn name_of(parcel: Parcel<RingMail>) -> u32
    ensures { result ≡ parcel.name }
{
    parcel.name()
}

// The number of times that a name occurs in each kind of list.
#[derive(Clone, Copy)]
struct Standing {
    admitted: u128,
    handed_out: u128,
    ended: u128,
    resident: u128,
    deque: u128,
}

fn count(x: u32, list: &[u32]) -> usize
    ensures { result ≡ times x list.now }
{
    list.iter().filter(|y| **y == x).count()
}

fn look_up(x: u32, closings: &[Closing]) -> Standing
    ensures admitted { result.admitted ≡ stands (λ c. c.admitted.items) x closings.now }
    ensures handed_out { result.handed_out ≡ stands (λ c. c.handed_out.items) x closings.now }
    ensures ended { result.ended ≡ stands (λ c. c.ended.items) x closings.now }
    ensures resident { result.resident ≡ stands (λ c. c.resident.items) x closings.now }
    ensures deque { result.deque ≡ stands (λ c. c.deque.items) x closings.now }
{
    let mut s = Standing {
        admitted: 0,
        handed_out: 0,
        ended: 0,
        resident: 0,
        deque: 0,
    };
    for c in closings {
        s.admitted += count(x, c.admitted.as_slice()) as u128;
        s.handed_out += count(x, c.handed_out.as_slice()) as u128;
        s.ended += count(x, c.ended.as_slice()) as u128;
        s.resident += count(x, c.resident.as_slice()) as u128;
        s.deque += count(x, c.deque.as_slice()) as u128;
    }
    s
}

fn is_accounted(x: u32, closings: &[Closing]) -> bool
    ensures { Decides result (Accounted closings.now x) }
{
    let s = look_up(x, closings);
    if s.ended > 1 || s.resident > 1 || s.deque > 1 {
        return false;
    }
    let placed = s.ended + s.resident + s.deque;
    placed <= 1 && placed <= s.admitted && s.admitted - placed == s.handed_out
}

// Returns the maximum of the names and of `so_far`.
fn greatest_of(list: &[u32], so_far: u32) -> u32
    ensures most { so_far ≤ result }
    ensures none { (x : ℕ) → result < x → times x list.now ≡ 0 }
{
    let mut most = so_far;
    for y in list {
        if *y > most {
            most = *y;
        }
    }
    most
}

fn greatest_in(c: &Closing, so_far: u32) -> u32
    ensures most { so_far ≤ result }
    ensures none { (x : ℕ) → result < x → NowhereIn x c.now }
{
    let most = greatest_of(c.admitted.as_slice(), so_far);
    let most = greatest_of(c.handed_out.as_slice(), most);
    let most = greatest_of(c.ended.as_slice(), most);
    let most = greatest_of(c.resident.as_slice(), most);
    greatest_of(c.deque.as_slice(), most)
}

fn greatest_name(closings: &[Closing]) -> u32
    ensures { (x : ℕ) → result < x → NowhereAt x closings.now }
{
    let mut most = 0;
    for c in closings {
        most = greatest_in(c, most);
    }
    most
}

/// Checks that each name is accounted for. Returns the smallest name that isn't.
pub fn audit(closings: &[Closing]) -> Result<(), Lost>
    ensures ok { OnOk result ((x : ℕ) → Accounted closings.now x) }
    ensures lost { IfErr result (λ e. IsLeast closings.now e.0) }
{
    let most = greatest_name(closings);
    for x in 0..most {
        if !is_accounted(x, closings) {
            return Err(Lost(x));
        }
    }
    if !is_accounted(most, closings) {
        return Err(Lost(most));
    }
    Ok(())
}

/// The smallest name that isn't accounted for.
#[derive(Clone, Copy, Debug, PartialEq, Eq)]
pub struct Lost(pub u32);
