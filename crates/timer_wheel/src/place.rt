//! The place of an entry.
ghost use Rattle.std.specs.Prelude.{◌≡◌, ◌<◌};
ghost use Rattle.timer_wheel.specs.Places.{place_of};

const LEVELS: usize = 8;

const SLOTS: usize = 256;

/// Returns the place of a due at a clock, as level * 256 + byte: the highest level at which their
/// bytes differ, or level 0 if none does, and that byte of the due.
#[tactic(auto, using(crate::proofs::PlaceFacts::place_start, crate::proofs::PlaceFacts::place_near, crate::proofs::PlaceFacts::place_step, crate::proofs::PlaceFacts::place_last))]
pub fn place(clock: u64, due: u64) -> usize
    ensures place { result ≡ place_of clock due }
    ensures within { result < 2048 }
{
    let mut clock = clock;
    let mut due = due;
    for level in 0..LEVELS - 1 {
        if clock / 256 == due / 256 {
            return level * SLOTS + (due % 256) as usize;
        }
        clock /= 256;
        due /= 256;
    }
    (LEVELS - 1) * SLOTS + (due % 256) as usize
}
