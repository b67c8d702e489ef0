//! CoDel's control law (RFC 8289, section 5.6) in whole nanoseconds; the rounding down is our choice.

ghost use Rattle.std.specs.Prelude.{◌≡◌, ◌+◌, ◌-◌, ◌*◌, ◌^◌, ◌<◌, ◌≤◌, nat_le};
ghost use Rattle.emu_model.specs.Codel.{control_law, IsControlStep};

use emu_model::CodelTime;

/// Returns the time of the next drop after one at `t`, the `count`-th since dropping began: `t`
/// plus `interval / sqrt(count)`, rounded down. Nanoseconds.
pub fn control_law(t: u64, count: u32, interval: CodelTime) -> u64
    requires some { 1 ≤ count }
    requires early { t < 2 ^ 63 }
    ensures law { result ≡ control_law interval t count }
    ensures step { IsControlStep interval count (result - t) }
    ensures within { result ≤ t + interval }
{
    t + control_step(interval.get(), count)
}

/// Returns the largest integer whose square times `count` is at most the square of `interval`.
fn control_step(interval: u64, count: u32) -> u64
    requires small { interval < 2 ^ 36 }
    requires some { 1 ≤ count }
    ensures step { IsControlStep interval count result }
    ensures within { result ≤ interval }
{
    let mut fitting = 0;
    let mut above = interval + 1;
    while above - fitting > 1 {
        let middle = fitting + (above - fitting) / 2;
        if fits(middle, count, interval) {
            fitting = middle;
        } else {
            above = middle;
        }
    }
    fitting
}

fn fits(step: u64, count: u32, interval: u64) -> bool
    requires step { step < 2 ^ 36 }
    requires interval { interval < 2 ^ 36 }
    ensures { result ≡ nat_le (step * step * count) (interval * interval) }
{
    let step = u128::from(step);
    let interval = u128::from(interval);
    step * step * u128::from(count) <= interval * interval
}
