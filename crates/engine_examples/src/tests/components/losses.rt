use crate::tests::wants::assert_same;
use emu_model::{LossRate, PipeNumber};
use loss_stream::LossStream;
use std::process::Abort;

/// Returns whether the first two packets of seed 0 are lost, at rates in millionths. The key is
/// zero, and its first words are 2917185654 and 2419978656.
fn two_lost(rt: &impl Abort, first: u32, second: u32) -> [bool; 2] {
    let pipe = PipeNumber::new(1).expect(rt, "a pipe");
    let mut stream = LossStream::new(0, pipe, 0);
    assert_same(rt, stream.drawn(), 0);
    let one = stream.lose(LossRate::new(first).expect(rt, "a rate"));
    assert_same(rt, stream.drawn(), 1);
    let other = stream.lose(LossRate::new(second).expect(rt, "a rate"));
    assert_same(rt, stream.drawn(), 2);
    [one, other]
}

#[test]
fn words_are_those_of_the_cipher(rt: HostRuntime) {
    for (plr, lost) in &[
        (0, [false, false]),
        (563_445, [false, false]),
        (563_446, [false, true]),
        (600_000, [false, true]),
        (679_210, [false, true]),
        (679_211, [true, true]),
        (680_000, [true, true]),
        (1_000_000, [true, true]),
    ] {
        assert_same(&rt, two_lost(&rt, *plr, *plr), *lost);
    }
}

#[test]
fn each_packet_draws(rt: HostRuntime) {
    assert_same(&rt, two_lost(&rt, 0, 600_000), [false, true]);
}
