//! The ranges of a scenario's numbers, the order of dues, and the size of a record.

use crate::tests::wants::assert_same;
use emu_model::*;
use std::process::Abort;

// Returns true if a constructor accepts exactly the numbers from `low` to `high`, judged by the two
// ends of its range and their neighbours, for numbers of each width. There is no neighbour where
// the integer has no smaller or larger value.
fn keeps_8<const LOW: u8, const HIGH: u8>(
    _made: Option<RangedU8<LOW, HIGH>>,
    low: u8,
    high: u8,
) -> bool {
    let takes_ends = takes_8::<LOW, HIGH>(low) && takes_8::<LOW, HIGH>(high);
    let takes_below = low > 0 && takes_8::<LOW, HIGH>(low - 1);
    let takes_above = high < u8::MAX && takes_8::<LOW, HIGH>(high + 1);
    takes_ends && !takes_below && !takes_above
}

fn takes_8<const LOW: u8, const HIGH: u8>(value: u8) -> bool {
    RangedU8::<LOW, HIGH>::new(value).is_some()
}

fn keeps_16<const LOW: u16, const HIGH: u16>(
    _made: Option<RangedU16<LOW, HIGH>>,
    low: u16,
    high: u16,
) -> bool {
    let takes_ends = takes_16::<LOW, HIGH>(low) && takes_16::<LOW, HIGH>(high);
    let takes_below = low > 0 && takes_16::<LOW, HIGH>(low - 1);
    let takes_above = high < u16::MAX && takes_16::<LOW, HIGH>(high + 1);
    takes_ends && !takes_below && !takes_above
}

fn takes_16<const LOW: u16, const HIGH: u16>(value: u16) -> bool {
    RangedU16::<LOW, HIGH>::new(value).is_some()
}

fn keeps_32<const LOW: u32, const HIGH: u32>(
    _made: Option<RangedU32<LOW, HIGH>>,
    low: u32,
    high: u32,
) -> bool {
    let takes_ends = takes_32::<LOW, HIGH>(low) && takes_32::<LOW, HIGH>(high);
    let takes_below = low > 0 && takes_32::<LOW, HIGH>(low - 1);
    let takes_above = high < u32::MAX && takes_32::<LOW, HIGH>(high + 1);
    takes_ends && !takes_below && !takes_above
}

fn takes_32<const LOW: u32, const HIGH: u32>(value: u32) -> bool {
    RangedU32::<LOW, HIGH>::new(value).is_some()
}

fn keeps_64<const LOW: u64, const HIGH: u64>(
    _made: Option<RangedU64<LOW, HIGH>>,
    low: u64,
    high: u64,
) -> bool {
    let takes_ends = takes_64::<LOW, HIGH>(low) && takes_64::<LOW, HIGH>(high);
    let takes_below = low > 0 && takes_64::<LOW, HIGH>(low - 1);
    let takes_above = high < u64::MAX && takes_64::<LOW, HIGH>(high + 1);
    takes_ends && !takes_below && !takes_above
}

fn takes_64<const LOW: u64, const HIGH: u64>(value: u64) -> bool {
    RangedU64::<LOW, HIGH>::new(value).is_some()
}

// Checks each range of a scenario.
#[test]
fn makers_keep_their_ranges(rt: HostRuntime) {
    assert_holds!(&rt; keeps_16(Size::new(0), 40, 1500));
    assert_holds!(&rt; keeps_32(RuleNumber::new(0), 0, 99_999));
    assert_holds!(&rt; keeps_8(PrefixLength::new(0), 0, 32));
    assert_holds!(&rt; keeps_16(PipeNumber::new(0), 1, 65_535));
    assert_holds!(&rt; keeps_16(FlowNumber::new(0), 1, 65_535));
    assert_holds!(&rt; keeps_64(Bandwidth::new(0), 0, 10_000_000_000));
    assert_holds!(&rt; keeps_16(Delay::new(0), 0, 60_000));
    assert_holds!(&rt; keeps_16(SlotLimit::new(0), 1, 1000));
    assert_holds!(&rt; keeps_16(KByteLimit::new(0), 1, 1024));
    assert_holds!(&rt; keeps_32(LossRate::new(0), 0, 1_000_000));
    assert_holds!(&rt; keeps_64(CodelTime::new(0), 1000, 60_000_000_000));
    assert_holds!(&rt; keeps_16(SegmentSize::new(0), 64, 1460));
    assert_holds!(&rt; keeps_32(Amount::new(0), 1, 1_000_000));
    assert_holds!(&rt; keeps_64(Gap::new(0), 0, 1_000_000_000_000));
    assert_holds!(&rt; keeps_32(Threshold::new(0), 1, 1_000_000_000));
    assert_holds!(&rt; keeps_16(Window::new(0), 1, 65_535));
    assert_holds!(&rt; keeps_16(Timeout::new(0), 1, 60_000));
    assert_holds!(&rt; keeps_16(PacketBudget::new(0), 1, 65_535));
    assert_holds!(&rt; keeps_32(StepBudget::new(0), 1, 10_000_000));
}

#[test]
fn ports_stand_in_order(rt: HostRuntime) {
    assert_holds!(&rt; PortRange::new(10, 20).is_some());
    assert_holds!(&rt; PortRange::new(20, 20).is_some());
    assert_holds!(&rt; PortRange::new(20, 10).is_none());
}

// Returns the bits of 10.1.2.3 that are left at a prefix length, which must be kept.
fn cleared_address(rt: &impl Abort, len: u8) -> u32 {
    let length = PrefixLength::new(len).expect(rt, "a length");
    let prefix = Prefix::new(0x0a010203, length);
    assert_same(rt, prefix.length().get(), len);
    prefix.address()
}

#[test]
fn prefix_clears_what_is_past_its_length(rt: HostRuntime) {
    assert_same(&rt, cleared_address(&rt, 0), 0);
    assert_same(&rt, cleared_address(&rt, 8), 0x0a000000);
    assert_same(&rt, cleared_address(&rt, 15), 0x0a000000);
    assert_same(&rt, cleared_address(&rt, 16), 0x0a010000);
    assert_same(&rt, cleared_address(&rt, 31), 0x0a010202);
    assert_same(&rt, cleared_address(&rt, 32), 0x0a010203);
}

fn due(moment: u64, class: Class, number: u32) -> Due {
    Due {
        moment,
        source: Source { class, number },
    }
}

// Returns true if a due is before exactly those from a place on.
fn is_before_all_from(due: &Due, rising: &[Due], place: usize) -> bool {
    for (other, later) in rising.iter().enumerate() {
        if due.is_before(later) != (place < other) {
            return false;
        }
    }
    true
}

// Checks that dues are ordered by time, then by class, then by number.
#[test]
fn dues_stand_in_order(rt: HostRuntime) {
    let rising = [
        due(5, Class::Emission, 9),
        due(6, Class::NextCommand, 0),
        due(6, Class::Exit, 256),
        due(6, Class::Exit, 257),
        due(6, Class::Finish, 0),
    ];
    for (place, earlier) in rising.iter().enumerate() {
        assert_holds!(&rt; is_before_all_from(earlier, &rising, place));
    }
}

fn inject(size: Size) -> Command {
    Command::Inject(SendSpec {
        proto: Protocol::Udp,
        src: 1,
        sport: 2,
        dst: 3,
        dport: 4,
        size,
    })
}

// Checks that `command_in_range` only reads the command whose range it states.
#[test]
fn ranges_of_a_command_are_told(rt: HostRuntime) {
    let size = Size::new(1500).expect(&rt, "a size");
    let command = inject(size);
    command_in_range(&command);
    assert_holds!(&rt; command == inject(size));
}

#[test]
fn records_are_small(rt: HostRuntime) {
    assert_holds!(&rt; size_of::<Record>() <= 72);
    assert_holds!(&rt; size_of::<Timed>() <= 80);
}
