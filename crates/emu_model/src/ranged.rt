//! Integers that keep their range, one struct for each width. Contracts see the number itself. Our
//! choice.

ghost use Rattle.std.specs.Prelude.{◌≡◌, ℕ, ◌≤◌};
ghost use Rattle.std.specs.Option.{SomeIff};

use std::marker::Model;

/// An integer from LOW to HIGH that fits into one byte.
#[derive(Clone, Copy, PartialEq)]
pub struct RangedU8<const LOW: u8, const HIGH: u8> {
    value: u8,
}

impl<const LOW: u8, const HIGH: u8> Model for RangedU8<LOW, HIGH> {
    ghost Value = { ℕ };

    ghost view = { λ r. r.value };

    ghost invariant = { (λ r. (LOW ≤ r.value) × (r.value ≤ HIGH)) };

    ghost inverse = { λ n. record { value = n } };
}

impl<const LOW: u8, const HIGH: u8> RangedU8<LOW, HIGH> {
    /// Creates the number, or returns None if the value is outside the range.
    pub fn new(value: u8) -> Option<Self>
        ensures { SomeIff result ((LOW ≤ value) × (value ≤ HIGH)) value }
    {
        if LOW <= value && value <= HIGH {
            Some(RangedU8 { value })
        } else {
            None
        }
    }

    /// Returns the number itself.
    pub fn get(self) -> u8
        ensures value { result ≡ self.entry }
        ensures low { LOW ≤ result }
        ensures high { result ≤ HIGH }
    {
        let RangedU8 { value } = self;
        value
    }
}

/// An integer from LOW to HIGH that fits into two bytes.
#[derive(Clone, Copy, PartialEq)]
pub struct RangedU16<const LOW: u16, const HIGH: u16> {
    value: u16,
}

impl<const LOW: u16, const HIGH: u16> Model for RangedU16<LOW, HIGH> {
    ghost Value = { ℕ };

    ghost view = { λ r. r.value };

    ghost invariant = { (λ r. (LOW ≤ r.value) × (r.value ≤ HIGH)) };

    ghost inverse = { λ n. record { value = n } };
}

impl<const LOW: u16, const HIGH: u16> RangedU16<LOW, HIGH> {
    /// Creates the number, or returns None if the value is outside the range.
    pub fn new(value: u16) -> Option<Self>
        ensures { SomeIff result ((LOW ≤ value) × (value ≤ HIGH)) value }
    {
        if LOW <= value && value <= HIGH {
            Some(RangedU16 { value })
        } else {
            None
        }
    }

    /// Returns the number itself.
    pub fn get(self) -> u16
        ensures value { result ≡ self.entry }
        ensures low { LOW ≤ result }
        ensures high { result ≤ HIGH }
    {
        let RangedU16 { value } = self;
        value
    }
}

/// An integer from LOW to HIGH that fits into four bytes.
#[derive(Clone, Copy, PartialEq)]
pub struct RangedU32<const LOW: u32, const HIGH: u32> {
    value: u32,
}

impl<const LOW: u32, const HIGH: u32> Model for RangedU32<LOW, HIGH> {
    ghost Value = { ℕ };

    ghost view = { λ r. r.value };

    ghost invariant = { (λ r. (LOW ≤ r.value) × (r.value ≤ HIGH)) };

    ghost inverse = { λ n. record { value = n } };
}

impl<const LOW: u32, const HIGH: u32> RangedU32<LOW, HIGH> {
    /// Creates the number, or returns None if the value is outside the range.
    pub fn new(value: u32) -> Option<Self>
        ensures { SomeIff result ((LOW ≤ value) × (value ≤ HIGH)) value }
    {
        if LOW <= value && value <= HIGH {
            Some(RangedU32 { value })
        } else {
            None
        }
    }

    /// Returns the number itself.
    pub fn get(self) -> u32
        ensures value { result ≡ self.entry }
        ensures low { LOW ≤ result }
        ensures high { result ≤ HIGH }
    {
        let RangedU32 { value } = self;
        value
    }
}

/// An integer from LOW to HIGH that fits into eight bytes.
#[derive(Clone, Copy, PartialEq)]
pub struct RangedU64<const LOW: u64, const HIGH: u64> {
    value: u64,
}

impl<const LOW: u64, const HIGH: u64> Model for RangedU64<LOW, HIGH> {
    ghost Value = { ℕ };

    ghost view = { λ r. r.value };

    ghost invariant = { (λ r. (LOW ≤ r.value) × (r.value ≤ HIGH)) };

    ghost inverse = { λ n. record { value = n } };
}

impl<const LOW: u64, const HIGH: u64> RangedU64<LOW, HIGH> {
    /// Creates the number, or returns None if the value is outside the range.
    pub fn new(value: u64) -> Option<Self>
        ensures { SomeIff result ((LOW ≤ value) × (value ≤ HIGH)) value }
    {
        if LOW <= value && value <= HIGH {
            Some(RangedU64 { value })
        } else {
            None
        }
    }

    /// Returns the number itself.
    pub fn get(self) -> u64
        ensures value { result ≡ self.entry }
        ensures low { LOW ≤ result }
        ensures high { result ≤ HIGH }
    {
        let RangedU64 { value } = self;
        value
    }
}

/// The size of a packet in bytes.
pub type Size = RangedU16<40, 1500>;

/// The number of a rule as a command has it. A number that no rule can have is refused with a
/// reply.
pub type RuleNumber = RangedU32<0, 99999>;

/// The number of address bits that a prefix compares.
pub type PrefixLength = RangedU8<0, 32>;

pub type PipeNumber = RangedU16<1, 65535>;

/// The number of a flow or of a train.
pub type FlowNumber = RangedU16<1, 65535>;

/// A rate in bit/s; 0 is unlimited.
pub type Bandwidth = RangedU64<0, 10000000000>;

/// A delay in milliseconds.
pub type Delay = RangedU16<0, 60000>;

/// The number of packets that may wait.
pub type SlotLimit = RangedU16<1, 1000>;

/// The number of bytes that may wait, in units of 1024.
pub type KByteLimit = RangedU16<1, 1024>;

/// A loss rate in millionths.
pub type LossRate = RangedU32<0, 1000000>;

/// CoDel's target or interval in nanoseconds.
pub type CodelTime = RangedU64<1000, 60000000000>;

/// The size of a segment in bytes (SMSS).
pub type SegmentSize = RangedU16<64, 1460>;

/// The number of segments of a flow, or of packets of a train.
pub type Amount = RangedU32<1, 1000000>;

/// The time between two packets of a train, in nanoseconds.
pub type Gap = RangedU64<0, 1000000000000>;

/// The initial slow start threshold in bytes.
pub type Threshold = RangedU32<1, 1000000000>;

/// The receiver's window in bytes.
pub type Window = RangedU16<1, 65535>;

/// A retransmission timeout in milliseconds.
pub type Timeout = RangedU16<1, 60000>;

/// The number of packets that an experiment may hold.
pub type PacketBudget = RangedU16<1, 65535>;

/// The number of steps that an experiment may make.
pub type StepBudget = RangedU32<1, 10000000>;
