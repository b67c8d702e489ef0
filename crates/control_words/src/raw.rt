//! The contents of single words as they are written: numbers of up to 20 digits, whatever their
//! range.

/// The four numbers of an address, from the left.
#[derive(Clone, Copy)]
pub struct RawAddress {
    pub first: u128,
    pub second: u128,
    pub third: u128,
    pub fourth: u128,
}

/// An address, and the number of its bits that count, from the left.
#[derive(Clone, Copy)]
pub struct RawPrefix {
    pub address: RawAddress,
    pub length: u128,
}

/// The ports from the first to the last.
#[derive(Clone, Copy)]
pub struct RawPorts {
    pub first: u128,
    pub last: u128,
}

/// A queue's limit in slots or KBytes.
#[derive(Clone, Copy)]
pub enum RawQueue {
    Slots(u128),
    KBytes(u128),
}

/// A retransmission timeout in ms, or that of RFC 6298.
#[derive(Clone, Copy)]
pub enum RawTiming {
    Fixed(u128),
    Adaptive,
}
