//! Rules, and the result of a search among them (ipfw(8)).

ghost use Rattle.std.specs.Prelude.{◌≡◌, ◌≤◌};
ghost use Rattle.std.specs.Option.{SomeIff};
ghost use Rattle.emu_model.specs.Spans.{address_span};

use crate::packets::Place;
use crate::ranged::{PipeNumber, PrefixLength, RuleNumber};
use std::marker::Model;

/// The action of a rule on a packet that it matches: `allow`, `deny`, `count`, `skipto`, `pipe`.
#[derive(Clone, Copy, PartialEq)]
pub enum Action {
    Allow,
    Deny,
    Count,
    SkipTo(RuleNumber),
    Pipe(PipeNumber),
}

#[derive(Clone, Copy, PartialEq)]
pub enum ProtocolMatch {
    AnyProtocol,
    OnlyTcp,
    OnlyUdp,
}

/// The addresses whose first `len` bits are those of `address`, of which all other bits are 0;
/// length 0 is any address.
#[derive(Clone, Copy, PartialEq)]
pub struct Prefix {
    address: u32,
    len: PrefixLength,
}

impl Model for Prefix {
    ghost use Rattle.std.specs.Prelude.{◌≡◌, ◌-◌, ◌%◌, ◌^◌};
    ghost use Rattle.emu_model.specs.Spans.{AddressSpan};

    ghost Value = { AddressSpan };

    ghost view = { λ p. record { address = p.address; len = p.len } };

    ghost invariant = { λ p. p.address % 2 ^ (32 - p.len) ≡ 0 };

    ghost inverse = { λ s. record { address = s.address; len = s.len } };
}

impl Prefix {
    /// Creates a prefix, and clears the bits of the address beyond the length.
    pub fn new(address: u32, len: PrefixLength) -> Self
        ensures { result ≡ address_span address len }
    {
        let unit = 1u64 << (32 - len.get());
        let address = u64::from(address) / unit * unit;
        Prefix {
            address: address as u32,
            len,
        }
    }

    /// Returns the address, whose bits beyond the length are 0.
    pub fn address(self) -> u32
        ensures { result ≡ self.address }
    {
        let Prefix { address, .. } = self;
        address
    }

    /// Returns the number of address bits that are compared.
    pub fn length(self) -> PrefixLength
        ensures { result ≡ self.len }
    {
        let Prefix { len, .. } = self;
        len
    }
}

/// The ports from `first` to `last`.
#[derive(Clone, Copy, PartialEq)]
pub struct PortRange {
    first: u16,
    last: u16,
}

impl Model for PortRange {
    ghost use Rattle.std.specs.Prelude.{◌≤◌};
    ghost use Rattle.emu_model.specs.Spans.{PortSpan};

    ghost Value = { PortSpan };

    ghost view = { λ r. record { first = r.first; last = r.last } };

    ghost invariant = { λ r. r.first ≤ r.last };

    ghost inverse = { λ r. record { first = r.first; last = r.last } };
}

impl PortRange {
    /// Creates a range, or returns None if the first port is above the last.
    pub fn new(first: u16, last: u16) -> Option<Self>
        ensures { SomeIff result (first ≤ last) (record { first = first; last = last }) }
    {
        if first <= last {
            Some(PortRange { first, last })
        } else {
            None
        }
    }

    /// Returns the first port.
    pub fn first(self) -> u16
        ensures { result ≡ self.first }
    {
        let PortRange { first, .. } = self;
        first
    }

    /// Returns the last port, which is not below the first.
    pub fn last(self) -> u16
        ensures { result ≡ self.last }
    {
        let PortRange { last, .. } = self;
        last
    }
}

/// A rule; without ports it matches every port.
#[derive(Clone, Copy, PartialEq)]
pub struct Rule {
    pub number: RuleNumber,
    pub action: Action,
    pub proto: ProtocolMatch,
    pub src: Prefix,
    pub sports: Option<PortRange>,
    pub dst: Prefix,
    pub dports: Option<PortRange>,
}

/// The result of a search among the rules; for a pipe, with the place of the rule that sends
/// packets there.
#[derive(Clone, Copy)]
pub enum Verdict {
    OverTheLink,
    Dropped,
    IntoPipe(PipeNumber, Place),
}
