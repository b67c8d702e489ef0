//! A due as one number, so that one comparison orders two dues.

ghost use Rattle.std.specs.Prelude.{◌≡◌, ◌<◌, ◌≤◌, ◌==◌, ◌-◌, ◌/◌, ◌%◌, ◌^◌, if◌then◌else◌, SomeIff, Option, Some, None, IsSome, IfSome, is_none, option_map, false};
ghost use Rattle.std.specs.Option.{option_map_or};
ghost use Rattle.emu_model.specs.Dues.{due as due_of, rank};
ghost use Rattle.due_index.specs.Least.{lesser};
ghost use Rattle.due_index.specs.Numbers.{class_at, due_at, due_in};

use emu_model::{Class, Due, FlowNumber, Source};
use std::marker::Model;

/// The weight of the time in a due's number, which exceeds every class and number.
const MOMENT: u128 = 18_446_744_073_709_551_616;

/// The weight of the class in a due's number, which exceeds every number.
const CLASS: u128 = 4_294_967_296;

/// The number that means no due, which is after every due.
const NO_DUE: u128 = 340_282_366_920_938_463_463_374_607_431_768_211_455;

/// A due as one number, ordered by time, class and number, or none, which is after every due.
/// Contracts see an optional due.
#[derive(Clone, Copy, PartialEq)]
pub struct DueNumber {
    bits: u128,
}

impl Model for DueNumber {
    ghost use Rattle.std.specs.Prelude.{◌≡◌, Option};
    ghost use Rattle.emu_model.specs.declared.sources.Due.{Due};
    ghost use Rattle.due_index.specs.Numbers.{due_in, bits_of};

    ghost Value = { Option Due };

    ghost view = { λ d. due_in d.bits };

    ghost invariant = { λ d. bits_of (due_in d.bits) ≡ d.bits };

    ghost inverse = { λ d. record { bits = bits_of d } };

    ghost inverse_ok = { λ d h i. record { bits = h i } };
}

fn place_of(class: Class) -> u64
    ensures { result ≡ rank class }
{
    match class {
        Class::NextCommand => 0,
        Class::Exit => 1,
        Class::Finish => 2,
        Class::Expiry => 3,
        Class::Emission => 4,
    }
}

fn class_at(place: u64) -> Class
    ensures { result ≡ class_at place }
{
    match place {
        0 => Class::NextCommand,
        1 => Class::Exit,
        2 => Class::Finish,
        3 => Class::Expiry,
        _ => Class::Emission,
    }
}

fn due_at(bits: u128) -> Due
    ensures { result ≡ due_at bits }
{
    let number = (bits % CLASS) as u32;
    let class = class_at((bits / CLASS % CLASS) as u64);
    let moment = (bits / MOMENT) as u64;
    Due {
        moment,
        source: Source { class, number },
    }
}

impl DueNumber {
    /// Returns no due.
    #[inline(always)]
    pub fn none() -> Self
        ensures { result ≡ None }
    {
        DueNumber { bits: NO_DUE }
    }

    /// Returns the due of a source at a time (ns).
    #[inline(always)]
    pub fn at(moment: u64, source: Source) -> Self
        ensures { result ≡ Some (due_of source.class source.number moment) }
    {
        let class = u128::from(place_of(source.class)) * CLASS;
        let bits = u128::from(moment) * MOMENT + (class + u128::from(source.number));
        DueNumber { bits }
    }

    /// Returns the due of a source at a time (ns), or none if there is no time.
    #[inline(always)]
    pub fn at_some(moment: Option<u64>, source: Source) -> Self
        ensures { result ≡ option_map (due_of source.class source.number) moment }
    {
        match moment {
            Some(moment) => DueNumber::at(moment, source),
            None => DueNumber::none(),
        }
    }

    /// Converts an optional due.
    #[inline(always)]
    pub fn of(due: Option<Due>) -> Self
        ensures { result ≡ due }
    {
        match due {
            Some(due) => DueNumber::at(due.moment, due.source),
            None => DueNumber::none(),
        }
    }

    /// Returns the due, or None if there is none.
    #[inline(always)]
    pub fn due(self) -> Option<Due>
        ensures { result ≡ self }
    {
        if self.bits == NO_DUE {
            return None;
        }
        Some(due_at(self.bits))
    }

    /// Returns true if nothing is due.
    #[inline(always)]
    pub fn is_none(self) -> bool
        ensures { result ≡ is_none self }
    {
        self.bits == NO_DUE
    }

    /// Returns the due, which must exist.
    #[inline(always)]
    pub fn some(self) -> Due
        requires { IsSome self }
        ensures { self ≡ Some result }
    {
        due_at(self.bits)
    }

    // Returns the rank of the due's class.
    #[inline(always)]
    fn class_place(self) -> u64
        ensures there { IfSome self (λ d. result ≡ rank d.source.class) }
        ensures none { self ≡ None → result ≡ 2 ^ 32 - 1 }
    {
        (self.bits / CLASS % CLASS) as u64
    }

    /// Returns true if the due is that of a timer.
    #[inline(always)]
    pub fn is_expiry(self) -> bool
        ensures { result ≡ option_map_or (λ d. rank d.source.class == 3) self false }
    {
        self.class_place() == 3
    }

    /// Returns the flow of a timer, or the flow or train of an emission.
    #[inline(always)]
    pub fn flow(self) -> Option<FlowNumber>
        ensures { IfSome self (λ d. let k = d.source.number in k < 2 ^ 16 →
            SomeIff result ((1 ≤ k) × (k ≤ 65535)) k) }
    {
        FlowNumber::new((self.bits % 65_536) as u16)
    }

    /// Returns true if this due is before another one. An absent due is never before another one.
    #[inline(always)]
    pub fn is_before(self, other: DueNumber) -> bool
        ensures { (if result then self else other) ≡ lesser other self }
    {
        self.bits < other.bits
    }

    /// Returns the earlier of two optional dues, by time, class and number.
    #[inline(always)]
    pub fn or_earlier(self, other: DueNumber) -> DueNumber
        ensures { result ≡ lesser self other }
    {
        if other.bits < self.bits { other } else { self }
    }
}
