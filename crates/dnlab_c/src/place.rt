//! The place where a caller that is not Rattle keeps its session.

ghost use Rattle.std.specs.Prelude.{◌≡◌, None, Some, option_map};
ghost use Rattle.std.specs.Coded.{coded_option};
ghost use Rattle.std.specs.declared.option.Option.{Option};
ghost use Rattle.dnlab_c.specs.Guests.{KeptGuest};
ghost use Rattle.dnlab_c.specs.contracts.guest.Guest.{the_row};

use crate::guest::Guest;
use crate::loose::Loose;
use std::alloc::Global;
use std::marker::Model;
use std::ptr::null_mut;

/// An opaque session, of which C sees nothing.
#[repr(C)]
#[derive(Drop)]
pub struct Hidden {
    hidden: u8,
}

/// The address of a session, or null if there is none. A place is not `Drop`, so code that loses
/// one, and with it the memory of its session, does not compile.
#[repr(C)]
pub struct Place {
    at: *mut Hidden,
    pub ghost guest: { Option KeptGuest } by { coded_option the_row.coded },
}

impl Model for Place {
    ghost use Rattle.dnlab_c.specs.Places.{placed};

    ghost also_owns = { λ p. placed p.at p.guest };
}

impl Place {
    /// Creates a place without a session.
    pub fn empty() -> Place
        ensures { result.guest ≡ None }
    {
        Place { at: null_mut() }
    }

    /// Creates the place of a session.
    pub fn of(guest: Loose<Guest, Global>) -> Place
        ensures { result.guest ≡ Some guest.value }
    {
        let Loose { at, alloc: _ } = guest;
        Place {
            at: at as *mut Hidden,
        }
    }

    /// Returns the session at the place, if there is one.
    pub fn into_loose(self, alloc: Global) -> Option<Loose<Guest, Global>>
        ensures { option_map (λ l. l.value) result ≡ self.guest }
    {
        let Place { at } = self;
        if at.is_null() {
            None
        } else {
            Some(Loose {
                at: at as *mut Guest,
                alloc,
            })
        }
    }
}

// The session behind the pointer may move to another thread.
unsafe impl Send for Place {}
