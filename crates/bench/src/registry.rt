//! The registry, which assigns names.

ghost use Rattle.std.specs.Prelude.{◌≡◌, ◌+◌, ◌<◌, ◌^◌, [], IfOk, IfErr, OnErr};
ghost use Rattle.shard.specs.Stand.{opened_stand};
ghost use Rattle.bench.specs.Rings.{ring_seen, IsOpened};
ghost use Rattle.bench.specs.Tenants.{posted, letters_read};
ghost use Rattle.bench.specs.Registries.{OpenFails};
ghost use Rattle.rtrb.specs.Ring.{IsPair, producer_capacity};

use crate::mail::{Moments, RingMail};
use crate::tenant::Tenant;
use emu_model::Spec;
use rtrb::RingBuffer;
use shard::{Parcel, SLOTS};
use std::alloc::{AllocError, Global};

/// The number of names.
pub const NAMES: u32 = 1_000_000;

/// A registry that assigns names below 10^6, in increasing order.
#[derive(Drop)]
pub struct Registry {
    next: u32,
}

/// The reason why no tenant was opened: all names are assigned (46), or memory ran out.
#[derive(Clone, Copy, Debug, Drop, PartialEq, Eq)]
pub enum OpenError {
    NamesOut = 46,
    NoMemory = 99,
}

impl From<AllocError> for OpenError {
    ghost use Rattle.std.specs.Prelude.{◌≡◌};
    ghost use Rattle.bench.specs.declared.registry.OpenError.TheVariants.{NoMemory};

    ghost from_gives = { λ _ e. e ≡ NoMemory };

    fn from(_refused: AllocError) -> OpenError {
        OpenError::NoMemory
    }
}

impl Registry {
    /// Creates a registry that assigns names from 0 on.
    pub fn new() -> Self
        ensures { result.next ≡ 0 }
    {
        Registry { next: 0 }
    }

    /// Creates a registry that assigns names from n on.
    pub fn starting(n: u32) -> Self
        ensures { result.next ≡ n }
    {
        Registry { next: n }
    }

    /// Creates a tenant, and the parcel of its experiment, which has the next name and no commands
    /// yet. Fails with `NamesOut` exactly if the next name would be 10^6 or more. If it fails, no
    /// name is assigned.
    pub fn open(
        &mut self,
        alloc: Global,
        spec: Spec,
    ) -> Result<(Tenant, Parcel<RingMail>), OpenError>
        ensures tenant { IfOk result
            (λ r. (r.0.name ≡ self.old.next) × (r.0.spec ≡ spec) × (posted r.0 ≡ [])
            × (letters_read r.0 ≡ [])) }
        ensures parcel { IfOk result (λ r. IsOpened self.old.next spec r.1) }
        ensures commands { IfOk result (λ r. IsPair r.0.to r.1.mail.from) }
        ensures letters { IfOk result (λ r. IsPair r.1.mail.to r.0.from) }
        ensures slots { IfOk result (λ r. producer_capacity r.1.mail.to ≡ 64) }
        ensures next { IfOk result
            (λ _. (self.new.next ≡ self.old.next + 1) × (self.old.next < 10 ^ 6)) }
        ensures err { OnErr result (self.new.next ≡ self.old.next) }
        ensures cause { IfErr result (λ e. OpenFails e self.old.next) }
    {
        let name = self.next;
        if name >= NAMES {
            return Err(OpenError::NamesOut);
        }
        let (to, from) = RingBuffer::with_protocol::<Global, Moments>(alloc, SLOTS)?;
        let (up, down) = RingBuffer::new(alloc, SLOTS)?;
        let parcel = parcel_of(alloc, name, spec, RingMail::new(alloc, from, up))?;
        let tenant = Tenant::new(alloc, name, parcel.spec(), to, down);
        self.next = name + 1;
        Ok((tenant, parcel))
    }
}

// Creates the parcel of an experiment without commands.
fn parcel_of(
    alloc: Global,
    name: u32,
    spec: Spec,
    mail: RingMail,
) -> Result<Parcel<RingMail>, OpenError>
    requires given { (ring_seen mail).given ≡ [] }
    requires letters { (ring_seen mail).letters ≡ [] }
    requires kept { mail.kept ≡ [] }
    ensures ok { IfOk result (λ p. p ≡ opened_stand name spec mail) }
    ensures err { IfErr result (λ e. e ≡ OpenError.NoMemory) }
{
    match Parcel::open(alloc, name, spec, mail) {
        Ok(parcel) => return Ok(parcel),
        Err(_) => return Err(OpenError::NoMemory),
    }
}
