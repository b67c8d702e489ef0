//! Experiments in transit.

ghost use Rattle.std.specs.Prelude.{◌≡◌, [], IfOk, MatchResult};
ghost use Rattle.shard.specs.Stand.{IsTold, opened_stand};
ghost use Rattle.shard.specs.Kept.{IsNew};

use crate::body::Body;
use crate::list_mail::ListMail;
use crate::mail::Mail;
use emu_model::{Record, Spec, Timed};
use experiment::Experiment;
use packet_store::OwnShelf;
use std::alloc::{AllocError, Global};
use std::marker::Model;

/// An experiment in transit, with its packets and its mail: one owned value, which can move to
/// another worker. Contracts see its state.
#[derive(Drop)]
pub struct Parcel<M: Mail> {
    // The body keeps its address while the parcel moves.
    pub(crate) body: Box<Body<M>>,
    pub(crate) shelf: OwnShelf,
}

/// A mail whose experiment was not created because memory ran out.
#[derive(Drop)]
pub struct Unopened<M: Mail> {
    pub mail: M,
}

impl<M: Mail> Model for Parcel<M> {
    ghost use Rattle.packet_store.specs.Own.{own_pocket};
    ghost use Rattle.shard.specs.Stand.{Stand};

    ghost Value = { Stand M };

    ghost use Rattle.shard.specs.Kept.{stand_of, IsGoing};

    ghost view = { λ p. stand_of (own_pocket p.shelf) p.body.value.name p.body.value.experiment
        p.body.value.published p.body.value.mail };

    ghost invariant = { λ p. IsGoing M.seen (own_pocket p.shelf) p.body.value.experiment
        p.body.value.published p.body.value.mail };
}

// Creates an experiment without commands.
fn new_experiment(alloc: Global, spec: Spec) -> Result<Experiment, AllocError>
    ensures { IfOk result (IsNew spec) }
{
    let experiment = Experiment::new(alloc, spec)?;
    Ok(experiment)
}

impl<M: Mail> Parcel<M> {
    /// Creates an experiment without commands, with a mail that has delivered, accepted and kept
    /// nothing yet. Returns the mail if memory runs out.
    pub fn open(alloc: Global, name: u32, spec: Spec, mail: M) -> Result<Self, Unopened<M>>
        requires given { (M.seen mail).given ≡ [] }
        requires letters { (M.seen mail).letters ≡ [] }
        requires kept { M.kept mail ≡ [] }
        ensures { MatchResult result (λ p. p ≡ opened_stand name spec mail) (λ e. e.mail ≡ mail) }
    {
        let Ok(experiment) = new_experiment(alloc, spec) else {
            return Err(Unopened { mail });
        };
        let packets = experiment.spec().budget.packets;
        // The budget is at least one packet.
        let _packets = packets.get();
        match Box::new(alloc, Body::new(name, experiment, mail)) {
            Ok(body) => Ok(Parcel {
                body,
                shelf: OwnShelf::new(alloc, packets),
            }),
            Err(refused) => Err(Unopened {
                mail: refused.value.into_mail(),
            }),
        }
    }

    /// Returns the name.
    pub fn name(&self) -> u32
        ensures { result ≡ self.now.name }
    {
        self.body.name()
    }

    /// Returns the specification of the experiment.
    pub fn spec(&self) -> Spec
        ensures { result ≡ self.now.spec }
    {
        self.body.spec()
    }

    /// Returns the commands so far, including the next one.
    pub fn consumed(&self) -> &[Timed]
        ensures { result.now ≡ self.now.consumed }
    {
        self.body.consumed()
    }

    /// Returns the number of steps made.
    pub fn events(&self) -> u64
        ensures { result ≡ self.now.state.steps }
    {
        self.body.events()
    }

    /// Reveals that the state of every parcel is that of running it alone.
    pub fn reveal_invariant(&self)
        ensures { IsTold M.seen self.now }
    {
        let _ = &self.shelf;
    }
}

impl Parcel<ListMail> {
    ghost use Rattle.std.specs.Prelude.{◌≡◌, ◌≤◌, ◌<◌, ◌^◌, OnOk, IfErr, OnErr, length};
    ghost use Rattle.shard.specs.Posts.{with_command, Reads};

    /// Returns the records.
    pub fn records(&self) -> &[Record]
        ensures { result.now ≡ self.now.state.net.records }
    {
        self.body.records()
    }

    /// Adds a command to the mail after those that wait, or returns it if 64 are waiting. Does not
    /// allocate.
    pub fn put(&mut self, timed: Timed) -> Result<(), Timed>
        requires { timed.moment ≤ 10 ^ 15 }
        ensures ok { OnOk result
            (self.new ≡ record self.old { mail = with_command self.old.mail timed }) }
        ensures room { OnOk result (length self.old.mail.waiting < 64) }
        ensures err { OnErr result (self.new ≡ self.old) }
        ensures back { IfErr result (λ t. t ≡ timed) }
        ensures full { OnErr result (length self.old.mail.waiting ≡ 64) }
    {
        match self.body.put(timed) {
            Ok(()) => return Ok(()),
            Err(timed) => return Err(timed),
        }
    }

    /// Removes the first unread letter from the mail, and returns it, or None if there is none.
    pub fn read(&mut self) -> Option<Record>
        ensures reads { Reads result self.old.mail self.new.mail }
        ensures same { self.new ≡ record self.old { mail = self.new.mail } }
    {
        match self.body.read() {
            Some(news) => return Some(news),
            None => return None,
        }
    }
}
