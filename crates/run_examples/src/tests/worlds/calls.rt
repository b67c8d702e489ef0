//! The calls of a world. The examples assume nothing about their results.

use emu_model::Ending;
use report::report_text;
use std::alloc::{AllocError, Global};
use timer_wheel::Agenda;
use world::{Did, Place, Step, World};

/// The visible properties of a name: its place, and the numbers of its records and commands.
#[derive(Clone, Copy)]
pub struct Sight {
    pub place: Option<Place>,
    pub records: usize,
    pub commands: usize,
}

/// The report of a name's experiment, and whether the experiment was halted because an allocation
/// failed.
#[derive(Drop)]
pub struct Written {
    pub text: Vec<u8>,
    pub halted: bool,
}

/// A world. The examples are generic over any world, and run with that of the crate world, so their
/// proofs don't have to take it apart wherever it is dropped.
pub trait Stage: Drop {
    fn build(alloc: Global, shards: usize) -> Result<Self, AllocError>;

    fn makes(&mut self, step: Step) -> Did;

    /// Performs steps. Returns the number of failed allocations.
    fn makes_all(&mut self, steps: &[Step]) -> u64;

    fn place_of(&self, name: u32) -> Option<Place>;

    fn sight(&self, name: u32) -> Sight;

    /// Returns the report of a name that has ended, under a title.
    fn report_of(
        &self,
        alloc: Global,
        name: u32,
        title: &[u8],
    ) -> Result<Option<Written>, AllocError>;

    /// Returns true if a name was halted because an allocation failed.
    fn is_halted(&self, name: u32) -> bool;
}

impl<A: Agenda> Stage for World<A> {
    fn build(alloc: Global, shards: usize) -> Result<World<A>, AllocError> {
        World::new(alloc, shards)
    }

    fn makes(&mut self, step: Step) -> Did {
        self.step(step)
    }

    fn makes_all(&mut self, steps: &[Step]) -> u64 {
        self.run(steps)
    }

    fn place_of(&self, name: u32) -> Option<Place> {
        self.place(name)
    }

    fn sight(&self, name: u32) -> Sight {
        Sight {
            place: self.place(name),
            records: self.records(name).len(),
            commands: self.consumed(name).len(),
        }
    }

    fn report_of(
        &self,
        alloc: Global,
        name: u32,
        title: &[u8],
    ) -> Result<Option<Written>, AllocError> {
        let Some(left) = self.dossier_of(name) else {
            return Ok(None);
        };
        let text = report_text(alloc, title, left.records(), &left.counters())?;
        let halted = matches!(left.ending(), Ending::Halted);
        Ok(Some(Written { text, halted }))
    }

    fn is_halted(&self, name: u32) -> bool {
        match self.dossier_of(name) {
            Some(left) => matches!(left.ending(), Ending::Halted),
            None => false,
        }
    }
}

/// Performs a step. Returns an error if an allocation fails.
pub fn step<W: Stage>(world: &mut W, step: Step) -> Result<bool, AllocError> {
    match world.makes(step) {
        Did::Done => Ok(true),
        Did::Still => Ok(false),
        Did::NoMemory => Err(AllocError),
    }
}

/// Performs steps. Returns an error if an allocation fails in one of them.
pub fn run<W: Stage>(world: &mut W, steps: &[Step]) -> Result<(), AllocError> {
    if world.makes_all(steps) > 0 {
        return Err(AllocError);
    }
    Ok(())
}

/// Returns the numbers of records and commands of a name.
pub fn counts_of<W: Stage>(world: &W, name: u32) -> (usize, usize) {
    let sight = world.sight(name);
    (sight.records, sight.commands)
}

/// Performs a step as a list of one. Returns the number of failed allocations.
pub fn counted_run<W: Stage>(world: &mut W, one: &Step) -> u64 {
    world.makes_all(&[*one])
}
