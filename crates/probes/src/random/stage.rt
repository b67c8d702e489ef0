//! The calls of a world.

use emu_model::Ending;
use report::report_text;
use std::alloc::{AllocError, Global};
use timer_wheel::Agenda;
use world::{Did, Place, Step, World};

/// The report of a name's experiment, and whether the experiment was halted because an allocation
/// failed.
#[derive(Drop)]
pub struct Written {
    pub text: Vec<u8>,
    pub halted: bool,
}

/// A world. The rest of the program is generic over any world, so that its proofs don't have to
/// take a world apart wherever it is dropped.
pub trait Stage: Drop {
    fn build(alloc: Global, shards: usize) -> Result<Self, AllocError>;

    fn makes(&mut self, step: Step) -> Did;

    /// Performs steps. Returns the number of failed allocations.
    fn runs(&mut self, steps: &[Step]) -> u64;

    fn place_of(&self, name: u32) -> Option<Place>;

    /// Returns the report of a name that has ended, under a title.
    fn report_of(
        &self,
        alloc: Global,
        name: u32,
        title: &[u8],
    ) -> Result<Option<Written>, AllocError>;
}

impl<A: Agenda> Stage for World<A> {
    fn build(alloc: Global, shards: usize) -> Result<World<A>, AllocError> {
        World::new(alloc, shards)
    }

    fn makes(&mut self, step: Step) -> Did {
        self.step(step)
    }

    fn runs(&mut self, steps: &[Step]) -> u64 {
        self.run(steps)
    }

    fn place_of(&self, name: u32) -> Option<Place> {
        self.place(name)
    }

    fn report_of(
        &self,
        alloc: Global,
        name: u32,
        title: &[u8],
    ) -> Result<Option<Written>, AllocError> {
        let Some(left) = self.dossier_of(name) else {
            return Ok(None);
        };
        let text = report_text(alloc, title, left.records(), &left.counters())?;
        let halted = matches!(left.ending(), Ending::Halted);
        Ok(Some(Written { text, halted }))
    }
}
