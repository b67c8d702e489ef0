//! Lists of steps.

use crate::steps::Step;
use crate::world::World;
use timer_wheel::Agenda;

impl<A: Agenda> World<A> {
    ghost use Rattle.std.specs.Prelude.{◌≡◌, ℕ, Some};
    ghost use Rattle.world.specs.Runs.{Runs};
    ghost use Rattle.world.specs.Tenants.{Tenant, shown};
    ghost use Rattle.world.specs.Places.{tenant_at, AreAtOnePlace};
    ghost use Rattle.world.specs.Kept.{IsAlone, IsAloneState, IsPosted, AreLetters};

    /// Makes a list of steps, in order, and returns the number of steps that ran out of memory.
    /// **Whatever the steps are, each name's records and counters are afterwards those of running
    /// it alone**, on the commands that it received, for as many events as it made.
    pub fn run(&mut self, steps: &[Step]) -> u64
        ensures runs { Runs steps.now result self.old self.new }
        ensures headline { (n : ℕ) (t : Tenant) → tenant_at self.new n ≡ Some t →
            IsAlone (shown t.life) }
        ensures whole { (n : ℕ) (t : Tenant) → tenant_at self.new n ≡ Some t → IsAloneState t.life }
        ensures posted { (n : ℕ) (t : Tenant) → tenant_at self.new n ≡ Some t →
            IsPosted (shown t.life) }
        ensures letters { (n : ℕ) (t : Tenant) → tenant_at self.new n ≡ Some t →
            AreLetters (shown t.life) }
        ensures one_place { AreAtOnePlace self.new }
    {
        let mut refused = 0;
        for step in steps {
            let did = self.step(*step);
            refused += did.refusals();
        }
        self.reveal_invariant();
        refused
    }
}
