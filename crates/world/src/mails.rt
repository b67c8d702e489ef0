//! The tenants' ends of the mails.

ghost use Rattle.std.specs.Prelude.{◌≡◌};
ghost use Rattle.emu_model.specs.Commands.{is_end};

use crate::home::Home;
use crate::steps::Did;
use crate::world::World;
use emu_model::{Command, Timed};
use shard::{ListMail, Shard};
use timer_wheel::Agenda;

impl Home {
    ghost use Rattle.std.specs.Prelude.{◌≡◌, ◌≤◌, ◌^◌, IsTrue, IsFalse, Some, length, []};
    ghost use Rattle.world.specs.Tenants.{Life, shown};
    ghost use Rattle.world.specs.Places.{life_of};
    ghost use Rattle.world.specs.Steps.{Mailed, Puts, ReadsOne};

    // Adds a command to the mail, or returns false if 64 are waiting.
    fn put<A: Agenda>(&mut self, shards: &mut Vec<Shard<A, ListMail>>, timed: Timed) -> bool
        requires early { timed.moment ≤ 10 ^ 15 }
        ensures yes { IsTrue result →
            Mailed (Puts timed) self.old shards.old.items self.new shards.new.items }
        ensures no { IsFalse result → (self.new ≡ self.old) × (shards.new.items ≡ shards.old.items)
            × ((life : Life) → life_of shards.old.items self.old ≡ Some life →
            length (shown life).mail.waiting ≡ 64) }
    {
        match self {
            Home::Handed(parcel) => {
                let Ok(()) = parcel.put(timed) else {
                    return false;
                };
                return true;
            }
            Home::Seated { shard, slot } => {
                if *shard >= shards.len() {
                    return false;
                }
                let Ok(()) = shards[*shard].put(*slot, timed) else {
                    return false;
                };
                return true;
            }
            Home::Queued { shard: _, parcel } => {
                let Ok(()) = parcel.put(timed) else {
                    return false;
                };
                return true;
            }
            Home::Left(dossier) => {
                let Ok(()) = dossier.put(timed) else {
                    return false;
                };
                return true;
            }
        }
    }

    // Removes the first unread letter, or returns false if there is none.
    fn read<A: Agenda>(&mut self, shards: &mut Vec<Shard<A, ListMail>>) -> bool
        ensures yes { IsTrue result →
            Mailed ReadsOne self.old shards.old.items self.new shards.new.items }
        ensures no { IsFalse result → (self.new ≡ self.old) × (shards.new.items ≡ shards.old.items)
            × ((life : Life) → life_of shards.old.items self.old ≡ Some life →
            (shown life).mail.unread ≡ []) }
    {
        match self {
            Home::Handed(parcel) => {
                let Some(_) = parcel.read() else {
                    return false;
                };
                return true;
            }
            Home::Seated { shard, slot } => {
                if *shard >= shards.len() {
                    return false;
                }
                let Ok(letter) = shards[*shard].read(*slot) else {
                    return false;
                };
                let Some(_) = letter else {
                    return false;
                };
                return true;
            }
            Home::Queued { shard: _, parcel } => {
                let Some(_) = parcel.read() else {
                    return false;
                };
                return true;
            }
            Home::Left(dossier) => {
                let Some(_) = dossier.read() else {
                    return false;
                };
                return true;
            }
        }
    }
}

// Returns true if a command is an `end`.
fn is_end(command: Command) -> bool
    ensures { result ≡ is_end command }
{
    matches!(command, Command::End)
}

impl<A: Agenda> World<A> {
    ghost use Rattle.world.specs.Steps.{IsPost, IsRead};

    // Adds a command after those that wait for a name.
    pub(crate) fn post(&mut self, name: u32, timed: Timed) -> Did
        ensures { IsPost name timed result self.old self.new }
    {
        let at = name as usize;
        if at >= self.desks.len() {
            return Did::Still;
        }
        let desk = &mut self.desks[at];
        if !desk.allows(&timed) {
            return Did::Still;
        }
        if !desk.home.put(&mut self.shards, timed) {
            return Did::Still;
        }
        desk.closed = is_end(timed.command);
        desk.last = timed.moment;
        Did::Done
    }

    // Removes the first unread letter of a name.
    pub(crate) fn read_letter(&mut self, name: u32) -> Did
        ensures { IsRead name result self.old self.new }
    {
        let at = name as usize;
        if at >= self.desks.len() {
            return Did::Still;
        }
        let desk = &mut self.desks[at];
        if !desk.home.read(&mut self.shards) {
            return Did::Still;
        }
        Did::Done
    }
}
