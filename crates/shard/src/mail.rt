//! The source of an experiment's commands, and the destination of its records.

ghost use Rattle.std.specs.Prelude.{◌≡◌, ◌≤◌, ◌<◌, ◌^◌, true, [], ◌∷◌, ◌++◌, length, slice_get, List, IfSome, IfNone, OnOk, OnErr, IfErr, IsTrue, IsFalse};
ghost use Rattle.emu_model.specs.declared.records.Record.{Record};
ghost use Rattle.shard.specs.Seen.{Seen};

use emu_model::{Record, Timed};

/// The mail of one tenant: it delivers commands, accepts records as letters, and may keep records
/// for its experiment.
pub trait Mail: Drop {
    /// The commands it has delivered, the letters it has accepted, and what is known about its
    /// other end.
    ghost seen: { Self → Seen };

    /// The records that the mail keeps, which its experiment has discarded.
    ghost kept: { Self → List Record };

    /// Returns the next command, at a time of at most 10^15 ns, or None if none is known to wait.
    fn take_command(&mut self) -> Option<Timed>
        ensures some { IfSome result
            (λ t. seen self.new
            ≡ record
            (seen self.old) {
              given = (seen self.old).given ++ t ∷ [];
              dry = (seen self.new).dry;
            }) }
        ensures moment { IfSome result (λ t. t.moment ≤ 10 ^ 15) }
        ensures none { IfNone result (seen self.new ≡ record (seen self.old) { dry = true }) }
        ensures kept { kept self.new ≡ kept self.old };

    /// Accepts a letter, or returns it if no room is known.
    fn letter(&mut self, news: Record) -> Result<(), Record>
        ensures ok { OnOk result
            (seen self.new
            ≡ record
            (seen self.old) {
              letters = (seen self.old).letters ++ news ∷ [];
              full = (seen self.new).full;
            }) }
        ensures err { OnErr result (seen self.new ≡ record (seen self.old) { full = true }) }
        ensures back { IfErr result (λ r. r ≡ news) }
        ensures kept { kept self.new ≡ kept self.old };

    /// Returns true if the mail may accept a letter; false only if no room for one is known.
    fn may_take(&mut self) -> bool
        ensures yes { IsTrue result →
            seen self.new ≡ record (seen self.old) { full = (seen self.new).full } }
        ensures no { IsFalse result → seen self.new ≡ record (seen self.old) { full = true } }
        ensures kept { kept self.new ≡ kept self.old };

    /// Returns true if room for a letter is known, without checking the other end.
    fn knows_room(&self) -> bool
        ensures { IsFalse result → (seen self.now).full ≡ true };

    /// Keeps records, after those that it keeps already. Returns false if it keeps none of them.
    fn keep(&mut self, records: &[Record]) -> bool
        ensures yes { IsTrue result → kept self.new ≡ kept self.old ++ records.now }
        ensures no { IsFalse result → kept self.new ≡ kept self.old }
        ensures seen { seen self.new ≡ seen self.old };

    /// Returns the number of records that the mail keeps.
    fn kept_len(&self) -> usize
        ensures { result ≡ length (kept self.now) };

    /// Returns the record at a place among those that the mail keeps, or None if there is none.
    fn kept_record(&self, place: usize) -> Option<Record>
        ensures { result ≡ slice_get (kept self.now) place };
}
