//! The sources of a report's records.

ghost use Rattle.std.specs.Prelude.{◌≡◌, ◌+◌, ◌≤◌, ◌++◌, ◌∷◌, [], List, None, drop, length, take, IfSome};
ghost use Rattle.emu_model.specs.declared.records.Record.{Record};
ghost use Rattle.report.specs.Lines.{line_of};

use crate::clock::Clock;
use crate::events::put_parts;
use crate::packed::parts_of;
use emu_model::Record;

/// A sequence of records, which is read once.
pub trait Source {
    /// The records that are left.
    ghost list: { Self → List Record };

    /// Returns the next record.
    fn next(&mut self) -> Option<Record>
        ensures some { IfSome result (λ entry. list self.old ≡ entry ∷ list self.new) }
        ensures none { result ≡ None → (list self.old ≡ []) × (list self.new ≡ []) };

    /// Writes the line of the next record at a place, and returns its end. Returns `None` and does
    /// nothing if it leaves the record to the caller, because it is rare, and if there is none.
    fn put(&mut self, clock: &mut Clock, text: &mut [u8], at: usize) -> Option<usize>
        requires room { at + 256 ≤ length text.old }
        ensures some { IfSome result (λ end. (entry : Record) × (list self.old ≡ entry ∷ list self.new)
            × (at ≤ end) × (end ≤ at + 128)
            × (take end text.new ≡ take at text.old ++ line_of entry)) }
        ensures none { result ≡ None →
            (list self.new ≡ list self.old) × (text.new ≡ text.old) };
}

/// Records in a list, from a place on.
#[derive(Drop)]
pub(crate) struct Listed<'a> {
    pub(crate) records: &'a [Record],
    pub(crate) place: usize,
}

impl<'a> Source for Listed<'a> {
    ghost list = { λ l. drop l.place l.records.now };

    #[inline(always)]
    fn next(&mut self) -> Option<Record> {
        let entry = *self.records.get(self.place)?;
        self.place += 1;
        Some(entry)
    }

    #[inline(always)]
    fn put(&mut self, clock: &mut Clock, text: &mut [u8], at: usize) -> Option<usize> {
        let parts = parts_of(self.records.get(self.place)?)?;
        let end = put_parts::<Listed>(clock, text, at, parts)?;
        self.place += 1;
        Some(end)
    }
}
