//! The sources whose dues have changed since they were last noted.

ghost use Rattle.std.specs.Prelude.{◌≡◌, ◌+◌, ◌<◌, ◌≤◌, length, vec_len, vec_capacity, OnOk, OnErr};
ghost use Rattle.packet_store.specs.Pocket.{Pocket};
ghost use Rattle.experiment.specs.Kept.{view};
ghost use Rattle.experiment.specs.Dues.{dues_in, Covers, NamesNoOther, NamesUpTo};

use crate::Experiment;
use crate::told::append_dues;
use emu_model::{Due, Source};
use std::alloc::AllocError;
use std::mem;

impl Experiment {
    /// Notes the current dues, and lists the sources whose dues changed since; no program calls it.
    ///
    /// The contents of `sources` are replaced with each source whose dues differ from those noted
    /// before; a new experiment has noted none. The list may also hold other sources that have dues,
    /// and a source twice. If allocation fails, nothing changes.
    pub fn touched(&mut self, sources: &mut Vec<Source>) -> Result<(), AllocError>
        ensures covers { OnOk result (Covers self.old.noted self.new.noted sources.new.items) }
        ensures no_other { OnOk result
            (NamesNoOther self.old.noted self.new.noted sources.new.items) }
        ensures noted { OnOk result ((p : Pocket) → self.new.noted ≡ dues_in (view p self.old)) }
        ensures same { self.new ≡ record self.old { noted = self.new.noted } }
        ensures err { OnErr result
            ((sources.new.items ≡ sources.old.items) × (self.new ≡ self.old)) }
    {
        self.fresh.clear();
        append_dues(&self.net, self.next, self.clock, &mut self.fresh)?;
        name_changed(self.noted.as_slice(), self.fresh.as_slice(), sources)?;
        mem::swap(&mut self.noted, &mut self.fresh);
        Ok(())
    }

    /// Returns the dues when they were last noted by `touched`; no program calls it.
    pub fn noted_dues(&self) -> &[Due]
        ensures { result.now ≡ self.now.noted }
    {
        self.noted.as_slice()
    }
}

// Lists the sources of the dues that differ between two lists, which are traversed side by side.
fn name_changed(old: &[Due], new: &[Due], sources: &mut Vec<Source>) -> Result<(), AllocError>
    ensures covers { OnOk result (Covers old.now new.now sources.new.items) }
    ensures no_other { OnOk result (NamesNoOther old.now new.now sources.new.items) }
    ensures err { OnErr result (sources.new.items ≡ sources.old.items) }
{
    let wanted = old.len() + new.len();
    sources.reserve(wanted.saturating_sub(sources.len()))?;
    sources.clear();
    let mut i = 0;
    let mut j = 0;
    while i < old.len() && j < new.len() {
        (i, j) = compare(old, new, i, j, sources);
    }
    while i < old.len() {
        sources.push_reserved(old[i].source);
        i += 1;
    }
    while j < new.len() {
        sources.push_reserved(new[j].source);
        j += 1;
    }
    Ok(())
}

// Returns true if the due at a place of a list is that of a source.
fn is_of(dues: &[Due], place: usize, source: Source) -> bool {
    match dues.get(place) {
        Some(due) => due.source == source,
        None => false,
    }
}

// Compares a due of one list with a due of the other, lists what differs, and returns the places at
// which to continue. If a due was inserted or removed, the other list stays at its place, so that
// what follows is compared again.
fn compare(
    old: &[Due],
    new: &[Due],
    i: usize,
    j: usize,
    sources: &mut Vec<Source>,
) -> (usize, usize)
    requires in_old { i < length old.now }
    requires in_new { j < length new.now }
    requires room { vec_len sources.old + 2 ≤ vec_capacity sources.old }
    requires names { NamesUpTo i j old.now new.now sources.old.items }
    ensures in_old { result.0 ≤ length old.now }
    ensures in_new { result.1 ≤ length new.now }
    ensures ahead { i + j < result.0 + result.1 }
    ensures names { NamesUpTo result.0 result.1 old.now new.now sources.new.items }
    ensures room { vec_len sources.new + (i + j) ≤ vec_len sources.old + (result.0 + result.1) }
    ensures capacity { vec_capacity sources.new ≡ vec_capacity sources.old }
{
    let gone = old[i];
    let come = new[j];
    if gone == come {
        return (i + 1, j + 1);
    }
    if gone.source == come.source {
        sources.push_reserved(gone.source);
        return (i + 1, j + 1);
    }
    if is_of(new, j + 1, gone.source) {
        sources.push_reserved(come.source);
        return (i, j + 1);
    }
    sources.push_reserved(gone.source);
    if is_of(old, i + 1, come.source) {
        return (i + 1, j);
    }
    sources.push_reserved(come.source);
    (i + 1, j + 1)
}
