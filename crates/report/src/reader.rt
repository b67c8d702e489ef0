//! The records of an archive, one after the other (our choice).

ghost use Rattle.std.specs.Prelude.{◌≡◌, ◌+◌, ◌≤◌, ◌++◌, ◌∷◌, [], false, length, slice_get, take, true, None, IfSome};
ghost use Rattle.std.specs.List.{All, flat_map};
ghost use Rattle.emu_model.specs.declared.records.Record.{Record};
ghost use Rattle.report.specs.Archive.{IsEntry, IsLeft, Spells, behind_first, entries_of, is_elsewhere, left_of, parts_in};
ghost use Rattle.report.specs.Rows.{record_bytes};

use crate::clock::Clock;
use crate::events::put_parts;
use crate::made::{arrival_parts, made_as};
use crate::packed::{Kind, Packed, Parts, record_of, unpack};
use crate::rows::{self, put_made, put_whole};
use crate::source::Source;
use crate::stretches::Stretches;
use emu_model::Record;
use std::marker::Model;

/// What is left of words that were taken: all of their records, or the second.
#[derive(Clone, Copy)]
pub(crate) enum Rest {
    All(Packed),
    Second(Packed),
}

/// What is left of an archive's records. Contracts see the list of them.
#[derive(Drop)]
pub struct Reader<'a> {
    others: &'a [Record],
    words: Stretches<'a>,
    left: Option<Rest>,
}

impl<'a> Model for Reader<'a> {
    ghost use Rattle.std.specs.Prelude.{◌++◌, List};
    ghost use Rattle.std.specs.List.{All, flat_map};
    ghost use Rattle.emu_model.specs.declared.records.Record.{Record};
    ghost use Rattle.report.specs.Archive.{IsEntry, IsLeft, entries_of, left_of};

    ghost Value = { List Record };

    ghost view = { λ r. left_of r.others.now r.left
        ++ flat_map (entries_of r.others.now) r.words };

    ghost invariant = { λ r. All (IsEntry r.others.now) r.words
        × IsLeft r.others.now r.left };
}

// Returns words with the parts of their first record, and puts down what is left of them.
#[inline(always)]
fn first_in(word: Packed, left: &mut Option<Rest>) -> (Packed, Parts)
    requires { left.old ≡ None }
    ensures { (result.0 ≡ word) × (result.1 ≡ parts_in word)
        × (left.new ≡ behind_first (parts_in word).kind word) }
{
    let parts = unpack(word);
    // Few words have a second record, so for most of them nothing is written.
    match parts.kind {
        Kind::Entered => *left = Some(Rest::Second(word)),
        _ => {}
    }
    (word, parts)
}

// Takes the next record: returns the words that have it, and its parts.
#[inline(always)]
fn take_next(
    others: &[Record],
    words: &mut Stretches<'_>,
    left: &mut Option<Rest>,
) -> Option<(Packed, Parts)>
    requires words { All (IsEntry others.now) words.old }
    requires left { IsLeft others.now left.old }
    ensures some { IfSome result (λ f. (r : Record) × Spells others.now f.0 f.1 r
        × (left_of others.now left.old ++ flat_map (entries_of others.now) words.old
        ≡ r ∷ (left_of others.now left.new ++ flat_map (entries_of others.now) words.new))) }
    ensures back { IfSome result (λ f. is_elsewhere f.1.kind ≡ true → IsEntry others.now f.0
        × (left_of others.now left.old ++ flat_map (entries_of others.now) words.old
        ≡ entries_of others.now f.0 ++ flat_map (entries_of others.now) words.new)) }
    ensures none { result ≡ None →
        (left_of others.now left.old ++ flat_map (entries_of others.now) words.old ≡ [])
        × (left_of others.now left.new ++ flat_map (entries_of others.now) words.new ≡ []) }
    ensures words { All (IsEntry others.now) words.new }
    ensures left { IsLeft others.now left.new }
{
    let Some(rest) = *left else {
        let word = words.peek()?;
        words.skip();
        return Some(first_in(word, left));
    };
    *left = None;
    match rest {
        Rest::All(word) => Some(first_in(word, left)),
        Rest::Second(word) => Some((word, arrival_parts(others, unpack(word)))),
    }
}

/// Returns the record with these parts, which were found in these words.
#[inline(always)]
pub(crate) fn record_at(others: &[Record], word: Packed, parts: Parts) -> Record
    requires { (r : Record) × Spells others.now word parts r }
    ensures { (r : Record) → Spells others.now word parts r → result ≡ r }
{
    match parts.kind {
        Kind::Whole => others[word.high as usize],
        Kind::Made | Kind::Entered => made_as(&others[usize::from(parts.tag)], parts),
        _ => record_of(parts),
    }
}

// Writes the row of the record with these parts, which were found in these words. A common record is
// written where it is found, by one choice among all kinds.
#[inline(always)]
fn put_row_at(
    page: &mut [u8],
    at: usize,
    experiment: u8,
    others: &[Record],
    word: Packed,
    parts: Parts,
)
    requires room { at + 40 ≤ length page.old }
    requires spelled { (r : Record) × Spells others.now word parts r }
    ensures { (r : Record) → Spells others.now word parts r →
        take (at + 40) page.new ≡ take at page.old ++ record_bytes experiment r }
{
    if rows::put_parts(page, at, experiment, parts) {
        return;
    }
    match parts.kind {
        Kind::Made | Kind::Entered => {
            let first = &others[usize::from(parts.tag)];
            put_made(page, at, experiment, first, parts);
        }
        _ => put_whole(page, at, experiment, &others[word.high as usize]),
    }
}

/// Returns the record behind `place` others, or `None` if there is none.
pub(crate) fn nth(others: &[Record], words: Stretches<'_>, place: usize) -> Option<Record>
    requires { All (IsEntry others.now) words }
    ensures { result ≡ slice_get (flat_map (entries_of others.now) words.entry) place }
{
    let mut left = words;
    let mut rest = None;
    let mut done = 0;
    while done < place {
        take_next(others, &mut left, &mut rest)?;
        done += 1;
    }
    let (word, parts) = take_next(others, &mut left, &mut rest)?;
    Some(record_at(others, word, parts))
}

impl<'a> Reader<'a> {
    /// Returns the records of words, which refer to others.
    pub(crate) fn new(others: &'a [Record], words: Stretches<'a>) -> Self
        requires { All (IsEntry others.now) words }
        ensures { result ≡ flat_map (entries_of others.now) words.entry }
    {
        Reader {
            others,
            words,
            left: None,
        }
    }

    /// Writes the row of the next record, and returns true. Returns false and does nothing if there
    /// is none.
    #[inline(always)]
    pub(crate) fn put_row(&mut self, page: &mut [u8], at: usize, experiment: u8) -> bool
        requires room { at + 40 ≤ length page.old }
        ensures written { result ≡ true → (r : Record) × (self.old ≡ r ∷ self.new)
            × (take (at + 40) page.new ≡ take at page.old ++ record_bytes experiment r) }
        ensures ended { result ≡ false →
            (self.old ≡ []) × (self.new ≡ []) × (page.new ≡ page.old) }
    {
        let Some((word, parts)) = take_next(self.others, &mut self.words, &mut self.left) else {
            return false;
        };
        put_row_at(page, at, experiment, self.others, word, parts);
        true
    }
}

impl<'a> Source for Reader<'a> {
    ghost list = { λ r. r };

    #[inline(always)]
    fn next(&mut self) -> Option<Record> {
        let (word, parts) = take_next(self.others, &mut self.words, &mut self.left)?;
        Some(record_at(self.others, word, parts))
    }

    #[inline(always)]
    fn put(&mut self, clock: &mut Clock, text: &mut [u8], at: usize) -> Option<usize> {
        let (word, parts) = take_next(self.others, &mut self.words, &mut self.left)?;
        let end = put_parts::<Reader>(clock, text, at, parts);
        if end.is_none() {
            self.left = Some(Rest::All(word));
        }
        end
    }
}
