//! The records of an experiment in sixteen bytes each, until its report is written (our choice).

ghost use Rattle.std.specs.Prelude.{◌≡◌, ◌+◌, ◌-◌, ◌<◌, ◌≤◌, ◌∷◌, ◌++◌, [], drop, false, length, slice_get, take, true, vec_len, vec_capacity, IfOk, IfSome, IsTrue, OnOk, OnErr};
ghost use Rattle.std.specs.List.{All, flat_map};
ghost use Rattle.report.specs.Archive.{entries_of, IsEntry, Stay};
ghost use Rattle.report.specs.Orders.{IsRun, in_order};
ghost use Rattle.report.specs.Room.{spare};

use crate::made::Firsts;
use crate::packed::{Kind, Packed, pack, parts_of, place_mark, unpack};
use crate::reader::{Reader, nth, record_at};
use crate::stretches::Stretches;
use emu_model::Record;
use std::alloc::{AllocError, Global};
use std::marker::Model;

/// Records in order. Contracts see the list of records.
#[derive(Drop)]
pub struct Archive {
    words: Vec<Packed>,
    // The records that don't fit into a word, or that are rare, and the first of each source's packets.
    others: Vec<Record>,
    firsts: Firsts,
    // The order of the words: those of the runs, and then those from `tail` on.
    runs: Vec<Run>,
    tail: usize,
    listings: Listings,
    // The number of records.
    count: usize,
}

/// A run of words: the place of its first one, and the place after its last one.
#[derive(Clone, Copy)]
pub(crate) struct Run {
    pub(crate) from: usize,
    pub(crate) end: usize,
}

// The number of lines from which on a listing that equals the one before it is stored as a run. A
// shorter one takes less memory than it saves.
const LONG: usize = 8;

// The last two listings: the places of their first words, and the end of the last one. Most lines
// of a listing are equal to those of the listing before it, and then share their records: the
// records of a thousand equal listings are stored once (our choice).
#[derive(Clone, Copy)]
struct Listings {
    before: usize,
    last: usize,
    end: usize,
}

impl Listings {
    // Registers a line of a listing at `place`, and returns the place of the same line in the
    // listing before.
    fn advance(&mut self, place: usize) -> usize {
        if place != self.end {
            self.before = self.last;
            self.last = place;
        }
        self.end = place.wrapping_add(1);
        self.before.wrapping_add(place.wrapping_sub(self.last))
    }
}

impl Model for Archive {
    ghost use Rattle.std.specs.Prelude.{◌≡◌, List, ◌≤◌, length};
    ghost use Rattle.std.specs.List.{All, flat_map};
    ghost use Rattle.emu_model.specs.declared.records.Record.{Record};
    ghost use Rattle.report.specs.Archive.{entries_of, IsEntry};
    ghost use Rattle.report.specs.Orders.{IsRun, in_order};

    ghost Value = { List Record };

    ghost view = { λ a. flat_map (entries_of a.others.items)
        (in_order a.runs.items a.tail a.words.items) };

    ghost invariant = { λ a. All (IsEntry a.others.items) a.words.items
        × (a.tail ≤ length a.words.items)
        × All (IsRun a.tail) a.runs.items
        × (a.count ≡ length (flat_map (entries_of a.others.items)
        (in_order a.runs.items a.tail a.words.items))) };
}

// Returns true if a record is a line of a listing.
fn is_listed(entry: &Record) -> bool {
    match entry {
        Record::RuleLine { .. } | Record::PipeLine { .. } | Record::InstanceLine { .. } => true,
        _ => false,
    }
}

// Returns the word at a place, if it refers to a whole record that is equal to this one.
fn same_at(words: &[Packed], others: &[Record], place: usize, entry: &Record) -> Option<Packed>
    requires sound { All (IsEntry others.now) words.now }
    ensures same { IfSome result (λ w. entries_of others.now w ≡ entry.now ∷ []) }
    ensures stands { IfSome result (IsEntry others.now) }
{
    let word = *words.get(place)?;
    let Kind::Whole = unpack(word).kind else {
        return None;
    };
    if others[word.high as usize] != *entry {
        return None;
    }
    Some(word)
}

// Appends a record like `note`, as the line of a listing before or as a whole.
#[tactic(auto, unfolding(crate::specs::Room::spare))]
#[inline(never)]
fn note_rare(
    words: &mut Vec<Packed>,
    others: &mut Vec<Record>,
    firsts: &mut Firsts,
    listings: &mut Listings,
    entry: &Record,
) -> Result<(), AllocError>
    requires room { vec_len words.old < vec_capacity words.old }
    requires sound { All (IsEntry others.old.items) words.old.items }
    ensures ok { OnOk result (flat_map (entries_of others.new.items) words.new.items
        ≡ flat_map (entries_of others.old.items) words.old.items ++ entry.now ∷ []) }
    ensures stay { Stay others.old.items others.new.items }
    ensures kept { take (length words.old.items) words.new.items ≡ words.old.items }
    ensures sound { All (IsEntry others.new.items) words.new.items }
    ensures room { spare words.old ≤ spare words.new + 1 }
{
    if let Some(word) = firsts.word_of(others.as_slice(), entry) {
        words.push_reserved(word);
        return Ok(());
    }
    if is_listed(entry) {
        let place = listings.advance(words.len());
        if let Some(word) = same_at(words.as_slice(), others.as_slice(), place, entry) {
            words.push_reserved(word);
            return Ok(());
        }
    }
    store(words, others, firsts, entry)
}

// Appends a record as a whole, for whose word there must be room, and registers it for the next
// packets of its source.
#[tactic(auto, unfolding(crate::specs::Room::spare))]
#[inline(never)]
fn store(
    words: &mut Vec<Packed>,
    others: &mut Vec<Record>,
    firsts: &mut Firsts,
    entry: &Record,
) -> Result<(), AllocError>
    requires room { vec_len words.old < vec_capacity words.old }
    requires sound { All (IsEntry others.old.items) words.old.items }
    ensures ok { OnOk result (flat_map (entries_of others.new.items) words.new.items
        ≡ flat_map (entries_of others.old.items) words.old.items ++ entry.now ∷ []) }
    ensures stay { Stay others.old.items others.new.items }
    ensures kept { take (length words.old.items) words.new.items ≡ words.old.items }
    ensures sound { All (IsEntry others.new.items) words.new.items }
    ensures room { spare words.old ≤ spare words.new + 1 }
{
    others.reserve(1)?;
    // By the slice the kit learns of which types a record is.
    let place = others.as_slice().len();
    firsts.register(entry, place);
    words.push_reserved(place_mark(place));
    others.push_reserved(*entry);
    Ok(())
}

// Appends two records as wholes, for whose words there must be room.
#[tactic(auto, unfolding(crate::specs::Room::spare))]
#[inline(never)]
fn note_two(
    words: &mut Vec<Packed>,
    others: &mut Vec<Record>,
    firsts: &mut Firsts,
    entry: &Record,
    next: &Record,
) -> Result<(), AllocError>
    requires room { vec_len words.old + 1 < vec_capacity words.old }
    requires sound { All (IsEntry others.old.items) words.old.items }
    ensures ok { OnOk result (flat_map (entries_of others.new.items) words.new.items
        ≡ flat_map (entries_of others.old.items) words.old.items ++ entry.now ∷ next.now ∷ []) }
    ensures stay { Stay others.old.items others.new.items }
    ensures kept { take (length words.old.items) words.new.items ≡ words.old.items }
    ensures sound { All (IsEntry others.new.items) words.new.items }
    ensures room { spare words.old ≤ spare words.new + 2 }
{
    store(words, others, firsts, entry)?;
    store(words, others, firsts, next)
}

// Appends a packet's creation and its arrival, the next record, in two words. Returns false and does
// nothing if they are to be appended one by one.
#[tactic(auto, unfolding(crate::specs::Room::spare))]
#[inline(always)]
fn note_pair(
    words: &mut Vec<Packed>,
    others: &mut Vec<Record>,
    firsts: &mut Firsts,
    entry: &Record,
    next: &Record,
) -> Result<bool, AllocError>
    requires room { vec_len words.old + 1 < vec_capacity words.old }
    requires sound { All (IsEntry others.old.items) words.old.items }
    ensures ok { IfOk result (λ paired. paired ≡ true →
        flat_map (entries_of others.new.items) words.new.items
        ≡ flat_map (entries_of others.old.items) words.old.items ++ entry.now ∷ next.now ∷ []) }
    ensures left { IfOk result (λ paired. paired ≡ false →
        (words.new ≡ words.old) × (others.new ≡ others.old)) }
    ensures stay { Stay others.old.items others.new.items }
    ensures kept { take (length words.old.items) words.new.items ≡ words.old.items }
    ensures sound { All (IsEntry others.new.items) words.new.items }
    ensures room { spare words.old ≤ spare words.new + 2 }
{
    if let Some(word) = firsts.pair_of(others.as_slice(), entry, next) {
        words.push_reserved(word);
        return Ok(true);
    }
    if firsts.wants_pair(others.as_slice(), entry, next) {
        note_two(words, others, firsts, entry, next)?;
        return Ok(true);
    }
    Ok(false)
}

// Appends the record at a place, and perhaps the one behind it, for whose words there must be room.
// Returns their number.
#[tactic(auto, unfolding(crate::specs::Room::spare))]
#[inline(always)]
fn note(
    words: &mut Vec<Packed>,
    others: &mut Vec<Record>,
    firsts: &mut Firsts,
    listings: &mut Listings,
    records: &[Record],
    place: usize,
) -> Result<usize, AllocError>
    requires inside { place < length records.now }
    requires room { length records.now - place ≤ spare words.old }
    requires sound { All (IsEntry others.old.items) words.old.items }
    ensures count { IfOk result (λ n. (0 < n) × (place + n ≤ length records.now)) }
    ensures ok { IfOk result (λ n. flat_map (entries_of others.new.items) words.new.items
        ≡ flat_map (entries_of others.old.items) words.old.items
        ++ take n (drop place records.now)) }
    ensures stay { Stay others.old.items others.new.items }
    ensures kept { take (length words.old.items) words.new.items ≡ words.old.items }
    ensures sound { All (IsEntry others.new.items) words.new.items }
    ensures room { IfOk result (λ n. spare words.old ≤ spare words.new + n) }
{
    let entry = &records[place];
    if let Some(parts) = parts_of(entry) {
        if let Some(word) = pack(parts) {
            words.push_reserved(word);
            return Ok(1);
        }
    }
    if let Some(next) = records.get(place + 1) {
        if note_pair(words, others, firsts, entry, next)? {
            return Ok(2);
        }
    }
    note_rare(words, others, firsts, listings, entry)?;
    Ok(1)
}

// Appends records, for whose words there must be room. After `AllocError` some of them have been
// appended.
#[tactic(auto, unfolding(crate::specs::Room::spare))]
fn note_all(
    words: &mut Vec<Packed>,
    others: &mut Vec<Record>,
    firsts: &mut Firsts,
    listings: &mut Listings,
    records: &[Record],
) -> Result<(), AllocError>
    requires room { length records.now ≤ spare words.old }
    requires sound { All (IsEntry others.old.items) words.old.items }
    ensures ok { OnOk result (flat_map (entries_of others.new.items) words.new.items
        ≡ flat_map (entries_of others.old.items) words.old.items ++ records.now) }
    ensures stay { Stay others.old.items others.new.items }
    ensures kept { take (length words.old.items) words.new.items ≡ words.old.items }
    ensures sound { All (IsEntry others.new.items) words.new.items }
{
    let mut done = 0;
    while done < records.len() {
        done += note(words, others, firsts, listings, records, done)?;
    }
    Ok(())
}

// Returns true if the words before `last` and those from it on are the same, `size` of them from
// `before` on.
fn same_words(words: &[Packed], before: usize, last: usize, size: usize) -> bool
    requires { (before + size ≤ last) × (last + size ≤ length words.now) }
    ensures { IsTrue result → take size (drop before words.now) ≡ take size (drop last words.now) }
{
    let mut done = 0;
    while done < size {
        let (first, second) = (words[before + done], words[last + done]);
        if first.high != second.high || first.low != second.low {
            return false;
        }
        done += 1;
    }
    true
}

// Stores the last listing as a run of the words of the listing before it, if both are equal and it
// ends the archive. There must be room for two runs. Returns the place of the first word that is in
// no run.
fn fold(words: &mut Vec<Packed>, runs: &mut Vec<Run>, tail: usize, listings: &mut Listings) -> usize
    requires room { vec_len runs.old + 2 ≤ vec_capacity runs.old }
    requires runs { All (IsRun tail) runs.old.items }
    requires few { tail ≤ length words.old.items }
    ensures order { in_order runs.new.items result words.new.items
        ≡ in_order runs.old.items tail words.old.items }
    ensures runs { All (IsRun result) runs.new.items }
    ensures few { result ≤ length words.new.items }
    ensures words { words.new.items ≡ take (length words.new.items) words.old.items }
{
    let Listings { before, last, end } = *listings;
    if end != words.len() || last < tail || last <= before || end <= last {
        return tail;
    }
    let size = end - last;
    if size < LONG || last - before < size {
        return tail;
    }
    if !same_words(words.as_slice(), before, last, size) {
        return tail;
    }
    runs.push_reserved(Run {
        from: tail,
        end: last,
    });
    runs.push_reserved(Run {
        from: before,
        end: before + size,
    });
    words.truncate(last);
    *listings = Listings {
        before,
        last: before,
        end: usize::MAX,
    };
    last
}

impl Archive {
    /// Creates an empty archive. Does not allocate.
    pub fn new(alloc: Global) -> Self
        ensures { result ≡ [] }
    {
        Archive {
            words: Vec::new(alloc),
            others: Vec::new(alloc),
            firsts: Firsts::new(alloc),
            runs: Vec::new(alloc),
            tail: 0,
            listings: Listings {
                before: 0,
                last: 0,
                end: 0,
            },
            count: 0,
        }
    }

    /// Appends records. After `AllocError` nothing has changed. A listing at the end that equals the
    /// one before it takes no memory for its lines.
    #[tactic(auto, unfolding(crate::specs::Room::spare))]
    pub fn append(&mut self, records: &[Record]) -> Result<(), AllocError>
        ensures ok { OnOk result (self.new ≡ self.old ++ records.now) }
        ensures err { OnErr result (self.new ≡ self.old) }
    {
        // No experiment makes 2^64 records, but no contract says so.
        let Some(count) = self.count.checked_add(records.len()) else {
            return Err(AllocError);
        };
        self.words.reserve(records.len())?;
        self.runs.reserve(2)?;
        let before = self.words.as_slice().len();
        let Ok(()) = note_all(
            &mut self.words,
            &mut self.others,
            &mut self.firsts,
            &mut self.listings,
            records,
        ) else {
            self.words.truncate(before);
            return Err(AllocError);
        };
        self.tail = fold(
            &mut self.words,
            &mut self.runs,
            self.tail,
            &mut self.listings,
        );
        self.count = count;
        Ok(())
    }

    /// Returns the number of records.
    #[inline(always)]
    pub fn len(&self) -> usize
        ensures { result ≡ length self.now }
    {
        self.count
    }

    /// Returns the record at a place, or `None` if there is none. If words have two records, or
    /// listings are stored as runs, all records before it are read.
    pub fn record(&self, place: usize) -> Option<Record>
        ensures { result ≡ slice_get self.now place }
    {
        if place >= self.count {
            return None;
        }
        if self.count != self.words.as_slice().len() || self.tail != 0 {
            let words = Stretches::new(self.words.as_slice(), self.runs.as_slice(), self.tail);
            return nth(self.others.as_slice(), words, place);
        }
        let word = self.words[place];
        Some(record_at(self.others.as_slice(), word, unpack(word)))
    }

    /// Returns the records, to be read one after the other.
    pub fn reader(&self) -> Reader<'_>
        ensures { result ≡ self.now }
    {
        let words = Stretches::new(self.words.as_slice(), self.runs.as_slice(), self.tail);
        Reader::new(self.others.as_slice(), words)
    }
}
