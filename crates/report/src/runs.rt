//! The lines of many records. The lines of events are built on one page and appended together, so
//! that the cost of an append isn't paid for each line.

ghost use Rattle.std.specs.Prelude.{◌≡◌, ◌+◌, ◌*◌, ◌≤◌, ◌++◌, [], drop, length, take, vec_len, vec_capacity, IfOk, IsOk, OnOk, OnErr};
ghost use Rattle.std.specs.List.{flat_map};
ghost use Rattle.report.specs.Lines.{line_of};
ghost use Rattle.report.specs.Room.{spare};

use crate::lines::write_record;
use crate::moments::{FULL, Moments};
use crate::source::{Listed, Source};
use emu_model::Record;
use std::alloc::AllocError;

// Writes the next lines on the page, until it is full or the source leaves a record to its caller.
// Returns the number of lines, and their end.
fn put_lines<S: Source>(moments: &mut Moments, source: &mut S) -> (usize, usize)
    ensures count { result.0 ≤ length (S.list source.old) }
    ensures left { S.list source.new ≡ drop result.0 (S.list source.old) }
    ensures end { (result.1 ≤ 4224) × (result.1 ≤ 128 * result.0) }
    ensures items { take result.1 moments.new.page
        ≡ flat_map line_of (take result.0 (S.list source.old)) }
{
    let mut count = 0;
    let mut end = 0;
    while end < FULL && count < FULL {
        let (clock, page) = (&mut moments.clock, &mut moments.page);
        let Some(next) = source.put(clock, page, end) else {
            return (count, end);
        };
        end = next;
        count += 1;
    }
    (count, end)
}

/// Appends the lines of the next records, and returns their number, which is 0 if there are none.
/// After `AllocError` the text is unchanged. Room for a page (4,624 bytes) is enough.
#[tactic(auto, unfolding(crate::specs::Room::spare))]
pub fn write_some<S: Source>(
    out: &mut Vec<u8>,
    moments: &mut Moments,
    source: &mut S,
) -> Result<usize, AllocError>
    ensures count { IfOk result (λ n. n ≤ length (S.list source.old)) }
    ensures some { IfOk result (λ n. n ≡ 0 → S.list source.old ≡ []) }
    ensures left { IfOk result (λ n. S.list source.new ≡ drop n (S.list source.old)) }
    ensures ok { IfOk result (λ n. out.new.items
        ≡ out.old.items ++ flat_map line_of (take n (S.list source.old))) }
    ensures err { OnErr result (out.new.items ≡ out.old.items) }
    ensures room { IfOk result (λ n. spare out.old ≤ spare out.new + 400 * n) }
    ensures capacity { vec_capacity out.old ≤ vec_capacity out.new }
    ensures succeeds { 400 * length (S.list source.old) ≤ spare out.old → IsOk result }
    ensures page { vec_len out.old + 4624 ≤ vec_capacity out.old → IsOk result }
{
    let (count, end) = put_lines(moments, source);
    if count == 0 {
        let Some(entry) = source.next() else {
            return Ok(0);
        };
        write_record(out, moments, &entry)?;
        return Ok(1);
    }
    out.extend_from_slice(&moments.page[..end])?;
    Ok(count)
}

/// Appends the lines of all records. After `AllocError` a prefix of them has been appended.
#[tactic(auto, unfolding(crate::specs::Room::spare))]
pub fn write_source<S: Source>(
    out: &mut Vec<u8>,
    moments: &mut Moments,
    source: &mut S,
) -> Result<(), AllocError>
    ensures ok { OnOk result
        (out.new.items ≡ out.old.items ++ flat_map line_of (S.list source.old)) }
    ensures kept { take (length out.old.items) out.new.items ≡ out.old.items }
    ensures capacity { vec_capacity out.old ≤ vec_capacity out.new }
    ensures succeeds { 400 * length (S.list source.old) ≤ spare out.old → IsOk result }
{
    loop {
        let count = write_some(out, moments, source)?;
        if count == 0 {
            return Ok(());
        }
    }
}

/// Appends the lines of records, one after the other. After `AllocError` the text is unchanged. The
/// cache in `moments` doesn't change the text. This is cheaper than a call per record.
#[tactic(auto, unfolding(crate::specs::Room::spare))]
pub fn write_records(
    out: &mut Vec<u8>,
    moments: &mut Moments,
    records: &[Record],
) -> Result<(), AllocError>
    ensures ok { OnOk result (out.new.items ≡ out.old.items ++ flat_map line_of records.now) }
    ensures err { OnErr result (out.new.items ≡ out.old.items) }
    ensures capacity { vec_capacity out.old ≤ vec_capacity out.new }
    ensures succeeds { vec_len out.old + 400 * length records.now ≤ vec_capacity out.old →
        IsOk result }
{
    let before = out.len();
    let written = write_source(out, moments, &mut Listed { records, place: 0 });
    if written.is_err() {
        out.truncate(before);
    }
    written
}
