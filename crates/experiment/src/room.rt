//! Reports that are written into a buffer of the caller's, without an intermediate text.

ghost use Rattle.std.specs.Prelude.{◌≡◌, ◌+◌, ◌<◌, ◌≤◌, flat_map, length, take, drop, IfOk};
ghost use Rattle.report.specs.Lines.{line_of};
ghost use Rattle.report.specs.Rows.{record_bytes, rows_of};
ghost use Rattle.experiment.specs.Rooms.{IsPutAt};
ghost use Rattle.experiment.specs.Written.{npy_of, rows_from, text_of, texts_of};

use crate::keeper::Report;
use crate::rows::count_rows;
use report::{Archive, Moments, ROW, Reader, npy_header, put_counters, put_rows, write_some};
use std::alloc::{AllocError, Global};

/// The size (bytes) of the page on which rows are built.
const PAGE: usize = 4_000;

// Writes bytes from a place on if all of them fit, and returns their end in either case.
fn put_bytes(room: &mut [u8], at: usize, bytes: &[u8]) -> Result<usize, AllocError>
    ensures put { IfOk result (IsPutAt bytes.now at room.old room.new) }
    ensures room { length room.new ≡ length room.old }
{
    // An end always fits into 64 bits, because everything is in memory, but no contract here says
    // so.
    let Some(end) = at.checked_add(bytes.len()) else {
        return Err(AllocError);
    };
    if end <= room.len() {
        room[at..end].copy_from_slice(bytes);
    }
    Ok(end)
}

// Writes the lines of the next records, built on a sheet, and returns their number and their end.
#[tactic(auto, using(report::proofs::Taken::some_read))]
fn put_some(
    room: &mut [u8],
    at: usize,
    sheet: &mut Vec<u8>,
    moments: &mut Moments,
    records: &mut Reader<'_>,
) -> Result<(usize, usize), AllocError>
    requires { 0 < length records.old }
    ensures count { IfOk result (λ r. (0 < r.0) × (r.0 ≤ length records.old)) }
    ensures left { IfOk result (λ r. records.new ≡ drop r.0 records.old) }
    ensures put { IfOk result (λ r.
        IsPutAt (flat_map line_of (take r.0 records.old)) at room.old room.new r.1) }
    ensures room { length room.new ≡ length room.old }
{
    sheet.clear();
    let count = write_some(sheet, moments, records)?;
    let end = put_bytes(room, at, sheet.as_slice())?;
    Ok((count, end))
}

// Writes the lines of records, and returns their end.
#[tactic(auto, using(crate::proofs::Rooms::put_none))]
fn put_lines(
    room: &mut [u8],
    at: usize,
    sheet: &mut Vec<u8>,
    moments: &mut Moments,
    records: &Archive,
) -> Result<usize, AllocError>
    ensures put { IfOk result (IsPutAt (flat_map line_of records.now) at room.old room.new) }
    ensures room { length room.new ≡ length room.old }
{
    let mut reader = records.reader();
    let mut done = 0;
    let mut end = at;
    while done < records.len() {
        let (count, next) = put_some(room, end, sheet, moments, &mut reader)?;
        done += count;
        end = next;
    }
    Ok(end)
}

// Writes a report, and returns its end.
#[tactic(auto, using(crate::proofs::Rooms::put_last))]
fn put_report(
    room: &mut [u8],
    at: usize,
    sheet: &mut Vec<u8>,
    moments: &mut Moments,
    report: &Report,
) -> Result<usize, AllocError>
    ensures put { IfOk result (IsPutAt (text_of report.now) at room.old room.new) }
    ensures room { length room.new ≡ length room.old }
{
    let (heading, records, last) = report.parts();
    let first = put_bytes(room, at, heading)?;
    let end = put_lines(room, first, sheet, moments, records)?;
    put_bytes(room, end, last)
}

/// Writes reports into a buffer, one after the other, as far as they fit, and returns their total
/// length (bytes), which may exceed the buffer. Fails with `AllocError` if there is no memory for
/// the sheet on which lines are built.
#[tactic(auto, using(crate::proofs::Rooms::put_none, crate::proofs::Rooms::put_piece))]
pub fn put_reports(alloc: Global, reports: &[Report], room: &mut [u8]) -> Result<usize, AllocError>
    ensures put { IfOk result (IsPutAt (texts_of reports.now) 0 room.old room.new) }
    ensures room { length room.new ≡ length room.old }
{
    let mut sheet = Vec::new(alloc);
    let mut moments = Moments::new();
    let mut done = 0;
    let mut end = 0;
    while done < reports.len() {
        end = put_report(room, end, &mut sheet, &mut moments, &reports[done])?;
        done += 1;
    }
    Ok(end)
}

// Writes the rows of records, and returns their end.
#[tactic(auto, using(crate::proofs::Rooms::put_none))]
fn put_record_rows(
    room: &mut [u8],
    at: usize,
    page: &mut [u8],
    records: &Archive,
    number: u8,
) -> Result<usize, AllocError>
    requires { 40 ≤ length page.old }
    ensures page { length page.new ≡ length page.old }
    ensures put { IfOk result
        (IsPutAt (flat_map (record_bytes number) records.now) at room.old room.new) }
    ensures room { length room.new ≡ length room.old }
{
    let mut reader = records.reader();
    let mut done = 0;
    let mut end = at;
    while done < records.len() {
        let count = put_rows(page, &mut reader, number);
        end = put_bytes(room, end, &page[..count * ROW])?;
        done += count;
    }
    Ok(end)
}

// Writes the rows of a report, and returns their end.
#[tactic(auto, using(crate::proofs::Rooms::put_behind))]
fn put_report_rows(
    room: &mut [u8],
    at: usize,
    page: &mut [u8],
    report: &Report,
    number: u8,
) -> Result<usize, AllocError>
    requires { 40 ≤ length page.old }
    ensures page { length page.new ≡ length page.old }
    ensures put { IfOk result
        (IsPutAt (rows_of number report.now.records report.now.counters) at room.old room.new) }
    ensures room { length room.new ≡ length room.old }
{
    let end = put_record_rows(room, at, page, report.records(), number)?;
    let mut row = [0u8; ROW];
    put_counters(&mut row, report.counters(), number);
    put_bytes(room, end, &row)
}

// Writes the rows of reports, and returns their end.
#[tactic(auto, using(crate::proofs::Rooms::put_none))]
fn put_all_rows(
    room: &mut [u8],
    at: usize,
    page: &mut [u8],
    reports: &[Report],
) -> Result<usize, AllocError>
    requires { 40 ≤ length page.old }
    ensures put { IfOk result (IsPutAt (rows_from 0 reports.now) at room.old room.new) }
    ensures room { length room.new ≡ length room.old }
{
    let mut end = at;
    for number in 0..reports.len() {
        end = put_report_rows(room, end, page, &reports[number], number.min(255) as u8)?;
    }
    Ok(end)
}

/// Writes the rows of reports into a buffer, after the header that names their columns, as far as
/// they fit, and returns the length (bytes) of both, which may exceed the buffer. Fails with
/// `AllocError` if there is no memory for the page on which rows are built.
#[tactic(auto, using(crate::proofs::Rooms::put_behind))]
pub fn put_npy(alloc: Global, reports: &[Report], room: &mut [u8]) -> Result<usize, AllocError>
    ensures put { IfOk result (IsPutAt (npy_of reports.now) 0 room.old room.new) }
    ensures room { length room.new ≡ length room.old }
{
    let rows = count_rows(reports)?;
    let header = npy_header(alloc, rows as u64)?;
    let mut page = Vec::with_capacity(alloc, PAGE)?;
    page.resize(PAGE, 0u8)?;
    let end = put_bytes(room, 0, header.as_slice())?;
    put_all_rows(room, end, page.as_mut_slice(), reports)
}
