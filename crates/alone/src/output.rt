//! Writes the reports through a buffer that is allocated before the first byte is written.

ghost use Rattle.std.specs.Prelude.{◌≡◌, ◌+◌, ◌<◌, ◌≤◌, ◌++◌, [], true, is_err, drop, flat_map, length, take, IfOk, OnOk, OnErr};
ghost use Rattle.report.specs.Lines.{line_of};
ghost use Rattle.report.specs.Rows.{npy_header, record_bytes, rows_of};
ghost use Rattle.experiment.specs.Written.{row_count, rows_from, text_of, texts_of};
ghost use Rattle.alone.specs.Bytes.{Puts, Stops};

use crate::ends::{Failed, Outlet, flush_all, write_all};
use experiment::{Report, count_rows};
use report::{Archive, Moments, ROW, Reader, npy_header, put_counters, put_rows, write_some};
use std::alloc::{AllocError, Global};
use std::marker::Model;

/// The capacity of the buffer, in bytes.
const CAPACITY: usize = 65_536;

/// The length in bytes above which bytes bypass the buffer, because copying them would cost more
/// than a call.
const LONG: usize = 16_384;

/// The number of bytes that suffices for the lines that one call formats.
const PAGE: usize = 4_624;

/// The number of bytes of the page on which rows are built. It exceeds `LONG`, so a full page
/// bypasses the buffer.
const ROWS_PAGE: usize = 65_520;

/// The bytes that haven't been passed to the writer yet, at most 65536.
#[derive(Drop)]
pub struct Buffer {
    kept: Vec<u8>,
}

impl Model for Buffer {
    ghost use Rattle.std.specs.Prelude.{ℕ, List, ◌≤◌, vec_capacity};

    ghost Value = { List ℕ };

    ghost view = { λ b. b.kept.items };

    ghost invariant = { λ b. 65536 ≤ vec_capacity b.kept };
}

impl Buffer {
    /// Creates an empty buffer. No other call of this module allocates.
    pub fn new(alloc: Global) -> Result<Self, AllocError>
        ensures { IfOk result (λ b. b ≡ []) }
    {
        let kept = Vec::with_capacity(alloc, CAPACITY)?;
        Ok(Buffer { kept })
    }

    // Writes all bytes of the buffer.
    #[tactic(auto, using(crate::proofs::Writing::puts_out_as, crate::proofs::Writing::stops_out))]
    fn hand_on<W: Outlet>(&mut self, writer: &mut W) -> Result<(), Failed>
        ensures ok { OnOk result
            (Puts (W.contents writer.old) self.old (W.contents writer.new) self.new []) }
        ensures empty { OnOk result (self.new ≡ []) }
        ensures cut { OnErr result
            (Stops (W.contents writer.old) self.old (W.contents writer.new) []) }
        ensures failed { OnErr result (W.failed writer.new ≡ true) }
    {
        write_all(writer, self.kept.as_slice())?;
        self.kept.clear();
        Ok(())
    }

    /// Appends bytes to the output.
    #[tactic(auto, using(crate::proofs::Writing::puts_next, crate::proofs::Writing::puts_kept_as, crate::proofs::Writing::puts_straight_as, crate::proofs::Writing::puts_none, crate::proofs::Writing::stops_any, crate::proofs::Writing::stops_straight_as, crate::proofs::Writing::stops_next))]
    pub fn put<W: Outlet>(&mut self, writer: &mut W, bytes: &[u8]) -> Result<(), Failed>
        ensures ok { OnOk result
            (Puts (W.contents writer.old) self.old (W.contents writer.new) self.new bytes.now) }
        ensures cut { OnErr result
            (Stops (W.contents writer.old) self.old (W.contents writer.new) bytes.now) }
        ensures failed { OnErr result (W.failed writer.new ≡ true) }
    {
        if bytes.len() > LONG {
            self.hand_on(writer)?;
            return write_all(writer, bytes);
        }
        if self.kept.len() > CAPACITY - bytes.len() {
            self.hand_on(writer)?;
        }
        let Ok(()) = self.kept.extend_from_slice(bytes) else {
            unreachable!()
        };
        Ok(())
    }

    /// Appends reports, one after the other, and formats their lines on the way.
    #[tactic(auto, using(crate::proofs::Writing::puts_none, crate::proofs::Reporting::texts_puts, crate::proofs::Reporting::texts_stops))]
    pub fn put_reports<W: Outlet>(
        &mut self,
        writer: &mut W,
        reports: &[Report],
    ) -> Result<(), Failed>
        ensures ok { OnOk result
            (Puts (W.contents writer.old) self.old (W.contents writer.new) self.new
            (texts_of reports.now)) }
        ensures cut { OnErr result
            (Stops (W.contents writer.old) self.old (W.contents writer.new)
            (texts_of reports.now)) }
        ensures failed { OnErr result (W.failed writer.new ≡ true) }
    {
        let mut moments = Moments::new();
        for report in reports {
            self.put_report(writer, &mut moments, report)?;
        }
        Ok(())
    }

    // Appends a report.
    #[tactic(auto, using(crate::proofs::Reporting::three_put, crate::proofs::Reporting::first_stops, crate::proofs::Reporting::second_stops, crate::proofs::Reporting::third_stops))]
    fn put_report<W: Outlet>(
        &mut self,
        writer: &mut W,
        moments: &mut Moments,
        report: &Report,
    ) -> Result<(), Failed>
        ensures ok { OnOk result
            (Puts (W.contents writer.old) self.old (W.contents writer.new) self.new
            (text_of report.now)) }
        ensures cut { OnErr result
            (Stops (W.contents writer.old) self.old (W.contents writer.new) (text_of report.now)) }
        ensures failed { OnErr result (W.failed writer.new ≡ true) }
    {
        let (heading, records, last) = report.parts();
        self.put(writer, heading)?;
        self.put_lines(writer, moments, records)?;
        self.put(writer, last)
    }

    // Appends the lines of records.
    #[tactic(auto, using(crate::proofs::Writing::puts_none, crate::proofs::Reporting::lines_puts, crate::proofs::Reporting::lines_stops))]
    fn put_lines<W: Outlet>(
        &mut self,
        writer: &mut W,
        moments: &mut Moments,
        records: &Archive,
    ) -> Result<(), Failed>
        ensures ok { OnOk result
            (Puts (W.contents writer.old) self.old (W.contents writer.new) self.new
            (flat_map line_of records.now)) }
        ensures cut { OnErr result
            (Stops (W.contents writer.old) self.old (W.contents writer.new)
            (flat_map line_of records.now)) }
        ensures failed { OnErr result (W.failed writer.new ≡ true) }
    {
        let mut reader = records.reader();
        let mut done = 0;
        while done < records.len() {
            done += self.put_some(writer, moments, &mut reader)?;
        }
        Ok(())
    }

    // Appends the lines of the next records, and returns their number.
    #[tactic(auto, using(report::proofs::Taken::some_read, crate::proofs::Writing::puts_next, crate::proofs::Writing::puts_kept_as, crate::proofs::Writing::puts_none, crate::proofs::Writing::stops_any))]
    fn put_some<W: Outlet>(
        &mut self,
        writer: &mut W,
        moments: &mut Moments,
        records: &mut Reader<'_>,
    ) -> Result<usize, Failed>
        requires { 0 < length records.old }
        ensures count { IfOk result (λ n. (0 < n) × (n ≤ length records.old)) }
        ensures left { IfOk result (λ n. records.new ≡ drop n records.old) }
        ensures ok { IfOk result (λ n.
            Puts (W.contents writer.old) self.old (W.contents writer.new) self.new
            (flat_map line_of (take n records.old))) }
        ensures cut { OnErr result
            (Stops (W.contents writer.old) self.old (W.contents writer.new) []) }
        ensures failed { OnErr result (W.failed writer.new ≡ true) }
    {
        if self.kept.len() > CAPACITY - PAGE {
            self.hand_on(writer)?;
        }
        let Ok(count) = write_some(&mut self.kept, moments, records) else {
            unreachable!()
        };
        Ok(count)
    }

    /// Appends the rows of reports, after the header that names their columns. Rows are built on a
    /// page.
    #[tactic(auto, using(crate::proofs::Writing::puts_both, crate::proofs::Writing::stops_before, crate::proofs::Writing::stops_behind))]
    pub fn put_npy<W: Outlet>(
        &mut self,
        writer: &mut W,
        header: &[u8],
        page: &mut [u8],
        reports: &[Report],
    ) -> Result<(), Failed>
        requires { 40 ≤ length page.old }
        ensures ok { OnOk result
            (Puts (W.contents writer.old) self.old (W.contents writer.new) self.new
            (header.now ++ rows_from 0 reports.now)) }
        ensures cut { OnErr result
            (Stops (W.contents writer.old) self.old (W.contents writer.new)
            (header.now ++ rows_from 0 reports.now)) }
        ensures failed { OnErr result (W.failed writer.new ≡ true) }
    {
        self.put(writer, header)?;
        self.put_all_rows(writer, page, reports)
    }

    // Appends the rows of reports.
    #[tactic(auto, using(crate::proofs::Writing::puts_none, crate::proofs::Reporting::rows_puts, crate::proofs::Reporting::rows_stops))]
    fn put_all_rows<W: Outlet>(
        &mut self,
        writer: &mut W,
        page: &mut [u8],
        reports: &[Report],
    ) -> Result<(), Failed>
        requires { 40 ≤ length page.old }
        ensures ok { OnOk result
            (Puts (W.contents writer.old) self.old (W.contents writer.new) self.new
            (rows_from 0 reports.now)) }
        ensures cut { OnErr result
            (Stops (W.contents writer.old) self.old (W.contents writer.new)
            (rows_from 0 reports.now)) }
        ensures failed { OnErr result (W.failed writer.new ≡ true) }
    {
        for number in 0..reports.len() {
            self.put_report_rows(writer, page, &reports[number], number.min(255) as u8)?;
        }
        Ok(())
    }

    // Appends the rows of a report, which is that of the experiment with this number.
    #[tactic(auto, using(crate::proofs::Reporting::two_put, crate::proofs::Reporting::first_of_two_stops, crate::proofs::Reporting::second_of_two_stops))]
    fn put_report_rows<W: Outlet>(
        &mut self,
        writer: &mut W,
        page: &mut [u8],
        report: &Report,
        number: u8,
    ) -> Result<(), Failed>
        requires { 40 ≤ length page.old }
        ensures page { length page.new ≡ length page.old }
        ensures ok { OnOk result
            (Puts (W.contents writer.old) self.old (W.contents writer.new) self.new
            (rows_of number report.now.records report.now.counters)) }
        ensures cut { OnErr result
            (Stops (W.contents writer.old) self.old (W.contents writer.new)
            (rows_of number report.now.records report.now.counters)) }
        ensures failed { OnErr result (W.failed writer.new ≡ true) }
    {
        self.put_rows(writer, page, report.records(), number)?;
        put_counters(page, report.counters(), number);
        self.put(writer, &page[..row_size()])
    }

    // Appends the rows of records.
    #[tactic(auto, using(crate::proofs::Writing::puts_none, crate::proofs::Reporting::some_rows_puts, crate::proofs::Reporting::some_rows_stops))]
    fn put_rows<W: Outlet>(
        &mut self,
        writer: &mut W,
        page: &mut [u8],
        records: &Archive,
        number: u8,
    ) -> Result<(), Failed>
        requires { 40 ≤ length page.old }
        ensures page { length page.new ≡ length page.old }
        ensures ok { OnOk result
            (Puts (W.contents writer.old) self.old (W.contents writer.new) self.new
            (flat_map (record_bytes number) records.now)) }
        ensures cut { OnErr result
            (Stops (W.contents writer.old) self.old (W.contents writer.new)
            (flat_map (record_bytes number) records.now)) }
        ensures failed { OnErr result (W.failed writer.new ≡ true) }
    {
        let mut reader = records.reader();
        let mut done = 0;
        while done < records.len() {
            let count = put_rows(page, &mut reader, number);
            self.put(writer, &page[..count * ROW])?;
            done += count;
        }
        Ok(())
    }

    /// Writes all bytes of the buffer, and flushes the writer.
    #[tactic(auto, using(crate::proofs::Writing::puts_flushed_as, crate::proofs::Writing::stops_flushed_as))]
    pub fn finish<W: Outlet>(self, writer: &mut W) -> Result<(), Failed>
        ensures ok { OnOk result (Puts (W.contents writer.old) self (W.contents writer.new) [] []) }
        ensures cut { OnErr result (Stops (W.contents writer.old) self (W.contents writer.new) []) }
        ensures failed { W.failed writer.new ≡ is_err result }
    {
        let mut buffer = self;
        buffer.hand_on(writer)?;
        flush_all(writer)
    }
}

// Returns the size of a row, as a number that the prover doesn't unroll.
#[inline(always)]
fn row_size() -> usize
    ensures { result ≡ 40 }
{
    ROW
}

// Returns a page of zeros.
fn blank_page(alloc: Global) -> Result<Vec<u8>, AllocError>
    ensures { IfOk result (λ p. length p.items ≡ 65520) }
{
    let mut page = Vec::with_capacity(alloc, ROWS_PAGE)?;
    page.resize(ROWS_PAGE, 0)?;
    Ok(page)
}

/// Returns what `Buffer::put_npy` needs for reports: the buffer, the header, and the page on which
/// rows are built. Fails with `AllocError` if memory runs out.
pub fn npy_rooms(
    alloc: Global,
    reports: &[Report],
) -> Result<(Buffer, Vec<u8>, Vec<u8>), AllocError>
    ensures buffer { IfOk result (λ r. r.0 ≡ []) }
    ensures header { IfOk result (λ r. r.1.items ≡ npy_header (row_count reports.now)) }
    ensures page { IfOk result (λ r. 40 ≤ length r.2.items) }
{
    let rows = count_rows(reports)?;
    let header = npy_header(alloc, rows as u64)?;
    let buffer = Buffer::new(alloc)?;
    let page = blank_page(alloc)?;
    Ok((buffer, header, page))
}
