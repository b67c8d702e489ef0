//! Whole reports and listings, as bytes (our choice). They fail with `AllocError` if memory runs
//! out.

ghost use Rattle.std.specs.Prelude.{◌≡◌, IfOk};
ghost use Rattle.report.specs.Lines.{report_of, rules_of, pipes_of};

use crate::lines::{write_counters, write_heading, write_record};
use crate::moments::Moments;
use crate::runs::write_records;
use emu_model::{Counters, Record};
use std::alloc::{AllocError, Global};

// The bytes to reserve per line, including its line feed; most lines have fewer.
const LINE: usize = 32;

/// Returns a whole report, for tests and probes: the programs that users run write it in parts.
///
/// A report is the experiment's name, a line for each record, and the counters.
pub fn report_text(
    alloc: Global,
    name: &[u8],
    records: &[Record],
    counters: &Counters,
) -> Result<Vec<u8>, AllocError>
    ensures { IfOk result (λ text. text.items ≡ report_of name.now records.now counters.now) }
{
    let mut text = Vec::new(alloc);
    let mut moments = Moments::new();
    // Most lines are shorter, so the text grows at most once; if this allocation fails, the text
    // grows as needed.
    let _ = text.reserve(records.len().saturating_mul(LINE));
    write_heading(&mut text, name)?;
    write_records(&mut text, &mut moments, records)?;
    write_counters(&mut text, counters)?;
    Ok(text)
}

/// Returns the lines of the rules that were listed; no program calls it.
pub fn rule_listing(alloc: Global, records: &[Record]) -> Result<Vec<u8>, AllocError>
    ensures { IfOk result (λ text. text.items ≡ rules_of records.now) }
{
    let mut text = Vec::new(alloc);
    let mut moments = Moments::new();
    for line in records {
        if let Record::RuleLine { .. } = line {
            write_record(&mut text, &mut moments, line)?;
        }
    }
    Ok(text)
}

/// Returns the lines of the pipes and instances that were listed; no program calls it.
pub fn pipe_listing(alloc: Global, records: &[Record]) -> Result<Vec<u8>, AllocError>
    ensures { IfOk result (λ text. text.items ≡ pipes_of records.now) }
{
    let mut text = Vec::new(alloc);
    let mut moments = Moments::new();
    for line in records {
        if let Record::PipeLine { .. } | Record::InstanceLine { .. } = line {
            write_record(&mut text, &mut moments, line)?;
        }
    }
    Ok(text)
}
