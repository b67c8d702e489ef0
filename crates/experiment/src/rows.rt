//! The number of the rows of reports, and their length.

ghost use Rattle.std.specs.Prelude.{◌≡◌, length, IfOk};
ghost use Rattle.experiment.specs.Written.{npy_of, row_count};

use crate::keeper::Report;
use report::{ROW, Source, npy_header};
use std::alloc::{AllocError, Global};

/// Returns the number of rows of reports: one for each record, and one for the counters of each.
/// Fails with `AllocError` if the number doesn't fit into 64 bits. No experiment makes that many
/// records, but no contract says so.
pub fn count_rows(reports: &[Report]) -> Result<usize, AllocError>
    ensures { IfOk result (λ n. n ≡ row_count reports.now) }
{
    let mut rows = 0usize;
    for report in reports {
        let Some(sum) = rows.checked_add(report.records().len()) else {
            return Err(AllocError);
        };
        let Some(next) = sum.checked_add(1) else {
            return Err(AllocError);
        };
        rows = next;
    }
    Ok(rows)
}

/// Returns the length (bytes) of the file of reports' rows. Fails with `AllocError` if memory runs
/// out.
#[tactic(auto, using(crate::proofs::RowLengths::npy_length))]
pub fn npy_length(alloc: Global, reports: &[Report]) -> Result<usize, AllocError>
    ensures { IfOk result (λ n. n ≡ length (npy_of reports.now)) }
{
    let count = count_rows(reports)?;
    let header = npy_header(alloc, count as u64)?;
    let Some(bytes) = count.checked_mul(ROW) else {
        return Err(AllocError);
    };
    let Some(length) = bytes.checked_add(header.len()) else {
        return Err(AllocError);
    };
    Ok(length)
}
