//! The account of a run: the commands that its reports show as refused, and what else is counted.

ghost use Rattle.std.specs.Prelude.{IfOk};
ghost use Rattle.explain.specs.RunAccount.{IsAccountOf};

use crate::account::Account;
use experiment::Report;
use std::alloc::{AllocError, Global};

/// Returns the refused commands and the other counts of a scenario's reports. Returns `AllocError`
/// if an allocation fails.
pub fn account_of(alloc: Global, reports: &[Report]) -> Result<Account, AllocError>
    ensures { IfOk result (λ told. IsAccountOf reports.now told) }
{
    let mut account = Account::new(alloc);
    for (place, report) in reports.iter().enumerate() {
        account.take(place as u64 + 1, report.records())?;
    }
    Ok(account)
}
