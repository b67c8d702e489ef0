//! A law about reports. It is the contract of a function with an empty body, so that the check
//! proves it.

ghost use Rattle.alone.specs.JoiningLaw.{ReportsJoin};

use control::laws;

/// If each of several texts spells a scenario by itself, and their concatenation spells one too,
/// then that scenario is the concatenation of theirs, and its report is the concatenation of their
/// reports.
pub fn reports_join()
    ensures { ReportsJoin }
{
    laws::texts_part();
}
