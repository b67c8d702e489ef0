//! Laws about the faulty word. Each is the contract of a function with an empty body, so that the
//! check proves it.

ghost use Rattle.control.specs.FirstWrong.{OneIsFirstWrong};
ghost use Rattle.control.specs.Refused.{RefusedAreBlamed};

use control_lines::lines_are_read;

/// No two words of a line are both the first faulty one.
pub fn one_is_first_wrong()
    ensures { OneIsFirstWrong }
{}

/// A line that is rejected for its words has a faulty word by form. A line that is rejected for its
/// numbers has none by form, and one by range.
pub fn refused_are_blamed()
    ensures { RefusedAreBlamed }
{
    lines_are_read();
}
