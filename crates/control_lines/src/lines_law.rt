//! Laws about lines. Each is the contract of a function with an empty body, so that the check
//! proves it.

ghost use Rattle.control_lines.specs.LinesAreRead.{LinesAreRead};
ghost use Rattle.control_lines.specs.LinesSayOne.{LinesSayOne};

use control_words::laws;

/// A line has at most one meaning.
pub fn lines_say_one()
    ensures { LinesSayOne }
{
    laws::options_are_read();
}

/// Words that are parsed as a line spell that line, and words that spell a line are parsed as
/// exactly that line.
pub fn lines_are_read()
    ensures { LinesAreRead }
{
    laws::options_are_read();
}
