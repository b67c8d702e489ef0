//! The laws about options. They are the contract of a function with an empty body, so that the
//! check proves them.

ghost use Rattle.control_words.specs.OptionsAreRead.{OptionsAreRead, FlowOptionsAreRead};

/// Words that are parsed as options spell those options, and words that spell options are parsed as
/// exactly those.
pub fn options_are_read()
    ensures pipe { OptionsAreRead }
    ensures flow { FlowOptionsAreRead }
{}
