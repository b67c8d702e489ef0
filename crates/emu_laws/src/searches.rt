//! Laws about the end of a search among the rules.

ghost use Rattle.emu_laws.specs.SearchEnds.{SearchesAreDecided};

/// In every state of every run, a search among the rules ends at exactly one of them, which matches
/// the packet and whose action is the verdict: `allow`, `deny` or `pipe`. On its way the search
/// passes rules that don't match, continues after a `count` that does, and at the number of a
/// `skipto` (ipfw(8)).
pub fn searches_are_decided()
    ensures { SearchesAreDecided }
{}
