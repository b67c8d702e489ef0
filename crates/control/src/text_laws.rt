//! Laws about texts. Each is the contract of a function with an empty body, so that the check
//! proves it.

ghost use Rattle.control.specs.TextLaws.{TextsSpellOne, TextsJoin, TextsPart};

use control_lines::lines_say_one;

/// A text spells at most one scenario.
pub fn texts_spell_one()
    ensures { TextsSpellOne }
{
    lines_say_one();
}

/// If two texts spell scenarios without a common name, and their concatenation keeps the limits of
/// a text (16777216 bytes, 256 experiments), the concatenation spells both scenarios, in their
/// order.
pub fn texts_join()
    ensures { TextsJoin }
{
    lines_say_one();
}

/// If a text spells a scenario, and its first part spells one by itself, the rest spells by itself
/// the experiments that follow.
pub fn texts_part()
    ensures { TextsPart }
{
    lines_say_one();
}
