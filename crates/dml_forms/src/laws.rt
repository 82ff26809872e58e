//! What holds of every grammar that is stated by forms.

ghost use Rattle.dml_forms.specs.FormLaws.{Answered, FrontsBegin, HeightsGrow, OneAnswer, OneTree};

/// A greater height, which is how deep parts may lie in one another, derives no less. See
/// docs/LANGUAGE.md, "How a line is read".
pub fn heights_grow()
    ensures { HeightsGrow }
{}

/// The tokens of a part begin it, and so does each front of them. See docs/LANGUAGE.md, "How a line
/// is read".
pub fn fronts_begin()
    ensures { FrontsBegin }
{}

/// A grammar in which the next token decides each choice gives a list of tokens one tree. See
/// docs/LANGUAGE.md, "How a line is read".
pub fn one_tree()
    ensures { OneTree }
{}

/// No list is both accepted and refused, and one that is refused is so at one token alone. See
/// docs/LANGUAGE.md, "How a line is read".
pub fn one_answer()
    ensures { OneAnswer }
{}

/// A grammar in which the next token decides each choice accepts a list or refuses it. See
/// docs/LANGUAGE.md, "How a line is read".
pub fn is_answered()
    ensures { Answered }
{}
