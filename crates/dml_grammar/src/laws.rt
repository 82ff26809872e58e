//! What holds of the grammar.

ghost use Rattle.dml_grammar.specs.Laws.{OneRefusal, OneTree};
ghost use Rattle.dml_grammar.specs.Trees.{EachIsAnswered};

/// The tokens of a line or a block have one tree at most. See docs/LANGUAGE.md, "How a line is read".
pub fn one_tree()
    ensures { OneTree }
{}

/// Tokens that are refused as a statement or a definition are none, and are refused at one token
/// alone. See docs/LANGUAGE.md, "How a line is read".
pub fn one_refusal()
    ensures { OneRefusal }
{}

/// Each list of tokens is a part of the grammar, or is refused as one, under the limits: so `tree_of`
/// gives its tree, or the place of the refusal. See docs/LANGUAGE.md, "How a line is read".
pub fn each_list_is_answered()
    ensures { EachIsAnswered }
{}
