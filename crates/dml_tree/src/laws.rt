//! What holds of the tokens of every line.

ghost use Rattle.dml_tree.specs.Laws.{EachIsRead, ReadOneWay, StandInOrder, WordsAreReserved};

/// Bytes spell one token at most. A line has one list of tokens at most, or one first fault, and not
/// both. See docs/LANGUAGE.md, "Tokens".
pub fn lines_are_read_one_way()
    ensures { ReadOneWay }
{}

/// The tokens of a line stand one behind the other, their bytes spell them, and the last one is that
/// of the line's end. See docs/LANGUAGE.md, "Tokens".
pub fn tokens_stand_in_order()
    ensures { StandInOrder }
{}

/// A reserved word is no name, and is the same word in small and in capital letters. See
/// docs/LANGUAGE.md, "Names and words".
pub fn words_are_reserved()
    ensures { WordsAreReserved }
{}

/// Each line has tokens from each place in it, or a first fault: so `tokens_in` gives what a line is
/// read as. See docs/LANGUAGE.md, "Tokens".
pub fn each_line_is_read()
    ensures { EachIsRead }
{}
