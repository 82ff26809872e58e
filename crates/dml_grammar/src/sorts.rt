ghost use Rattle.std.specs.Prelude.{◌≡◌, map, [], ◌∷◌};
ghost use Rattle.dml_forms.specs.Forms.{among};
ghost use Rattle.dml_grammar.specs.Sorts as spec;

use crate::placed::Placed;
use dml_tree::{Sort, Symbol, Word};

/// Whether a token is of this sort.
pub fn is_of(token: &Placed, sort: Sort) -> bool
    ensures { result ≡ among (spec.sort token.now) (spec.number sort ∷ []) }
{
    token.token.what.sort().is(sort)
}

/// Whether a sort is one of these symbols.
pub fn is_symbol_among(found: Sort, symbols: &[Symbol]) -> bool
    ensures { result ≡ among (spec.number found) (spec.symbols_of symbols.now) }
{
    for symbol in symbols {
        if found.is(Sort::Symbol(*symbol)) {
            return true;
        }
    }
    false
}

/// Whether a sort is one of these.
pub fn is_among(found: Sort, sorts: &[Sort]) -> bool
    ensures { result ≡ among (spec.number found) (map spec.number sorts.now) }
{
    for sort in sorts {
        if found.is(*sort) {
            return true;
        }
    }
    false
}

/// Whether a sort is one of these words.
pub fn is_word_among(found: Sort, words: &[Word]) -> bool
    ensures { result ≡ among (spec.number found) (spec.words_of words.now) }
{
    for word in words {
        if found.is(Sort::Word(*word)) {
            return true;
        }
    }
    false
}
