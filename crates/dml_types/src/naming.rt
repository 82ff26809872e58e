ghost use Rattle.std.specs.Prelude.{◌≡◌};
ghost use Rattle.dml_kinds.specs.Meanings.{names_in, meaning_named};
ghost use Rattle.dml_types.specs.Statements as spec;

use aw_cell::{Kind, Text};
use dml_kinds::{Meaning, Scope};

/// What a name means, or `None` where nothing is known of it.
pub(crate) fn meaning(scope: &Scope, name: &Text) -> Option<Meaning>
    ensures { result ≡ meaning_named (names_in scope.now.catalogue.now scope.now.known.now scope.now.locals.now) name.now }
{
    match scope.known(name) {
        Some(known) => Some(known.meaning),
        None => None,
    }
}

fn limited_in(meaning: &Meaning) -> Option<u16>
    ensures { result ≡ spec.limited_in meaning.now }
{
    match meaning {
        Meaning::Dimension(object) => Some(*object),
        Meaning::Valueset(_, dimension) => Some(*dimension),
        _ => None,
    }
}

/// The dimension whose values LIMIT of this name limits.
pub(crate) fn limited(scope: &Scope, name: &Text) -> Option<u16>
    ensures { result ≡ spec.limited (names_in scope.now.catalogue.now scope.now.known.now scope.now.locals.now) name.now }
{
    match meaning(scope, name) {
        Some(meaning) => limited_in(&meaning),
        None => None,
    }
}

fn set_over_in(meaning: &Meaning) -> Option<u16>
    ensures { result ≡ spec.set_over_in meaning.now }
{
    match meaning {
        Meaning::Valueset(_, dimension) => Some(*dimension),
        _ => None,
    }
}

/// The dimension of the valueset that this name means.
pub(crate) fn set_over(scope: &Scope, name: &Text) -> Option<u16>
    ensures { result ≡ spec.set_over (names_in scope.now.catalogue.now scope.now.known.now scope.now.locals.now) name.now }
{
    match meaning(scope, name) {
        Some(meaning) => set_over_in(&meaning),
        None => None,
    }
}

fn number_kind_in(meaning: &Meaning) -> Option<Kind>
    ensures { result ≡ spec.number_kind_in meaning.now }
{
    match meaning {
        Meaning::Variable(_, Kind::Num, _) => Some(Kind::Num),
        Meaning::Variable(_, Kind::Int, _) => Some(Kind::Int),
        _ => None,
    }
}

/// The kind of the variable of numbers that this name means.
pub(crate) fn number_kind(scope: &Scope, name: &Text) -> Option<Kind>
    ensures { result ≡ spec.number_kind (names_in scope.now.catalogue.now scope.now.known.now scope.now.locals.now) name.now }
{
    match meaning(scope, name) {
        Some(meaning) => number_kind_in(&meaning),
        None => None,
    }
}
