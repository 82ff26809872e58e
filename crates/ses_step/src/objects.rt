//! What the definitions say of an object.

ghost use Rattle.std.specs.Prelude.{◌≡◌, [], is_some};
ghost use Rattle.aw_schema.specs.Definitions.{is_kept};
ghost use Rattle.mv_view.specs.ViewState.{kinds_of, kept_kinds, object_of};
ghost use Rattle.ses_step.specs.Sessions as spec;

use aw_cell::Text;
use aw_schema::{Catalogue, DefKind};
use mv_view::View;

fn no_name() -> Text
    ensures { result ≡ [] }
{
    Text::of(b"").unwrap()
}

/// The name at a place of a list, from 0, and the empty text past its end.
pub fn name_at(names: &[Text], at: usize) -> Text
    ensures { result ≡ spec.name_at names.now at }
{
    match names.get(at) {
        Some(name) => *name,
        None => no_name(),
    }
}

/// The name of an object, and the empty text past the last.
pub fn name_of(catalogue: &Catalogue, object: u16) -> Text
    ensures { result ≡ spec.name_of catalogue.now object }
{
    match catalogue.def(object) {
        Some(def) => def.name,
        None => no_name(),
    }
}

/// Whether an object with this definition is kept.
fn is_kept(kind: &DefKind) -> bool
    ensures { result ≡ is_kept kind.now }
{
    match kind {
        DefKind::Dimension
        | DefKind::Relation { .. }
        | DefKind::Valueset { .. }
        | DefKind::Variable { .. } => true,
        DefKind::Formula { .. } | DefKind::Program { .. } | DefKind::Aggmap { .. } => false,
    }
}

/// Whether a view of these definitions has an object.
pub fn is_seen(catalogue: &Catalogue, view: &View, object: u16) -> bool
    requires { kinds_of view.now ≡ kept_kinds catalogue.now }
    ensures { result ≡ is_some (object_of view.now object) }
{
    match catalogue.def(object) {
        Some(def) => is_kept(&def.kind),
        None => false,
    }
}
