//! The places of a view, as it is attached.

ghost use Rattle.std.specs.Prelude.{◌≡◌, length, replicate, slice_get, slice_set, IfOk, IfSome, IsTrue};
ghost use Rattle.aw_schema.specs.Definitions.{is_kept};
ghost use Rattle.aw_body.specs.Bodies.{IsBody};
ghost use Rattle.mv_view.specs.ViewState.{AreSeen, HaveForms, HasForm, kept_kinds};
ghost use Rattle.mv_view.specs.Rules.{seen, seen_from};

use crate::kept::{Kept, look_at};
use aw_body::Fresh;
use aw_lists::List;
use aw_schema::{Catalogue, DefKind};
use std::alloc::{AllocError, Global};

/// So many places, all without an object.
pub fn places(alloc: Global, count: usize) -> Result<List<Option<Kept>>, AllocError>
    ensures { IfOk result (λ objects. objects ≡ replicate count None) }
{
    let mut objects = Vec::with_capacity(alloc, count)?;
    for _ in 0..count {
        objects.push(None)?;
    }
    Ok(List::from_vec(objects))
}

/// The definition of an object that is kept.
fn copied(kind: &DefKind) -> DefKind
    requires { IsTrue (is_kept kind.now) }
    ensures { result ≡ kind.now }
{
    match kind {
        DefKind::Dimension => DefKind::Dimension,
        DefKind::Relation { target, base } => DefKind::Relation {
            target: *target,
            base: *base,
        },
        DefKind::Valueset { dimension } => DefKind::Valueset {
            dimension: *dimension,
        },
        DefKind::Variable { kind, dimensions } => DefKind::Variable {
            kind: *kind,
            dimensions: *dimensions,
        },
        DefKind::Formula { .. } | DefKind::Program { .. } | DefKind::Aggmap { .. } => {
            unreachable!()
        }
    }
}

/// Puts each generation that is handed over into its place.
pub fn fill(objects: &mut List<Option<Kept>>, catalogue: &Catalogue, fresh: List<Fresh>)
    requires empty { objects.old ≡ replicate (length catalogue.now) None }
    requires forms { HaveForms (kept_kinds catalogue.now) fresh }
    ensures objects { objects.new ≡ seen_from 0 catalogue.now fresh }
    ensures seen { AreSeen objects.new }
{
    let mut rest = fresh.into_vec();
    while let Some(latest) = rest.pop() {
        put(objects, catalogue, latest);
    }
}

/// Puts a generation into its place.
fn put(objects: &mut List<Option<Kept>>, catalogue: &Catalogue, fresh: Fresh)
    requires size { length objects.old ≡ length catalogue.now }
    requires form { HasForm (kept_kinds catalogue.now) fresh }
    ensures valid { IsBody fresh.body }
    ensures objects { IfSome (slice_get catalogue.now fresh.object) (λ def. objects.new ≡ slice_set objects.old fresh.object (Some (seen def.kind fresh))) }
{
    look_at(&fresh.body);
    let Fresh {
        object,
        number,
        body,
    } = fresh;
    if let Some(def) = catalogue.def(object) {
        *objects.at_mut(usize::from(object)) = Some(Kept::new(copied(&def.kind), number, body));
    }
}
