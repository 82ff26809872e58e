//! Objects with their first generations.

ghost use Rattle.std.specs.Prelude.{◌≡◌, ◌≤◌, length, map, IfOk};
ghost use Rattle.aw_body.specs.KeptBodies.{bodies_of};
ghost use Rattle.mv_core.specs.Objects.{AreObjectsOf};
ghost use Rattle.mv_core.specs.Workspace.{standing, opened};
ghost use Rattle.mv_core.specs.inside.Opening.{first_object_of};

use crate::object::Object;
use aw_body::Body;
use aw_lists::List;
use aw_schema::{Catalogue, Def, DefKind};
use std::alloc::{AllocError, Global};

/// The definitions of a catalogue.
pub fn definitions_of(alloc: Global, catalogue: &Catalogue) -> Result<Vec<Def>, AllocError>
    ensures value { IfOk result (λ definitions. definitions.items ≡ catalogue.now) }
    ensures most { IfOk result (λ definitions. length definitions.items ≤ 4096) }
{
    let len = catalogue.len();
    let mut definitions = Vec::with_capacity(alloc, len as usize)?;
    for at in 0..len {
        if let Some(def) = catalogue.def(at as u16) {
            definitions.push(copied(alloc, def)?)?;
        }
    }
    Ok(definitions)
}

fn copied(alloc: Global, def: &Def) -> Result<Def, AllocError>
    ensures { IfOk result (λ copy. copy ≡ def.now) }
{
    Ok(Def {
        name: def.name,
        kind: copied_kind(alloc, &def.kind)?,
    })
}

fn copied_kind(alloc: Global, kind: &DefKind) -> Result<DefKind, AllocError>
    ensures { IfOk result (λ copy. copy ≡ kind.now) }
{
    match kind {
        DefKind::Dimension => Ok(DefKind::Dimension),
        DefKind::Relation { target, base } => Ok(DefKind::Relation {
            target: *target,
            base: *base,
        }),
        DefKind::Valueset { dimension } => Ok(DefKind::Valueset {
            dimension: *dimension,
        }),
        DefKind::Variable { kind, dimensions } => Ok(DefKind::Variable {
            kind: *kind,
            dimensions: *dimensions,
        }),
        DefKind::Formula { text } => Ok(DefKind::Formula {
            text: List::from_slice(alloc, text.as_slice())?,
        }),
        DefKind::Program { text } => Ok(DefKind::Program {
            text: List::from_slice(alloc, text.as_slice())?,
        }),
        DefKind::Aggmap { text } => Ok(DefKind::Aggmap {
            text: List::from_slice(alloc, text.as_slice())?,
        }),
    }
}

/// For each definition the object with its first generation and no owner, where it is kept.
pub fn first_objects(
    alloc: Global,
    definitions: &[Def],
) -> Result<Vec<Option<Object<Body>>>, AllocError>
    ensures value { IfOk result (λ objects. objects.items ≡ standing (bodies_of definitions.now) (opened definitions.now)) }
    ensures forms { IfOk result (λ objects. AreObjectsOf definitions.now objects.items) }
{
    let objects = each_first(alloc, definitions)?;
    Ok(objects)
}

fn each_first(alloc: Global, definitions: &[Def]) -> Result<Vec<Option<Object<Body>>>, AllocError>
    ensures { IfOk result (λ objects. objects.items ≡ map first_object_of definitions.now) }
{
    definitions
        .iter()
        .map(|def| first_object(alloc, def))
        .collect(alloc)
}

fn first_object(alloc: Global, def: &Def) -> Option<Object<Body>>
    ensures { result ≡ first_object_of def.now }
{
    match Body::empty(alloc, def) {
        Some(body) => Some(Object {
            number: 1,
            body,
            owner: None,
        }),
        None => None,
    }
}
