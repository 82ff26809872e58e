ghost use Rattle.std.specs.Prelude.{◌≡◌, ◌∷◌, [], IfOk};
ghost use Rattle.dml_compile.specs.Objects as spec;

use aw_cell::Kind;
use aw_lists::{Coord, List};
use aw_schema::{Catalogue, DefKind};
use dml_exec::ObjectKind;
use std::alloc::{AllocError, Global};

fn one_dimension(dimension: u16) -> Coord
    ensures { result ≡ dimension ∷ [] }
{
    Coord::of(&[dimension]).unwrap()
}

/// What code can do with an object that is defined so.
fn object_kind(kind: &DefKind) -> ObjectKind
    ensures { result ≡ spec.object_kind kind.now }
{
    match kind {
        DefKind::Dimension => ObjectKind::Dimension,
        DefKind::Relation { base, .. } => ObjectKind::Cells {
            kind: Kind::Slot,
            dimensions: one_dimension(*base),
        },
        DefKind::Variable { kind, dimensions } => ObjectKind::Cells {
            kind: *kind,
            dimensions: *dimensions,
        },
        DefKind::Valueset { .. }
        | DefKind::Formula { .. }
        | DefKind::Program { .. }
        | DefKind::Aggmap { .. } => ObjectKind::Other,
    }
}

/// What code can do with the objects of a catalogue.
pub fn object_kinds(alloc: Global, catalogue: &Catalogue) -> Result<Vec<ObjectKind>, AllocError>
    ensures { IfOk result (λ kinds. kinds.items ≡ spec.object_kinds catalogue.now) }
{
    let mut kinds = Vec::new(alloc);
    for object in 0..catalogue.len() as u16 {
        let Some(def) = catalogue.def(object) else {
            unreachable!();
        };
        kinds.push(object_kind(&def.kind))?;
    }
    Ok(kinds)
}
