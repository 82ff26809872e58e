ghost use Rattle.std.specs.Prelude.{◌≡◌, ◌↔◌, IsTrue, IsSome, IfOk};
ghost use Rattle.aw_schema.specs.Definitions.{is_kept};

use aw_cell::Kind;
use aw_dim::Dimension;
use aw_lists::List;
use aw_schema::{Def, DefKind};
use aw_var::Variable;
use std::alloc::{AllocError, Global};

/// What an object that is kept holds (docs/SHARING.md, "Bodies and patches").
#[derive(Drop)]
pub enum Body {
    /// The values of a dimension.
    Dim(Dimension),
    /// The cells of a relation: for each slot of its base a slot of its target, or NA.
    Rel(Variable),
    /// The slots of a valueset, in order.
    Set(List<u16>),
    /// The cells of a variable.
    Var(Variable),
}

impl Body {
    ghost use Rattle.aw_body.specs.Bodies.{first_body};

    /// The first body of an object: no values, no slots, or all cells NA. `None` where the definition
    /// is of an object that isn't kept. It takes no memory, and the body keeps the allocator.
    pub fn empty(alloc: Global, def: &Def) -> Option<Body>
        ensures body { result ≡ first_body def.now.kind }
        ensures some { IsSome result ↔ IsTrue (is_kept def.now.kind) }
    {
        match &def.kind {
            DefKind::Dimension => Some(Body::Dim(Dimension::new(alloc))),
            DefKind::Relation { .. } => Some(Body::Rel(Variable::new(alloc, 1, Kind::Slot))),
            DefKind::Valueset { .. } => Some(Body::Set(List::new(alloc))),
            DefKind::Variable { kind, dimensions } => {
                let slots = dimensions.slots().len() as u8;
                Some(Body::Var(Variable::new(alloc, slots, *kind)))
            }
            DefKind::Formula { .. } | DefKind::Program { .. } | DefKind::Aggmap { .. } => None,
        }
    }

    /// An equal body. The only error is want of memory.
    pub fn copied(&self, alloc: Global) -> Result<Body, AllocError>
        ensures { IfOk result (λ copy. copy ≡ self.now) }
    {
        match self {
            Body::Dim(values) => Ok(Body::Dim(values.copied()?)),
            Body::Rel(cells) => Ok(Body::Rel(cells.copied()?)),
            Body::Set(slots) => Ok(Body::Set(List::from_slice(alloc, slots.as_slice())?)),
            Body::Var(cells) => Ok(Body::Var(cells.copied()?)),
        }
    }
}
