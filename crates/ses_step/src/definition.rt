ghost use Rattle.std.specs.Prelude.{◌≡◌};
ghost use Rattle.ses_step.specs.Kept.{kept_kind};

use aw_cell::{Kind, Text};
use aw_lists::List;
use dml_tree::Defined;

/// What a line defines, other objects by their names as they were written, which may be undefined
/// (docs/LANGUAGE.md, "Definitions").
#[derive(PartialEq, Eq, Drop)]
pub enum NamedKind {
    /// `DIMENSION TEXT`
    Dimension,
    /// `RELATION target <base>`
    Relation { target: Text, base: Text },
    /// `VALUESET dimension`
    Valueset { dimension: Text },
    /// `VARIABLE kind <dimensions>`, of any number of dimensions.
    Variable { kind: Kind, dimensions: List<Text> },
}

/// The definition of a line: a name and what it is to be, both as they were written.
#[derive(PartialEq, Eq, Drop)]
pub struct Definition {
    /// The name of the new object.
    pub name: Text,
    /// What kind of object it is.
    pub kind: NamedKind,
}

/// What the kinds of objects that can be defined so far are, or `None` for a formula, a program or an
/// aggmap.
pub fn kept_kind(what: Defined) -> Option<NamedKind>
    ensures { result ≡ kept_kind what }
{
    match what {
        Defined::Dimension => Some(NamedKind::Dimension),
        Defined::Relation(target, base) => Some(NamedKind::Relation { target, base }),
        Defined::ValueSet(dimension) => Some(NamedKind::Valueset { dimension }),
        Defined::Variable(kind, dimensions) => Some(NamedKind::Variable { kind, dimensions }),
        Defined::Formula(..) | Defined::Program(_) | Defined::AggMap(_) => None,
    }
}
