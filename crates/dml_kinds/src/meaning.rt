ghost use Rattle.std.specs.Prelude.{◌≡◌};
ghost use Rattle.dml_kinds.specs.Meanings as spec;

use aw_cell::{Kind, Text};
use aw_lists::Coord;

/// What a name means (docs/LANGUAGE.md, "Types"). Objects go by their numbers.
#[derive(Clone, Copy, Debug)]
pub enum Meaning {
    /// A local of the program, with its place among the locals and its kind.
    Local(usize, Kind),
    /// A dimension.
    Dimension(u16),
    /// A relation, with its target and its base.
    Relation(u16, u16, u16),
    /// A valueset, with its dimension.
    Valueset(u16, u16),
    /// A variable, with its kind and its dimensions.
    Variable(u16, Kind, Coord),
    /// A formula, with the kind, the free dimensions and the weight of its expression.
    Formula(u16, Kind, Coord, u32),
    /// A program.
    Program(u16),
    /// An aggmap by which AGGREGATE goes: each of its lines has SUM, MIN or MAX.
    Aggregation(u16),
    /// An aggmap by which ALLOCATE goes: it has one line with another operator.
    Allocation(u16),
    /// An aggmap by which neither of them goes.
    Unfit(u16),
}

/// A known name, as it was defined, and what it means.
#[derive(Clone, Copy, Debug)]
pub struct Known {
    pub name: Text,
    pub meaning: Meaning,
}

/// What a name is to mean where it stands (docs/LANGUAGE.md, "Types").
#[derive(Clone, Copy, Debug)]
pub enum Role {
    /// A value.
    Value,
    /// A value that is taken at fixed values.
    Taken,
    /// A dimension.
    Dimension,
    /// What is assigned to.
    Assigned,
    /// What is assigned to at fixed values.
    AssignedAt,
    /// An object that has generations.
    Kept,
    /// A dimension or a valueset.
    Limited,
    /// A relation.
    Relation,
    /// A program.
    Program,
    /// An aggmap for AGGREGATE.
    Aggregation,
    /// An aggmap for ALLOCATE.
    Allocation,
    /// Anything.
    Any,
}

/// A name as written, and what it is to mean.
#[derive(Clone, Copy, Debug)]
pub struct Use {
    pub name: Text,
    pub role: Role,
}

impl Meaning {
    /// Whether it is a value.
    fn is_value(&self) -> bool
        ensures { result ≡ spec.is_value self.now }
    {
        matches!(
            self,
            Meaning::Local(..)
                | Meaning::Dimension(_)
                | Meaning::Relation(..)
                | Meaning::Variable(..)
                | Meaning::Formula(..)
        )
    }

    /// Whether it is a value that can be taken at fixed values.
    fn can_be_taken(&self) -> bool
        ensures { result ≡ spec.can_be_taken self.now }
    {
        matches!(
            self,
            Meaning::Relation(..) | Meaning::Variable(..) | Meaning::Formula(..)
        )
    }

    /// Whether it can be assigned to at fixed values.
    fn can_be_assigned_at(&self) -> bool
        ensures { result ≡ spec.can_be_assigned_at self.now }
    {
        matches!(self, Meaning::Relation(..) | Meaning::Variable(..))
    }

    /// Whether it can be assigned to.
    fn can_be_assigned(&self) -> bool
        ensures { result ≡ spec.can_be_assigned self.now }
    {
        matches!(
            self,
            Meaning::Local(..) | Meaning::Relation(..) | Meaning::Variable(..)
        )
    }

    /// Whether it has generations.
    fn is_kept(&self) -> bool
        ensures { result ≡ spec.is_kept self.now }
    {
        matches!(
            self,
            Meaning::Dimension(_)
                | Meaning::Relation(..)
                | Meaning::Valueset(..)
                | Meaning::Variable(..)
        )
    }

    /// Whether it may stand in a role.
    pub fn fits(&self, role: Role) -> bool
        ensures { result ≡ spec.fits role self.now }
    {
        match role {
            Role::Value => self.is_value(),
            Role::Taken => self.can_be_taken(),
            Role::Dimension => matches!(self, Meaning::Dimension(_)),
            Role::Assigned => self.can_be_assigned(),
            Role::AssignedAt => self.can_be_assigned_at(),
            Role::Kept => self.is_kept(),
            Role::Limited => matches!(self, Meaning::Dimension(_) | Meaning::Valueset(..)),
            Role::Relation => matches!(self, Meaning::Relation(..)),
            Role::Program => matches!(self, Meaning::Program(_)),
            Role::Aggregation => matches!(self, Meaning::Aggregation(_)),
            Role::Allocation => matches!(self, Meaning::Allocation(_)),
            Role::Any => true,
        }
    }

    /// The number of the object, or `None` for a local.
    pub fn object(&self) -> Option<u16>
        ensures { result ≡ spec.object_in self.now }
    {
        match self {
            Meaning::Local(..) => None,
            Meaning::Dimension(object)
            | Meaning::Relation(object, _, _)
            | Meaning::Valueset(object, _)
            | Meaning::Variable(object, _, _)
            | Meaning::Formula(object, _, _, _)
            | Meaning::Program(object)
            | Meaning::Aggregation(object)
            | Meaning::Allocation(object)
            | Meaning::Unfit(object) => Some(*object),
        }
    }

    /// The number of the dimension that it is, or `None` where it is none.
    pub fn dimension(&self) -> Option<u16>
        ensures { result ≡ spec.dimension_in self.now }
    {
        match self {
            Meaning::Dimension(object) => Some(*object),
            _ => None,
        }
    }

    /// The kind of its value, which is TEXT for a dimension and a relation.
    pub fn kind(&self) -> Option<Kind>
        ensures { result ≡ spec.kind_in self.now }
    {
        match self {
            Meaning::Local(_, kind)
            | Meaning::Variable(_, kind, _)
            | Meaning::Formula(_, kind, _, _) => Some(*kind),
            Meaning::Dimension(_) | Meaning::Relation(..) => Some(Kind::Text),
            _ => None,
        }
    }

    /// What its name counts in an expression.
    pub fn weight(&self) -> u32
        ensures { result ≡ spec.weight_in self.now }
    {
        match self {
            Meaning::Formula(_, _, _, weight) => *weight,
            _ => 1,
        }
    }
}
