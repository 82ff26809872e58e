ghost use Rattle.std.specs.Prelude.{◌≡◌, ◌∷◌, [], ◌↔◌, IsTrue, length, IfOk, OnOk, MatchOption};

use aw_cell::Kind;
use std::alloc::{AllocError, Global};
use std::marker::Model;

/// The kinds of the cells on a stack. Contracts see them as a list, that of the last cell first.
#[derive(Drop)]
pub struct Pile {
    kinds: Vec<Kind>,
}

impl Model for Pile {
    ghost use Rattle.std.specs.Prelude.{List, reverse};
    ghost use Rattle.aw_cell.specs.declared.cell.Kind.{Kind};

    ghost Value = { List Kind };

    ghost view = { λ pile. reverse pile.kinds.items };
}

impl Pile {
    /// No kinds.
    pub fn new(alloc: Global) -> Pile
        ensures { result ≡ [] }
    {
        Pile {
            kinds: Vec::new(alloc),
        }
    }

    /// How many there are.
    pub fn len(&self) -> usize
        ensures { result ≡ length self.now }
    {
        self.kinds.len()
    }

    /// Puts a kind on.
    pub fn push(&mut self, kind: Kind) -> Result<(), AllocError>
        ensures { OnOk result (self.new ≡ kind ∷ self.old) }
    {
        self.kinds.push(kind)?;
        Ok(())
    }

    /// Takes the last kind off.
    pub fn pop(&mut self) -> Option<Kind>
        ensures { MatchOption result (self.old ≡ []) (λ kind. self.old ≡ kind ∷ self.new) }
    {
        self.kinds.pop()
    }

    /// The same kinds.
    pub fn copied(&self, alloc: Global) -> Result<Pile, AllocError>
        ensures { IfOk result (λ pile. pile ≡ self.now) }
    {
        let kinds = Vec::from_slice(alloc, self.kinds.as_slice())?;
        Ok(Pile { kinds })
    }

    /// Whether two have the same kinds.
    pub fn is_same(&self, other: &Pile) -> bool
        ensures { IsTrue result ↔ (self.now ≡ other.now) }
    {
        self.kinds.as_slice() == other.kinds.as_slice()
    }
}
