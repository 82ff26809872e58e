ghost use Rattle.std.specs.Prelude.{◌≡◌, [], OnOk, OnErr};
ghost use Rattle.std.specs.Option.{option_copied};
ghost use Rattle.std.specs.Ordering.{nat_cmp};
ghost use Rattle.std.specs.BTreeMap.{insert_entry};
ghost use Rattle.dml_kinds.specs.Signatures.{signature_of};

use aw_cell::{Kind, Operator};
use aw_lists::{Coord, List};
use std::alloc::{AllocError, Global};
use std::collections::BTreeMap;
use std::marker::Model;

/// What the text of a formula, a program or an aggmap means to those who name it (docs/LANGUAGE.md,
/// "Types").
#[derive(Debug, Drop)]
pub enum Signature {
    /// A formula: the kind of its expression, its free dimensions in order of first appearance, and
    /// its weight.
    Formula {
        kind: Kind,
        dimensions: Coord,
        weight: u32,
    },
    /// A program: the kinds of its arguments, in order.
    Program {
        arguments: List<Kind>,
    },
    /// An aggmap: the dimension and the operator of each of its lines, in order.
    Map {
        lines: List<(u16, Operator)>,
    },
}

/// The signatures of the formulas, programs and aggmaps of a catalogue, by their numbers. Contracts
/// see them as a list in order of the numbers.
#[derive(Drop)]
pub struct Signatures {
    told: BTreeMap<u16, Signature>,
}

impl Model for Signatures {
    ghost use Rattle.std.specs.Prelude.{List as Items, ℕ};
    ghost use Rattle.dml_kinds.specs.declared.signature.Signature.{Signature as Told};

    ghost Value = { Items (ℕ × Told) };

    ghost view = { λ signatures. signatures.told.entries };
}

impl Signatures {
    /// No signatures. It takes no memory.
    pub fn new(alloc: Global) -> Signatures
        ensures { result ≡ [] }
    {
        Signatures {
            told: BTreeMap::new(alloc),
        }
    }

    /// Notes the signature of an object, in place of an earlier one. Want of memory leaves the
    /// signatures as they were.
    pub fn note(&mut self, object: u16, signature: Signature) -> Result<(), AllocError>
        ensures ok { OnOk result (self.new ≡ insert_entry nat_cmp self.old object signature) }
        ensures err { OnErr result (self.new ≡ self.old) }
    {
        self.told.insert(object, signature)?;
        Ok(())
    }

    /// The signature of an object, or `None` where none was noted.
    pub fn get(&self, object: u16) -> Option<&Signature>
        ensures { option_copied result ≡ signature_of self.now object }
    {
        self.told.get(&object)
    }
}
