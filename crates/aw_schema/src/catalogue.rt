ghost use Rattle.std.specs.Prelude.{◌≡◌, ◌≤◌, ◌<◌, ◌++◌, ◌∷◌, [], length, slice_get, find, nat_le, IsTrue, IfOk, IfErr};
ghost use Rattle.std.specs.Option.{option_copied};
ghost use Rattle.aw_schema.specs.Definitions as spec;
ghost use Rattle.aw_schema.specs.Checking as checking;
ghost use Rattle.aw_schema.specs.RecordLength as size;
ghost use Rattle.aw_schema.specs.declared.fault.SchemaFault.TheVariants as fault;

use crate::definition::{Def, DefKind};
use crate::fault::SchemaFault;
use aw_cell::Text;
use indexmap::IndexMap;
use std::alloc::Global;
use std::marker::Model;

/// The definitions that were accepted, in order. An object's number is its place among them, from 0.
/// Contracts see them as a list. See docs/LANGUAGE.md, "Definitions".
#[derive(Drop)]
pub struct Catalogue {
    alloc: Global,
    /// Each definition under its name in lower case.
    defs: IndexMap<Vec<u8>, Def>,
    /// The length of the record of these definitions, in bytes.
    bytes: u64,
}

impl Model for Catalogue {
    ghost use Rattle.std.specs.Prelude.{List as Items};
    ghost use Rattle.aw_schema.specs.declared.definition.Def.{Def as Definition};
    ghost use Rattle.indexmap.specs.IndexMap.{values};
    ghost use Rattle.aw_schema.specs.inside.Indexed.{IsIndexed};

    ghost Value = { Items Definition };

    ghost view = { λ catalogue. values catalogue.defs };

    ghost invariant = { λ catalogue. IsIndexed catalogue.defs catalogue.bytes };
}

impl Catalogue {
    /// The most objects that there may be.
    const MOST: usize = 4_096;

    /// A catalogue without objects. It takes no memory.
    pub fn new(alloc: Global) -> Catalogue
        ensures { result ≡ [] }
    {
        Catalogue {
            alloc,
            defs: IndexMap::new(alloc),
            bytes: 4,
        }
    }

    /// How many objects there are, at most 4,096.
    pub fn len(&self) -> u32
        ensures value { result ≡ length self.now }
        ensures accepted { checking.AreAccepted self.now }
    {
        self.defs.len() as u32
    }

    /// The definition of an object, or `None` where no object has this number.
    pub fn def(&self, object: u16) -> Option<&Def>
        ensures { option_copied result ≡ slice_get self.now object }
    {
        match self.defs.get_index(usize::from(object)) {
            Some((_, def)) => Some(def),
            None => None,
        }
    }

    /// The number of the object that has this name, without regard to case, or `None` where none
    /// has. It takes no memory.
    pub fn find(&self, name: &Text) -> Option<u16>
        ensures { result ≡ spec.object_of self.now name.now }
    {
        let mut buffer = [0; 64];
        let lowered = &mut buffer[..name.bytes().len()];
        lowered.copy_from_slice(name.bytes());
        lowered.make_ascii_lowercase();
        match self.defs.get_index_of(&*lowered) {
            Some(object) => Some(object as u16),
            None => None,
        }
    }

    /// Accepts a definition as the next object and gives its number, or refuses it and leaves the
    /// catalogue as it was. The first of these that applies decides: an object has the name already
    /// (`Repeat`, with the name as defined); there are 4,096 objects (`TooMany`); a number in the
    /// definition is no object (`Unknown`, the first); an object that it names is no dimension
    /// (`WrongKind`, the first); a dimension comes twice in a variable (`Repeat`, the first that has
    /// come before). `NoMemory` may come at any of them. See docs/LANGUAGE.md, "Definitions".
    pub fn check(&mut self, def: Def) -> Result<u16, SchemaFault>
        requires { IsTrue (spec.is_spellable def) }
        ensures answer { checking.IsAnswer result (checking.answer self.old def) }
        ensures after { self.new ≡ checking.catalogue_after self.old def result }
    {
        if let Some(fault) = self.refusal(&def) {
            return Err(fault);
        }
        self.add(def)
    }

    /// The length in bytes of the record that holds these definitions (docs/FORMATS.md, "Records").
    pub fn record_len(&self) -> u64
        ensures { result ≡ size.record_len self.now }
    {
        self.bytes
    }

    /// The first of the refusals that applies to a definition.
    fn refusal(&self, def: &Def) -> Option<SchemaFault>
        ensures { result ≡ checking.refusal self.now def.now }
    {
        if let Some(fault) = self.repeated_name(&def.name) {
            return Some(fault);
        }
        if self.defs.len() >= Self::MOST {
            return Some(SchemaFault::TooMany);
        }
        self.wrong_objects(&def.kind)
    }

    /// The refusal where an object has this name already.
    #[tactic(auto, using(crate::proofs::callers::Finding::repeated_name_found))]
    fn repeated_name(&self, name: &Text) -> Option<SchemaFault>
        ensures { result ≡ checking.repeated_name self.now name.now }
    {
        let there = self.def(self.find(name)?)?;
        Some(SchemaFault::Repeat(there.name))
    }

    /// The first refusal for the objects that a definition names.
    fn wrong_objects(&self, kind: &DefKind) -> Option<SchemaFault>
        ensures { result ≡ checking.wrong_objects self.now kind.now }
    {
        match kind {
            DefKind::Relation { target, base } => self.not_dimensions(&[*target, *base]),
            DefKind::Valueset { dimension } => self.not_dimensions(&[*dimension]),
            DefKind::Variable { dimensions, .. } => {
                match self.not_dimensions(dimensions.slots()) {
                    Some(fault) => Some(fault),
                    None => self.repeated_dimension(dimensions.slots()),
                }
            }
            DefKind::Dimension
            | DefKind::Formula { .. }
            | DefKind::Program { .. }
            | DefKind::Aggmap { .. } => None,
        }
    }

    /// The first refusal where these numbers aren't those of dimensions.
    fn not_dimensions(&self, objects: &[u16]) -> Option<SchemaFault>
        ensures { result ≡ checking.not_dimensions self.now objects.now }
    {
        match self.first_unknown(objects) {
            Some(object) => Some(SchemaFault::Unknown(object)),
            None => self.wrong_kind(objects),
        }
    }

    /// The first of these numbers that is no object.
    fn first_unknown(&self, objects: &[u16]) -> Option<u16>
        ensures { result ≡ find (nat_le (length self.now)) objects.now }
    {
        let len = self.len();
        objects
            .iter()
            .copied()
            .find(|object| u32::from(*object) >= len)
    }

    /// The refusal for the first of these objects that is no dimension.
    fn wrong_kind(&self, objects: &[u16]) -> Option<SchemaFault>
        ensures { result ≡ checking.wrong_kind self.now objects.now }
    {
        for object in objects {
            if let Some(def) = self.def(*object) {
                if !def.kind.is_dimension() {
                    return Some(SchemaFault::WrongKind(def.name));
                }
            }
        }
        None
    }

    /// The refusal for the first of these dimensions that has come before.
    fn repeated_dimension(&self, dimensions: &[u16]) -> Option<SchemaFault>
        ensures { result ≡ checking.repeated_dimension self.now dimensions.now }
    {
        let repeated = self.def(first_repeated(dimensions)?)?;
        Some(SchemaFault::Repeat(repeated.name))
    }

    /// Adds a definition that isn't refused. Want of memory leaves the catalogue as it was.
    fn add(&mut self, def: Def) -> Result<u16, SchemaFault>
        requires spellable { IsTrue (spec.is_spellable def) }
        requires accepted { checking.refusal self.old def ≡ None }
        requires room { length self.old < 4096 }
        ensures ok { IfOk result (λ object. (object ≡ length self.old) × (self.new ≡ self.old ++ def ∷ [])) }
        ensures err { IfErr result (λ e. (e ≡ fault.NoMemory) × (self.new ≡ self.old)) }
    {
        let object = self.len() as u16;
        let bytes = self.bytes + definition_len(&def);
        let name = def.name.bytes().to_ascii_lowercase(self.alloc)?;
        self.defs.insert(name, def)?;
        self.bytes = bytes;
        Ok(object)
    }
}

/// The first of these numbers that has come before.
fn first_repeated(objects: &[u16]) -> Option<u16>
    ensures { result ≡ checking.first_repeated [] objects.now }
{
    for (at, object) in objects.iter().enumerate() {
        if objects[..at].contains(object) {
            return Some(*object);
        }
    }
    None
}

/// The length in bytes of a definition in a record.
fn definition_len(def: &Def) -> u64
    requires { IsTrue (spec.has_form def.now.kind) }
    ensures value { result ≡ size.definition_len def.now }
    ensures below { result ≤ 8589934592 }
{
    2 + def.name.bytes().len() as u64 + fields_len(&def.kind)
}

/// The length in bytes of what a record holds of a definition behind its kind.
fn fields_len(kind: &DefKind) -> u64
    requires { IsTrue (spec.has_form kind.now) }
    ensures value { result ≡ size.fields_len kind.now }
    ensures below { result ≤ 4294967300 }
{
    match kind {
        DefKind::Dimension => 0,
        DefKind::Relation { .. } => 4,
        DefKind::Valueset { .. } => 2,
        DefKind::Variable { dimensions, .. } => 2 + 2 * dimensions.slots().len() as u64,
        DefKind::Formula { text } | DefKind::Program { text } | DefKind::Aggmap { text } => {
            4 + text.len() as u64
        }
    }
}
