ghost use Rattle.std.specs.Prelude.{◌≡◌, ◌++◌, ◌∷◌, map, IfOk, OnOk};
ghost use Rattle.dml_kinds.specs.Meanings.{names_in};
ghost use Rattle.dml_kinds.specs.Names as spec;

use crate::dimensions::is_among;
use crate::fault::TypeFault;
use crate::gathering::fixed_names;
use crate::meaning::Use;
use crate::scope::Scope;
use aw_cell::Text;
use dml_tree::Target;
use std::alloc::{AllocError, Global};

impl<'a> Scope<'a> {
    /// A name of which nothing is known, as written.
    fn unknown(&self, needed: &Use) -> Option<Text>
        ensures { result ≡ spec.unknown (names_in self.now.catalogue.now self.now.known.now self.now.locals.now) needed.now }
    {
        match self.known(&needed.name) {
            Some(_) => None,
            None => Some(needed.name),
        }
    }

    /// The first name of which nothing is known.
    fn first_unknown(&self, uses: &[Use]) -> Option<Text>
        ensures { result ≡ spec.first_of (spec.unknown (names_in self.now.catalogue.now self.now.known.now self.now.locals.now)) uses.now }
    {
        for needed in uses {
            if let Some(name) = self.unknown(needed) {
                return Some(name);
            }
        }
        None
    }

    /// A name that means something of another kind, as defined.
    fn wrong_kind(&self, needed: &Use) -> Option<Text>
        ensures { result ≡ spec.wrong_kind (names_in self.now.catalogue.now self.now.known.now self.now.locals.now) needed.now }
    {
        match self.known(&needed.name) {
            Some(known) => {
                if known.meaning.fits(needed.role) {
                    None
                } else {
                    Some(known.name)
                }
            }
            None => None,
        }
    }

    /// The first name of a wrong kind.
    fn first_wrong_kind(&self, uses: &[Use]) -> Option<Text>
        ensures { result ≡ spec.first_of (spec.wrong_kind (names_in self.now.catalogue.now self.now.known.now self.now.locals.now)) uses.now }
    {
        for needed in uses {
            if let Some(name) = self.wrong_kind(needed) {
                return Some(name);
            }
        }
        None
    }

    /// The object that a name means: its name as defined, and its number.
    pub fn named_object(&self, name: &Text) -> Option<(Text, u16)>
        ensures { result ≡ spec.named_object (names_in self.now.catalogue.now self.now.known.now self.now.locals.now) name.now }
    {
        match self.known(name) {
            Some(known) => match known.meaning.object() {
                Some(object) => Some((known.name, object)),
                None => None,
            },
            None => None,
        }
    }

    /// The name as defined, where one of these numbers is that of its object.
    fn repeats(&self, before: &[u16], name: &Text) -> Option<Text>
        ensures { result ≡ spec.repeats (names_in self.now.catalogue.now self.now.known.now self.now.locals.now) before.now name.now }
    {
        match self.named_object(name) {
            Some(object) => {
                if is_among(before, object.1) {
                    Some(object.0)
                } else {
                    None
                }
            }
            None => None,
        }
    }

    /// Adds the number of the object that a name means.
    fn push_number(&self, name: &Text, into: &mut Vec<u16>) -> Result<(), AllocError>
        ensures { OnOk result (into.new.items ≡ into.old.items ++ spec.numbers (names_in self.now.catalogue.now self.now.known.now self.now.locals.now) name.now) }
    {
        match self.named_object(name) {
            Some(object) => {
                into.push(object.1)?;
                Ok(())
            }
            None => Ok(()),
        }
    }

    /// The first of these names that stands twice, as defined.
    fn repeated(&self, alloc: Global, names: &[Text]) -> Result<Option<Text>, AllocError>
        ensures { IfOk result (λ name. name ≡ spec.repeated (names_in self.now.catalogue.now self.now.known.now self.now.locals.now) names.now) }
    {
        let mut before = Vec::new(alloc);
        for name in names {
            if let Some(defined) = self.repeats(&before, name) {
                return Ok(Some(defined));
            }
            self.push_number(name, &mut before)?;
        }
        Ok(None)
    }

    /// The first dimension that one of these names fixes twice, as defined.
    fn fixed_twice(&self, alloc: Global, targets: &[&Target]) -> Result<Option<Text>, AllocError>
        ensures { IfOk result (λ name. name ≡ spec.first_of (spec.repeated (names_in self.now.catalogue.now self.now.known.now self.now.locals.now)) (spec.groups (map (λ target. target.now) targets.now))) }
    {
        for target in targets {
            let names = fixed_names(alloc, target.fixes.as_slice())?;
            if let Some(name) = self.repeated(alloc, &names)? {
                return Ok(Some(name));
            }
        }
        Ok(None)
    }

    /// The first refusal of names: of all that are used the first that is unknown, else the first of
    /// a wrong kind; else the first of `group` that stands twice in it, or the first dimension that a
    /// target fixes twice.
    pub fn names_refusal(
        &self,
        alloc: Global,
        uses: &[Use],
        group: &[Text],
        targets: &[&Target],
    ) -> Result<Option<TypeFault>, AllocError>
        ensures { IfOk result (λ refusal. refusal ≡ spec.names_refusal (names_in self.now.catalogue.now self.now.known.now self.now.locals.now) uses.now (group.now ∷ spec.groups (map (λ target. target.now) targets.now))) }
    {
        if let Some(name) = self.first_unknown(uses) {
            return Ok(Some(TypeFault::Unknown(name)));
        }
        if let Some(name) = self.first_wrong_kind(uses) {
            return Ok(Some(TypeFault::WrongKind(name)));
        }
        if let Some(name) = self.repeated(alloc, group)? {
            return Ok(Some(TypeFault::Repeat(name)));
        }
        match self.fixed_twice(alloc, targets)? {
            Some(name) => Ok(Some(TypeFault::Repeat(name))),
            None => Ok(None),
        }
    }
}
