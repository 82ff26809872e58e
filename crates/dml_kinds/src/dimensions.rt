ghost use Rattle.std.specs.Prelude.{◌≡◌, ◌++◌, ◌∷◌, [], map, filter, not, IfOk, OnOk};
ghost use Rattle.std.specs.List.{list_all, flat_map};
ghost use Rattle.dml_kinds.specs.Meanings as spec;
ghost use Rattle.dml_kinds.specs.FreeDimensions as free;
ghost use Rattle.dml_kinds.specs.inside.Parts.{up_to_six, dimensions_of_targets};

use crate::meaning::Meaning;
use crate::scope::Scope;
use aw_cell::Text;
use aw_lists::Coord;
use dml_tree::{Fix, Target};
use std::alloc::{AllocError, Global};

fn no_dimension() -> Coord
    ensures { result ≡ [] }
{
    Coord::of(&[]).unwrap()
}

pub(crate) fn one_dimension(dimension: u16) -> Coord
    ensures { result ≡ dimension ∷ [] }
{
    Coord::of(&[dimension]).unwrap()
}

impl Meaning {
    /// The dimensions over which it lies, in order.
    pub fn dimensions(&self) -> Coord
        ensures { result ≡ spec.dimensions_in self.now }
    {
        match self {
            Meaning::Dimension(object) => one_dimension(*object),
            Meaning::Relation(_, _, base) => one_dimension(*base),
            Meaning::Variable(_, _, dimensions) | Meaning::Formula(_, _, dimensions, _) => {
                *dimensions
            }
            _ => no_dimension(),
        }
    }
}

impl<'a> Scope<'a> {
    /// The dimensions over which a name lies, in order.
    pub fn dimensions(&self, name: &Text) -> Coord
        ensures { result ≡ spec.dimensions_named (spec.names_in self.now.catalogue.now self.now.known.now self.now.locals.now) name.now }
    {
        match self.known(name) {
            Some(known) => known.meaning.dimensions(),
            None => no_dimension(),
        }
    }

    /// The dimension that a name means.
    pub(crate) fn dimension(&self, name: &Text) -> Option<u16>
        ensures { result ≡ spec.dimension_named (spec.names_in self.now.catalogue.now self.now.known.now self.now.locals.now) name.now }
    {
        match self.known(name) {
            Some(known) => known.meaning.dimension(),
            None => None,
        }
    }

    /// Whether a value is fixed in this dimension.
    fn fixes(&self, fix: &Fix, dimension: u16) -> bool
        ensures { result ≡ free.is_some_dimension dimension (spec.dimension_named (spec.names_in self.now.catalogue.now self.now.known.now self.now.locals.now) fix.now.dimension) }
    {
        match self.dimension(&fix.dimension) {
            Some(other) => other == dimension,
            None => false,
        }
    }

    /// Whether one of these values is fixed in this dimension.
    fn is_fixed(&self, fixes: &[Fix], dimension: u16) -> bool
        ensures { result ≡ free.is_fixed (spec.names_in self.now.catalogue.now self.now.known.now self.now.locals.now) fixes.now dimension }
    {
        fixes.iter().any(|fix| self.fixes(fix, dimension))
    }

    /// Adds the dimensions of a name, without the fixed ones.
    pub fn push_dimensions(&self, target: &Target, into: &mut Vec<u16>) -> Result<(), AllocError>
        ensures { OnOk result (into.new.items ≡ into.old.items ++ free.target_dimensions (spec.names_in self.now.catalogue.now self.now.known.now self.now.locals.now) target.now) }
    {
        let dimensions = self.dimensions(&target.name);
        for dimension in dimensions.slots() {
            if !self.is_fixed(target.fixes.as_slice(), *dimension) {
                into.push(*dimension)?;
            }
        }
        Ok(())
    }

    /// The dimensions of all these names, without the fixed ones.
    fn dimensions_of_all(&self, alloc: Global, targets: &[&Target]) -> Result<Vec<u16>, AllocError>
        ensures { IfOk result (λ all. all.items ≡ flat_map (free.target_dimensions (spec.names_in self.now.catalogue.now self.now.known.now self.now.locals.now)) (map (λ target. target.now) targets.now)) }
    {
        let mut all = Vec::new(alloc);
        for target in targets {
            self.push_dimensions(target, &mut all)?;
        }
        Ok(all)
    }

    /// Whether a value is fixed in one of these dimensions.
    fn fixes_one(&self, fix: &Fix, dimensions: &Coord) -> bool
        ensures { result ≡ free.is_some_among dimensions.now (spec.dimension_named (spec.names_in self.now.catalogue.now self.now.known.now self.now.locals.now) fix.now.dimension) }
    {
        match self.dimension(&fix.dimension) {
            Some(dimension) => is_among(dimensions.slots(), dimension),
            None => false,
        }
    }

    /// Whether each value is fixed in a dimension that the name has.
    pub fn fixes_fit(&self, target: &Target) -> bool
        ensures { result ≡ free.fixes_fit (spec.names_in self.now.catalogue.now self.now.known.now self.now.locals.now) target.now }
    {
        let dimensions = self.dimensions(&target.name);
        target
            .fixes
            .as_slice()
            .iter()
            .all(|fix| self.fixes_one(fix, &dimensions))
    }

    /// The same of each of these names.
    fn all_fixes_fit(&self, targets: &[&Target]) -> bool
        ensures { result ≡ list_all (free.fixes_fit (spec.names_in self.now.catalogue.now self.now.known.now self.now.locals.now)) (map (λ target. target.now) targets.now) }
    {
        for target in targets {
            if !self.fixes_fit(target) {
                return false;
            }
        }
        true
    }
}

/// Whether a dimension is one of these.
pub fn is_among(dimensions: &[u16], dimension: u16) -> bool
    ensures { result ≡ free.is_among dimensions.now dimension }
{
    dimensions.iter().any(|other| *other == dimension)
}

/// Dimensions in order of first appearance, or `None` where they are more than six.
fn first_appearances(alloc: Global, all: &[u16]) -> Result<Option<Coord>, AllocError>
    ensures { IfOk result (λ found. found ≡ up_to_six (free.first_appearances all.now)) }
{
    let mut found = Vec::new(alloc);
    for dimension in all {
        if !is_among(&found, *dimension) {
            if found.len() == 6 {
                return Ok(None);
            }
            found.push(*dimension)?;
        }
    }
    Ok(Coord::of(&found))
}

/// The free dimensions of these names, in order of first appearance, or `None` where a value is
/// fixed in a dimension that its name lacks, or they are more than six.
pub(crate) fn free_dimensions(
    scope: &Scope,
    alloc: Global,
    targets: &[&Target],
) -> Result<Option<Coord>, AllocError>
    ensures { IfOk result (λ found. found ≡ dimensions_of_targets (spec.names_in scope.now.catalogue.now scope.now.known.now scope.now.locals.now) (map (λ target. target.now) targets.now)) }
{
    if !scope.all_fixes_fit(targets) {
        return Ok(None);
    }
    let all = scope.dimensions_of_all(alloc, targets)?;
    first_appearances(alloc, &all)
}
