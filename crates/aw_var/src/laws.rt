//! What holds of patches.

ghost use Rattle.aw_var.specs.Laws.{DifferenceGivesNewer, DifferenceTellsApart, ComposedDoesBoth, OverwrittenIsMap};

/// The difference of two maps makes the newer one of the older (docs/SHARING.md, "Patches").
pub fn difference_gives_newer()
    ensures { DifferenceGivesNewer }
{}

/// A difference has exactly the keys at which the maps differ, and is nothing exactly where they are
/// equal (docs/SHARING.md, "Patches").
pub fn difference_tells_apart()
    ensures { DifferenceTellsApart }
{}

/// What is composed does what both do (docs/SHARING.md, "Patches").
pub fn composed_does_both()
    ensures { ComposedDoesBoth }
{}

/// A map that a patch overwrites stays a map (docs/SHARING.md, "Patches").
pub fn overwritten_is_map()
    ensures { OverwrittenIsMap }
{}
