//! What holds of bodies and their patches.

ghost use Rattle.aw_body.specs.Laws.{DifferenceGivesNewer, ComposedDoesBoth};

/// A difference applied gives the newer body, and there is none exactly where the bodies are equal
/// (docs/SHARING.md, "Bodies and patches").
pub fn difference_gives_newer()
    ensures { DifferenceGivesNewer }
{
    aw_var::difference_gives_newer();
    aw_var::difference_tells_apart();
}

/// What is composed does what both do (docs/SHARING.md, "Bodies and patches").
pub fn composed_does_both()
    ensures { ComposedDoesBoth }
{
    aw_var::composed_does_both();
}
