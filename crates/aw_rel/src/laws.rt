//! What holds of hierarchies.

ghost use Rattle.aw_rel.specs.Laws.{LeavesAreOfOneChild};

/// Each leaf below a value that has children is below exactly one of them (docs/LANGUAGE.md,
/// "Hierarchies").
pub fn leaves_are_of_one_child()
    ensures { LeavesAreOfOneChild }
{}
