//! What holds of every step.

ghost use Rattle.mv_core.specs.Laws.{CommitChangesWhatItNames, OwnerKeepsUntilItGivesUp, AcquireIsAllOrNothing};

/// A commit that is granted makes the next generation of each object that it names, which are the
/// session's, and of no other (docs/SHARING.md).
pub fn commit_changes_what_it_names()
    ensures { CommitChangesWhatItNames }
{}

/// Who owns an object keeps it until it gives it up itself, whatever any session asks
/// (docs/SHARING.md).
pub fn owner_keeps_until_it_gives_up()
    ensures { OwnerKeepsUntilItGivesUp }
{}

/// An `Acquire` owns all that it asked to own, or changes nothing (docs/SHARING.md).
pub fn acquire_is_all_or_nothing()
    ensures { AcquireIsAllOrNothing }
{}
