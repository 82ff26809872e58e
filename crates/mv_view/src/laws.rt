//! What holds of a view.

ghost use Rattle.mv_view.specs.Laws as law;

use aw_body::difference_gives_newer;

/// What a session does by itself keeps that its view fits (docs/SHARING.md, "A session's view").
pub fn own_calls_keep_the_fit()
    ensures { law.OwnCallsKeepTheFit }
{}

/// A view that is attached fits (docs/SHARING.md, "A session's view").
pub fn attaching_fits()
    ensures { law.AttachingFits }
{}

/// A view fits after ACQUIRE was granted (docs/SHARING.md, "A session's view").
pub fn acquiring_fits()
    ensures { law.AcquiringFits }
{}

/// A view fits after RESYNC (docs/SHARING.md, "A session's view").
pub fn resyncing_fits()
    ensures { law.ResyncingFits }
{}

/// A view fits after a commit was granted (docs/SHARING.md, "A session's view").
pub fn committing_fits()
    ensures { law.CommittingFits }
{
    difference_gives_newer();
}

/// A view fits after a release (docs/SHARING.md, "A session's view").
pub fn releasing_fits()
    ensures { law.ReleasingFits }
{
    difference_gives_newer();
}

/// What another session does keeps that a view fits (docs/SHARING.md, "A session's view").
pub fn others_keep_the_fit()
    ensures { law.OthersKeepTheFit }
{}

/// The changes of a view are the session's own and fit, so that a commit of them is never refused as a
/// stranger's (docs/SHARING.md, "A session's view").
pub fn changes_may_be_committed()
    ensures { law.ChangesMayBeCommitted }
{
    difference_gives_newer();
}

/// A commit has one change for each owned object whose staged body differs from its base, and no other
/// (docs/SHARING.md, "A session's view").
pub fn changes_are_what_is_staged()
    ensures { law.ChangesAreWhatIsStaged }
{
    difference_gives_newer();
}

/// What is written, selected or reverted is in no commit (docs/SHARING.md, "A session's view").
pub fn what_is_private_is_not_committed()
    ensures { law.WhatIsPrivateIsNotCommitted }
{}

/// Behind a commit nothing is staged (docs/SHARING.md, "A session's view").
pub fn nothing_is_left_staged()
    ensures { law.NothingIsLeftStaged }
{
    difference_gives_newer();
}

/// REVERT gives back what was staged (docs/SHARING.md, "A session's view").
pub fn revert_gives_back()
    ensures { law.RevertGivesBack }
{}

/// A write changes the private cells of one object at exactly its keys (docs/SHARING.md, "A session's
/// view").
pub fn writes_those_cells()
    ensures { law.WritesThoseCells }
{}
