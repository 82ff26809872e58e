ghost use Rattle.dml_exec.specs.CodeRuns.{AcceptedCodeIsNeverStuck};

/// Code that was accepted is never stuck: on all that fits it gives one cell, of the kind that the end
/// has or NA, or a refusal.
pub fn accepted_code_is_never_stuck()
    ensures { AcceptedCodeIsNeverStuck }
{}
