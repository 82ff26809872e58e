ghost use Rattle.aw_dim.specs.Calls.{SlotsAreNeverGivenAgain};

/// Whatever calls are made on a dimension, a slot that was given is never given again (docs/LANGUAGE.md,
/// "Dimensions").
pub fn slots_are_never_given_again()
    ensures { SlotsAreNeverGivenAgain }
{}
