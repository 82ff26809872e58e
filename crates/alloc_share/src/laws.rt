ghost use Rattle.alloc_share.specs.Laws.{SharesAddUp, OneShareDiffers, CopiesAreWhole, AllInRange, SharesMirror, EqualWeightsShareEvenly};

/// The shares of EVEN, HEVEN and PROPORTIONAL add up to the amount.
pub fn shares_add_up()
    ensures { SharesAddUp }
{}

/// Every share but one is the candidate's part of the amount, cut off toward zero. The remainder
/// goes to the one that FIRST, LAST, MIN or MAX says, of equals the first.
pub fn one_share_differs()
    ensures { OneShareDiffers }
{}

/// COPY and HCOPY give the amount to each candidate.
pub fn copies_are_whole()
    ensures { CopiesAreWhole }
{}

/// Where an amount is shared out, all weights and all shares are in range.
pub fn all_in_range()
    ensures { AllInRange }
{}

/// An amount below zero is shared out as the one as far above zero is.
pub fn shares_mirror()
    ensures { SharesMirror }
{}

/// By equal weights, which aren't zero, PROPORTIONAL shares an amount out as EVEN does.
pub fn equal_weights_share_evenly()
    ensures { EqualWeightsShareEvenly }
{}
