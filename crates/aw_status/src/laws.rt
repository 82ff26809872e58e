ghost use Rattle.aw_status.specs.Laws.{KeepingAndRemovingPart, KeepingKeepsTheOrder, AddingNeverRepeats, ComplementOfComplement, RulesSelectValues};

/// KEEP and REMOVE of one list part a status.
pub fn keeping_and_removing_part()
    ensures { KeepingAndRemovingPart }
{}

/// KEEP takes values out of a status and never reorders it.
pub fn keeping_keeps_the_order()
    ensures { KeepingKeepsTheOrder }
{}

/// ADD never repeats a value.
pub fn adding_never_repeats()
    ensures { AddingNeverRepeats }
{}

/// COMPLEMENT of what COMPLEMENT of a list gave is the list's values in the dimension's order.
pub fn complement_of_complement()
    ensures { ComplementOfComplement }
{}

/// Each rule selects values of the dimension alone.
pub fn rules_select_values()
    ensures { RulesSelectValues }
{}
