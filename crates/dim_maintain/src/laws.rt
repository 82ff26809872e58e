ghost use Rattle.dim_maintain.specs.Laws.{AddedSlots, FirstCauses, MovedSlots, NewSlotAgain, RenamedSlots};

/// Of a list the first cause is that of the first value which has one.
pub fn first_causes()
    ensures { FirstCauses }
{}

/// ADD leaves the values that were there with their slots, in their order, and gives new ones the next slots.
pub fn added_slots()
    ensures { AddedSlots }
{}

/// A value that is deleted and added again has a new slot.
pub fn new_slot_again()
    ensures { NewSlotAgain }
{}

/// MOVE leaves the same values with their slots, and the others in their order.
pub fn moved_slots()
    ensures { MovedSlots }
{}

/// RENAME leaves each slot at its place.
pub fn renamed_slots()
    ensures { RenamedSlots }
{}
