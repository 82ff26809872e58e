ghost use Rattle.dml_loop.specs.Laws.{PlacesAreTheProduct, EachPlaceIsAssigned, FirstRefusalDecides};

/// There are as many places as the product of the lists' lengths.
pub fn places_are_the_product()
    ensures { PlacesAreTheProduct }
{}

/// An assignment stores one cell at the coordinate of each place, in loop order, and no coordinate comes
/// twice where no list has a slot twice.
pub fn each_place_is_assigned()
    ensures { EachPlaceIsAssigned }
{}

/// What an assignment is refused with is the first refusal in loop order.
pub fn first_refusal_decides()
    ensures { FirstRefusalDecides }
{}
