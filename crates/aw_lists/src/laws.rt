//! What holds of the numbers that stand for coordinates, and of counts.

ghost use Rattle.aw_lists.specs.Coord.{PackingKeepsOrder};
ghost use Rattle.aw_lists.specs.Faults.{CountsRise};

/// Among coordinates of one length `Coord::pack` gives distinct numbers to distinct coordinates,
/// and the lower number to the one that has the lower slot at the first place where they differ.
/// See docs/LANGUAGE.md, "Coordinates".
pub fn packing_keeps_order()
    ensures { PackingKeepsOrder }
{}

/// A count below its last value rises by one, and one at its last value stays there.
/// See docs/FORMATS.md, "The disk model".
pub fn counts_rise()
    ensures { CountsRise }
{}
