ghost use Rattle.ses_value.specs.Laws.{AssignmentsWriteTheirLoop, FixedValuesComeFirst};

use dml_loop::each_place_is_assigned;

/// An assignment that isn't refused writes one cell at each combination of its lists, in loop order,
/// none twice, and all of them such that its object can hold them.
pub fn assignments_write_their_loop()
    ensures { AssignmentsWriteTheirLoop }
{
    each_place_is_assigned();
}

/// A fixed value that its dimension lacks is refused before anything is evaluated, those of a target
/// first.
pub fn fixed_values_come_first()
    ensures { FixedValuesComeFirst }
{}
