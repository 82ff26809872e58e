ghost use Rattle.std.specs.Prelude.{◌≡◌, nat_le, Option, option_and_then};
ghost use Rattle.dml_exec.specs.Operators.{when};
ghost use Rattle.dml_loop.specs.Loops.{combinations};
ghost use Rattle.dml_loop.specs.inside.Counting.{times};

use crate::list::DimensionList;

fn within(count: usize, limit: usize) -> Option<usize>
    ensures { result ≡ when (nat_le count limit) count }
{
    (count <= limit).then_some(count)
}

fn times(count: usize, others: Option<usize>, limit: usize) -> Option<usize>
    ensures { result ≡ times count others limit }
{
    if count == 0 {
        return Some(0);
    }
    within(count.checked_mul(others?)?, limit)
}

/// How many combinations the lists have, or `None` where they are more than the limit.
pub fn count_within(lists: &[DimensionList], limit: usize) -> Option<usize>
    ensures { result ≡ when (nat_le (combinations lists.now) limit) (combinations lists.now) }
{
    match lists {
        [] => within(1, limit),
        [list, lists @ ..] => times(list.slots.len(), count_within(lists, limit), limit),
    }
}
