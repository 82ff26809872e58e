ghost use Rattle.std.specs.Prelude.{◌≡◌};
ghost use Rattle.dml_exec.specs.inside.Arrivals.{Arrived};

use crate::pile::Pile;
use std::mem;

/// With which kinds an op is reached by those before it.
#[derive(Drop)]
pub enum Arrival {
    /// It isn't reached.
    Never,
    /// With these alone.
    With(Pile),
    /// With two different lists.
    Torn,
}

fn joined(before: Arrival, stack: Pile) -> Arrival
    ensures { Arrived before stack result }
{
    match before {
        Arrival::Never => Arrival::With(stack),
        Arrival::With(first) => {
            if first.is_same(&stack) {
                Arrival::With(first)
            } else {
                Arrival::Torn
            }
        }
        Arrival::Torn => Arrival::Torn,
    }
}

/// It is reached with one list more.
pub fn arrive(arrival: &mut Arrival, stack: Pile)
    ensures { Arrived arrival.old stack arrival.new }
{
    let before = mem::replace(arrival, Arrival::Never);
    *arrival = joined(before, stack);
}
