ghost use Rattle.std.specs.Prelude.{◌≡◌, Ok, IfOk};

use std::alloc::AllocError;

// This is generic, so that a tree which want of memory drops is dropped in one call. A function that owns a `Tree`
// itself where a `?` leaves it has its drop proved form by form, at each such way out.

/// What was made with what is made behind it.
pub(crate) fn with<A: Drop, B: Drop>(
    first: A,
    second: Result<B, AllocError>,
) -> Result<(A, B), AllocError>
    ensures { IfOk result (λ both. (second ≡ Ok both.1) × (both.0 ≡ first)) }
{
    match second {
        Ok(second) => Ok((first, second)),
        Err(fault) => Err(fault),
    }
}
