ghost use Rattle.std.specs.Prelude.{◌≡◌, Ok, Err, IfOk, MatchResult};

use dml_grammar::Fault;
use sqlite_items::Boxed;
use std::alloc::{AllocError, Global};

// These are generic, so that a tree which a fault drops is dropped in one call. A function that owns an `Expr` or a
// `Step` itself where a `?` leaves it has its drop proved form by form, at each such way out.

/// What was read with what is read behind it, or the fault at which that stops.
pub fn with<A: Drop, B: Drop>(first: A, second: Result<B, Fault>) -> Result<(A, B), Fault>
    ensures { MatchResult result (λ both. (second ≡ Ok both.1) × (both.0 ≡ first)) (λ fault. second ≡ Err fault) }
{
    match second {
        Ok(second) => Ok((first, second)),
        Err(fault) => Err(fault),
    }
}

/// What was read, or the fault in the word or symbol behind it.
pub fn followed<A: Drop>(read: A, end: Result<(), Fault>) -> Result<A, Fault>
    ensures { MatchResult result (λ whole. (end ≡ Ok tt) × (whole ≡ read)) (λ fault. end ≡ Err fault) }
{
    match end {
        Ok(()) => Ok(read),
        Err(fault) => Err(fault),
    }
}

pub(crate) fn two_boxes<T: Drop>(
    alloc: Global,
    left: T,
    right: T,
) -> Result<(Boxed<T>, Boxed<T>), AllocError>
    ensures { IfOk result (λ boxes. (boxes.0 ≡ left) × (boxes.1 ≡ right)) }
{
    Ok((Boxed::new(alloc, left)?, Boxed::new(alloc, right)?))
}

pub(crate) fn three_boxes<T: Drop>(
    alloc: Global,
    one: T,
    two: T,
    three: T,
) -> Result<(Boxed<T>, Boxed<T>, Boxed<T>), AllocError>
    ensures { IfOk result (λ boxes. (boxes.0 ≡ one) × (boxes.1 ≡ two) × (boxes.2 ≡ three)) }
{
    let one = Boxed::new(alloc, one)?;
    let two = Boxed::new(alloc, two)?;
    Ok((one, two, Boxed::new(alloc, three)?))
}
