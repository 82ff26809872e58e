ghost use Rattle.std.specs.Prelude.{◌≡◌, IfOk};
ghost use Rattle.aw_var.specs.CellPatch.{composed};
ghost use Rattle.aw_var.specs.Laws.{IsRising};

use aw_cell::Cell;
use aw_lists::Coord;
use std::alloc::{AllocError, Global};
use std::cmp::Ordering;

/// The changes of two patches in rising order of their keys; the second decides where both have a key.
pub fn merged(
    alloc: Global,
    first: &[(Coord, Cell)],
    second: &[(Coord, Cell)],
) -> Result<Vec<(Coord, Cell)>, AllocError>
    requires { IsRising second.now }
    ensures { IfOk result (λ all. all.items ≡ composed first.now second.now) }
{
    let mut all = Vec::with_capacity(alloc, first.len() + second.len())?;
    let (mut i, mut j) = (0, 0);
    while i < first.len() && j < second.len() {
        let (one, other) = (first[i], second[j]);
        match one.0.cmp(&other.0) {
            Ordering::Less => {
                all.push(one)?;
                i += 1;
            }
            Ordering::Equal => {
                all.push(other)?;
                i += 1;
                j += 1;
            }
            Ordering::Greater => {
                all.push(other)?;
                j += 1;
            }
        }
    }
    all.extend_from_slice(&first[i..])?;
    all.extend_from_slice(&second[j..])?;
    Ok(all)
}
