ghost use Rattle.std.specs.Prelude.{◌≡◌, ◌≤◌, length, Some, IsSome};
ghost use Rattle.dml_exec.specs.Meaning.{slot_at, slot_of_axis, coordinate};

use crate::op::Axis;
use aw_lists::{Coord, List};

/// Where code is run: a slot for each free dimension, as pairs of a dimension's number and a slot of its.
pub type Place = List<(u16, u16)>;

/// The slot that a place has for a dimension.
pub fn slot_at(place: &[(u16, u16)], dimension: u16) -> u16
    requires { IsSome (slot_at place.now dimension) }
    ensures { slot_at place.now dimension ≡ Some result }
{
    for (of, slot) in place {
        if *of == dimension {
            return *slot;
        }
    }
    unreachable!()
}

fn slot_of_axis(place: &[(u16, u16)], fixed: &[u16], axis: Axis) -> u16
    requires { IsSome (slot_of_axis place.now fixed.now axis) }
    ensures { slot_of_axis place.now fixed.now axis ≡ Some result }
{
    match axis {
        Axis::Free(dimension) => slot_at(place, dimension),
        Axis::Fixed(fix) => fixed[usize::from(fix)],
    }
}

fn coord_of(slots: &[u16]) -> Coord
    requires { length slots.now ≤ 6 }
    ensures { result ≡ slots.now }
{
    match Coord::of(slots) {
        Some(coordinate) => coordinate,
        None => unreachable!(),
    }
}

/// The coordinate of these axes.
pub fn coordinate(place: &[(u16, u16)], fixed: &[u16], axes: &[Axis]) -> Coord
    requires { IsSome (coordinate place.now fixed.now axes.now) }
    ensures { coordinate place.now fixed.now axes.now ≡ Some result }
{
    let mut slots = [0; 6];
    for (at, axis) in axes.iter().enumerate() {
        slots[at] = slot_of_axis(place, fixed, *axis);
    }
    coord_of(&slots[..axes.len()])
}
