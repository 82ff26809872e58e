ghost use Rattle.std.specs.Prelude.{◌≡◌, ◌∷◌, [], length, map, drop, cond, IfOk, All, MatchOption, ◌==◌};
ghost use Rattle.std.specs.List.{list_any};
ghost use Rattle.dml_loop.specs.Loops.{places};
ghost use Rattle.dml_loop.specs.inside.Wheels.{to_come, standing, at_first, IsWithin};

use crate::list::DimensionList;
use crate::wheel::Wheel;
use aw_lists::List;
use dml_exec::Place;
use std::alloc::{AllocError, Global};
use std::marker::Model;

/// The combinations of lists in loop order; contracts see it as the list of those that are still to
/// come. One place is kept at a time (docs/ARCHITECTURE.md, "Loops").
#[derive(Drop)]
pub struct Places<'a> {
    wheels: Vec<Wheel<'a>>,
    place: Place,
    over: bool,
}

impl<'a> Model for Places<'a> {
    ghost use Rattle.std.specs.Prelude.{◌≡◌, [], List, ℕ, cond, map, All};
    ghost use Rattle.dml_loop.specs.inside.Wheels.{to_come, standing, IsWithin};

    ghost Value = { List (List (ℕ × ℕ)) };

    ghost view = { λ p. cond p.over [] (to_come p.wheels.items) };

    ghost invariant = { λ p. (p.place ≡ map standing p.wheels.items) × All IsWithin p.wheels.items };
}

fn has_empty(lists: &[DimensionList]) -> bool
    ensures { result ≡ list_any (λ list. length list.1 == 0) lists.now }
{
    lists.iter().any(|list| list.slots.is_empty())
}

fn wheels_of<'a>(alloc: Global, lists: &[DimensionList<'a>]) -> Result<Vec<Wheel<'a>>, AllocError>
    ensures { IfOk result (λ wheels. wheels.items ≡ map at_first lists.now) }
{
    lists.iter().map(Wheel::first).collect(alloc)
}

fn place_of(alloc: Global, wheels: &[Wheel]) -> Result<Place, AllocError>
    requires { All IsWithin wheels.now }
    ensures { IfOk result (λ place. place ≡ map standing wheels.now) }
{
    let mut place = List::from_vec(Vec::with_capacity(alloc, wheels.len())?);
    for wheel in wheels {
        place.push(wheel.entry())?;
    }
    Ok(place)
}

/// Goes on to the next place, and says whether there is one.
fn turn(wheels: &mut Vec<Wheel>, place: &mut Place) -> bool
    requires within { All IsWithin wheels.old.items }
    requires place { place.old ≡ map standing wheels.old.items }
    ensures within { All IsWithin wheels.new.items }
    ensures place { place.new ≡ map standing wheels.new.items }
    ensures turned { to_come wheels.old.items ≡ map standing wheels.old.items ∷ cond result (to_come wheels.new.items) [] }
{
    let mut at = wheels.len();
    while at > 0 {
        at -= 1;
        let goes_on = wheels[at].step();
        *place.at_mut(at) = wheels[at].entry();
        if goes_on {
            return true;
        }
    }
    false
}

impl<'a> Places<'a> {
    /// All combinations of these lists. The only error is want of memory.
    pub fn new(alloc: Global, lists: &[DimensionList<'a>]) -> Result<Places<'a>, AllocError>
        ensures { IfOk result (λ all. all ≡ places lists.now) }
    {
        if has_empty(lists) {
            return Ok(Places {
                wheels: Vec::new(alloc),
                place: List::new(alloc),
                over: true,
            });
        }
        let wheels = wheels_of(alloc, lists)?;
        let place = place_of(alloc, wheels.as_slice())?;
        Ok(Places {
            wheels,
            place,
            over: false,
        })
    }

    /// The next place, or `None` behind the last one.
    pub fn place(&self) -> Option<&Place>
        ensures { MatchOption result (self.now ≡ []) (λ place. self.now ≡ place.now ∷ drop 1 self.now) }
    {
        if self.over { None } else { Some(&self.place) }
    }

    /// Goes on behind the next place.
    pub fn advance(&mut self)
        ensures { self.new ≡ drop 1 self.old }
    {
        if !self.over {
            self.over = !turn(&mut self.wheels, &mut self.place);
        }
    }
}
