ghost use Rattle.std.specs.Prelude.{◌≡◌};
ghost use Rattle.dml_loop.specs.inside.Wheels.{at_first, IsWithin, standing, has_next, stepped};

use crate::list::DimensionList;
use std::marker::Model;

/// The list of a dimension, and the place in it where a loop stands.
#[derive(Drop)]
pub struct Wheel<'a> {
    dimension: u16,
    slots: &'a [u16],
    at: usize,
}

impl<'a> Model for Wheel<'a> {
    ghost use Rattle.dml_loop.specs.inside.Wheels.{WheelView};

    ghost Value = { WheelView };

    ghost view = { λ wheel. record { dimension = wheel.dimension; slots = wheel.slots.now; at = wheel.at } };
}

impl<'a> Wheel<'a> {
    /// At the first slot of a list.
    pub fn first(list: &DimensionList<'a>) -> Wheel<'a>
        ensures { result ≡ at_first list.now }
    {
        Wheel {
            dimension: list.dimension,
            slots: list.slots,
            at: 0,
        }
    }

    /// The dimension, and the slot where it stands.
    pub fn entry(&self) -> (u16, u16)
        requires { IsWithin self.now }
        ensures { result ≡ standing self.now }
    {
        (self.dimension, self.slots[self.at])
    }

    /// Goes on to the next slot, and behind the last one to the first again; it says whether there was a
    /// next one.
    pub fn step(&mut self) -> bool
        requires { IsWithin self.old }
        ensures stepped { self.new ≡ stepped self.old }
        ensures next { result ≡ has_next self.old }
    {
        let next = self.at + 1;
        let has_next = next < self.slots.len();
        self.at = if has_next { next } else { 0 };
        has_next
    }
}
