use std::marker::Model;

/// A dimension of a loop, by its number, with the slots through which the loop goes, in this order.
#[derive(Drop)]
pub struct DimensionList<'a> {
    pub dimension: u16,
    pub slots: &'a [u16],
}

impl<'a> Model for DimensionList<'a> {
    ghost use Rattle.std.specs.Prelude.{List, ℕ};

    ghost Value = { ℕ × List ℕ };

    ghost view = { λ list. (list.dimension, list.slots.now) };
}
