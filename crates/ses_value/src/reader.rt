ghost use Rattle.std.specs.Prelude.{◌≡◌};
ghost use Rattle.ses_value.specs.Seeing.{text_or_na};

use aw_cell::{Cell, Text};
use aw_lists::Coord;
use dml_exec::Cells;
use dml_loop::Slots;
use mv_view::View;

/// A session's view, as code reads it.
#[derive(Drop)]
pub struct Reader<'a> {
    pub view: &'a View,
}

fn text_or_na(name: Option<Text>) -> Cell
    ensures { result ≡ text_or_na name }
{
    match name {
        Some(name) => Cell::Text(name),
        None => Cell::Na,
    }
}

impl Cells for Reader<'_> {
    ghost use Rattle.std.specs.Option.{IsSomeAnd};
    ghost use Rattle.mv_view.specs.ViewState.{object_of, IsKeyOf};
    ghost use Rattle.mv_view.specs.Rules.{read};
    ghost use Rattle.ses_value.specs.Seeing.{name_in};

    ghost cell_at = { λ reader object at. read reader.view.now object at };

    ghost name_at = { λ reader dimension slot. name_in reader.view.now dimension slot };

    ghost may_read = { λ reader object at. IsSomeAnd (object_of reader.view.now object) (λ found. IsKeyOf found.kind at) };

    ghost may_name = { λ reader dimension slot. Unit {0} };

    fn cell(&self, object: u16, at: &Coord) -> Cell {
        self.view.read(object, at)
    }

    fn name(&self, dimension: u16, slot: u16) -> Cell {
        match self.view.values(dimension) {
            Some(values) => text_or_na(values.name_of(slot)),
            None => Cell::Na,
        }
    }
}

impl Slots for Reader<'_> {
    ghost use Rattle.ses_value.specs.Seeing.{slot_in};

    ghost slot_of = { λ reader dimension value. slot_in reader.view.now dimension value };

    fn slot(&self, dimension: u16, value: &Text) -> Option<u16> {
        match self.view.values(dimension) {
            Some(values) => values.slot_of(value),
            None => None,
        }
    }
}
