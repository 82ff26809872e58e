ghost use Rattle.std.specs.Prelude.{◌≡◌, ◌≤◌};
ghost use Rattle.std.specs.Option.{option_map};
ghost use Rattle.std.specs.Map.Iter.{deref_pair};
ghost use Rattle.aw_cell.specs.declared.cell.Cell.{Cell};
ghost use Rattle.aw_var.specs.inside.Sheets.{all_numbered};
ghost use Rattle.aw_var.specs.inside.Walks.{numbers_left, TakesNumber};
ghost use Rattle.aw_var.specs.inside.Unpacking.{with_coords, AreNumbersOf};

use crate::patching::{coord_of, number_at};
use crate::sheet::Sheet;
use aw_cell::Cell;
use aw_lists::Coord;
use std::collections::BTreeMap;
use std::collections::btree_map::Iter;
use std::marker::Model;

/// The keys of a variable with their cells, in rising order; contracts see it as the list of those that
/// are still to come (docs/LANGUAGE.md, "Variables"). It takes no memory.
#[derive(Drop)]
pub struct CellIter<'a> {
    slots: u8,
    /// The sheet in hand, and how many of its places were passed.
    sheet: Option<(&'a u128, &'a Sheet)>,
    passed: u8,
    rest: Iter<'a, u128, Sheet>,
}

impl<'a> Model for CellIter<'a> {
    ghost use Rattle.aw_var.specs.CellMap.{Cells};

    ghost Value = { Cells };

    ghost use Rattle.std.specs.Option.{option_map};
    ghost use Rattle.std.specs.Map.Iter.{deref_pair};
    ghost use Rattle.aw_var.specs.inside.Walks.{numbers_left};
    ghost use Rattle.aw_var.specs.inside.Unpacking.{with_coords, AreNumbersOf};

    ghost view = { λ it. with_coords it.slots (numbers_left (option_map deref_pair it.sheet) it.passed it.rest) };

    ghost invariant = { λ it. AreNumbersOf it.slots (numbers_left (option_map deref_pair it.sheet) it.passed it.rest) };
}

impl<'a> CellIter<'a> {
    /// All cells of sheets whose numbers are those of keys with so many slots.
    pub fn new(slots: u8, sheets: &'a BTreeMap<u128, Sheet>) -> CellIter<'a>
        requires { AreNumbersOf slots (all_numbered sheets.now.entries) }
        ensures { result ≡ with_coords slots (all_numbered sheets.now.entries) }
    {
        let mut rest = sheets.iter();
        let sheet = rest.next();
        CellIter {
            slots,
            sheet,
            passed: 0,
            rest,
        }
    }
}

/// The next cell on the sheets that are left, with its page and its place there.
fn take_cell<'a>(
    sheet: &mut Option<(&'a u128, &'a Sheet)>,
    passed: &mut u8,
    rest: &mut Iter<'a, u128, Sheet>,
) -> Option<(u128, u8, Cell)>
    ensures { TakesNumber (numbers_left (option_map deref_pair sheet.old) passed.old rest.old) result (numbers_left (option_map deref_pair sheet.new) passed.new rest.new) }
{
    'sheets: while let Some((page, cells)) = *sheet {
        if let Some((place, cell)) = cells.used_from(*passed) {
            *passed = place + 1;
            return Some((*page, place, cell));
        }
        *passed = 0;
        *sheet = rest.next();
    }
    None
}

impl<'a> Iterator for CellIter<'a> {
    ghost use Rattle.std.specs.Iterator.{YieldsFirst, item_count};

    type Item = (Coord, Cell);

    ghost next_gives = { YieldsFirst (λ left. left) };

    ghost remaining = { item_count (λ left. left) };

    fn next(&mut self) -> Option<(Coord, Cell)> {
        let (page, place, cell) = take_cell(&mut self.sheet, &mut self.passed, &mut self.rest)?;
        let number = number_at(self.slots, page, place);
        Some((coord_of(self.slots, number), cell))
    }
}
