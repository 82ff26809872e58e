ghost use Rattle.std.specs.Prelude.{◌≡◌, ◌<◌, ◌↔◌, length, replicate, slice_get, slice_set, Some, None, Option, List, ℕ, IsTrue, IfOk};
ghost use Rattle.std.specs.List.{list_all};
ghost use Rattle.aw_cell.specs.declared.cell.Cell.TheVariants.{Na};
ghost use Rattle.aw_page.specs.Fitting.{IsTextOrNa, is_na};
ghost use Rattle.aw_page.specs.inside.Texts.{text_cell};

use aw_cell::{Cell, Text};
use std::alloc::{AllocError, Global};
use std::marker::Model;

fn text_of(cell: Cell) -> Option<Text>
    requires { IsTextOrNa cell }
    ensures { text_cell result ≡ cell }
{
    match cell {
        Cell::Text(text) => Some(text),
        _ => None,
    }
}

fn cell_of(text: Option<Text>) -> Cell
    ensures { result ≡ text_cell text }
{
    match text {
        Some(text) => Cell::Text(text),
        None => Cell::Na,
    }
}

fn are_na(texts: &[Option<Text>]) -> bool
    ensures { result ≡ list_all (λ text. is_na (text_cell text)) texts.now }
{
    texts.iter().all(|text| text.is_none())
}

/// 64 cells, each of which is a TEXT or NA (docs/LANGUAGE.md, "Pages").
#[derive(Drop)]
pub struct TextPage {
    texts: [Option<Text>; 64],
}

impl Model for TextPage {
    ghost use Rattle.std.specs.Prelude.{◌≡◌, List, map, length};
    ghost use Rattle.aw_cell.specs.declared.cell.Cell.{Cell};
    ghost use Rattle.aw_page.specs.inside.Texts.{text_cell};

    ghost Value = { List Cell };

    ghost view = { λ page. map text_cell page.texts };

    ghost invariant = { λ page. length page.texts ≡ 64 };
}

impl TextPage {
    /// A page of which every cell is NA. It takes no memory.
    pub fn new() -> TextPage
        ensures { result ≡ replicate 64 Na }
    {
        TextPage { texts: [None; 64] }
    }

    /// The cell at a place from 0 to 63.
    pub fn get(&self, at: u8) -> Cell
        requires { at < 64 }
        ensures cell { slice_get self.now at ≡ Some result }
        ensures size { length self.now ≡ 64 }
    {
        cell_of(self.texts[at as usize])
    }

    /// Puts a TEXT or NA in a place from 0 to 63, and leaves all others as they are.
    pub fn put(&mut self, at: u8, cell: Cell)
        requires place { at < 64 }
        requires fitting { IsTextOrNa cell }
        ensures cell { self.new ≡ slice_set self.old at cell }
        ensures size { length self.new ≡ 64 }
    {
        self.texts[at as usize] = text_of(cell);
    }

    /// Whether every cell is NA.
    pub fn is_empty(&self) -> bool
        ensures { result ≡ list_all is_na self.now }
    {
        are_na(&self.texts)
    }

    /// An equal page. Its cells lie in the page itself, so that the allocator gives nothing here.
    pub fn copied(&self, _alloc: Global) -> Result<TextPage, AllocError>
        ensures { IfOk result (λ page. page ≡ self.now) }
    {
        let mut page = TextPage::new();
        page.texts.copy_from_slice(&self.texts);
        Ok(page)
    }
}

impl PartialEq for TextPage {
    ghost use Rattle.std.specs.Prelude.{◌≡◌, ◌↔◌, IsTrue};
    ghost use Rattle.std.specs.Cmp.Lexicographic.{pointwise, lists_per};
    ghost use Rattle.aw_cell.specs.Cell.{same_cell};
    ghost use Rattle.aw_cell.specs.SameCell.{same_cell_partial_equivalence};

    ghost eq = { pointwise same_cell };

    ghost laws = { lists_per same_cell_partial_equivalence };

    fn eq(&self, other: &TextPage) -> bool
        ensures same { result ≡ pointwise same_cell self.now other.now }
        ensures equal { IsTrue result ↔ (self.now ≡ other.now) }
    {
        self.texts[..] == other.texts[..]
    }
}

impl Eq for TextPage {
    ghost use Rattle.std.specs.Cmp.Lexicographic.{lists_equiv};
    ghost use Rattle.aw_cell.specs.SameCell.{same_cell_equivalence};

    ghost laws = { lists_equiv same_cell_equivalence };
}
