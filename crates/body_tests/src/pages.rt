use aw_cell::{Cell, Kind, Text};
use aw_page::{Page, TextPage, is_fitting};
use std::alloc::{AllocError, Global};
use std::test::Fail;

fn keeps_its_cells(alloc: Global) -> Result<bool, AllocError> {
    let mut page = Page::new();
    page.put(63, Cell::Int(-7));
    page.put(0, Cell::Slot(9));
    let copy = page.copied(alloc)?;
    page.put(0, Cell::Na);
    let now = (page.get(63) == Cell::Int(-7)) & (page.get(0) == Cell::Na);
    Ok(now & (copy.get(0) == Cell::Slot(9)) & (page != copy) & !page.is_empty())
}

fn keeps_its_texts(alloc: Global) -> Result<bool, AllocError> {
    let Some(text) = Text::of(b"North") else {
        return Ok(false);
    };
    let text = Cell::Text(text);
    let mut page = TextPage::new();
    page.put(63, text);
    let copy = page.copied(alloc)?;
    page.put(63, Cell::Na);
    let fitting = is_fitting(Kind::Text, &text) & !is_fitting(Kind::Int, &text);
    Ok(fitting & (copy.get(63) == text) & (page != copy) & page.is_empty())
}

#[test]
fn a_copy_of_a_page_keeps_its_cells(rt: HostRuntime) -> Result<(), Fail> {
    assert!(rt; keeps_its_cells(rt.alloc())? & keeps_its_texts(rt.alloc())?);
    Ok(())
}
