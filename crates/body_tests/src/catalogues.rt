ghost use Rattle.std.specs.Prelude.{IsTrue, ◌≤◌, length};
ghost use Rattle.aw_schema.specs.Definitions.{has_form};

use aw_cell::{Kind, Text, is_name};
use aw_lists::{Coord, List};
use aw_schema::{Catalogue, Def, DefKind, SchemaFault};
use std::alloc::Global;

// Whether this is what the catalogue answers to a definition.
fn answers(
    catalogue: &mut Catalogue,
    name: &[u8],
    kind: DefKind,
    expected: Result<u16, SchemaFault>,
) -> bool
    requires { IsTrue (has_form kind) }
{
    if !is_name(name) {
        return false;
    }
    match Text::of(name) {
        Some(name) => catalogue.check(Def { name, kind }) == expected,
        None => false,
    }
}

fn relation(target: u16, base: u16) -> DefKind
    ensures { IsTrue (has_form result) }
{
    DefKind::Relation { target, base }
}

fn variable(dimensions: &[u16]) -> DefKind
    requires { length dimensions.now ≤ 6 }
    ensures { IsTrue (has_form result) }
{
    DefKind::Variable {
        kind: Kind::Int,
        dimensions: Coord::of(dimensions).unwrap(),
    }
}

fn repeat(name: &[u8]) -> Result<u16, SchemaFault> {
    match Text::of(name) {
        Some(name) => Err(SchemaFault::Repeat(name)),
        None => Err(SchemaFault::NoMemory),
    }
}

fn wrong_kind(name: &[u8]) -> Result<u16, SchemaFault> {
    match Text::of(name) {
        Some(name) => Err(SchemaFault::WrongKind(name)),
        None => Err(SchemaFault::NoMemory),
    }
}

fn finds(catalogue: &Catalogue, name: &[u8], expected: Option<u16>) -> bool {
    match Text::of(name) {
        Some(name) => catalogue.find(&name) == expected,
        None => false,
    }
}

fn the_first_refusal_decides(alloc: Global) -> bool {
    let mut catalogue = Catalogue::new(alloc);
    let set = DefKind::Valueset { dimension: 2 };
    let dimensions = answers(&mut catalogue, b"d", DefKind::Dimension, Ok(0))
        & answers(&mut catalogue, b"D", relation(9, 9), repeat(b"d"))
        & answers(&mut catalogue, b"e", DefKind::Dimension, Ok(1));
    let relations = answers(&mut catalogue, b"r", relation(1, 0), Ok(2))
        & answers(
            &mut catalogue,
            b"s",
            relation(2, 9),
            Err(SchemaFault::Unknown(9)),
        )
        & answers(&mut catalogue, b"s", set, wrong_kind(b"r"));
    let variables = answers(&mut catalogue, b"v", variable(&[0, 1, 0]), repeat(b"d"))
        & answers(&mut catalogue, b"v", variable(&[0, 1]), Ok(3));
    dimensions
        & relations
        & variables
        & (catalogue.record_len() == 26)
        & finds(&catalogue, b"V", Some(3))
        & finds(&catalogue, b"w", None)
        & catalogue.def(3).is_some()
        & catalogue.def(4).is_none()
}

// A catalogue of formulas, as many as there may be.
fn full(alloc: Global) -> Option<Catalogue> {
    let mut catalogue = Catalogue::new(alloc);
    for first in b'a'..=b'p' {
        for second in b'a'..=b'p' {
            for third in b'a'..=b'p' {
                let text = List::new(alloc);
                let name = [b'z', first, second, third];
                if !is_name(&name) {
                    return None;
                }
                let name = Text::of(&name)?;
                let kind = DefKind::Formula { text };
                if catalogue.check(Def { name, kind }).is_err() {
                    return None;
                }
            }
        }
    }
    Some(catalogue)
}

fn a_full_one_takes_no_more(alloc: Global) -> bool {
    let Some(mut catalogue) = full(alloc) else {
        return false;
    };
    answers(&mut catalogue, b"ZAAB", DefKind::Dimension, repeat(b"zaab"))
        & answers(
            &mut catalogue,
            b"y",
            relation(9, 0),
            Err(SchemaFault::TooMany),
        )
        & (catalogue.len() == 4_096)
        & (catalogue.record_len() == 40_964)
        & finds(&catalogue, b"ZAAB", Some(1))
}

#[test]
fn refuses_in_order(rt: HostRuntime) {
    let alloc = rt.alloc();
    assert!(rt; the_first_refusal_decides(alloc) & a_full_one_takes_no_more(alloc));
}
