ghost use Rattle.std.specs.Prelude.{◌≡◌, ◌-◌, Err, Ok, Some, ◌==◌, slice_get};
ghost use Rattle.std.specs.List.{list_any};
ghost use Rattle.agg_map.specs.Maps as spec;

use crate::fault::MapFault;
use crate::line::MapLine;
use aw_cell::{Operator, Rest, Spread, Text};
use aw_schema::{Catalogue, Def, DefKind};
use dml_tree::{MapLine as Written, Remainder};

fn allocates(operator: Operator) -> bool
    ensures { result ≡ spec.allocates operator }
{
    match operator {
        Operator::Sum | Operator::Min | Operator::Max | Operator::Average | Operator::Count =>
            false,
        Operator::Spread(_) => true,
    }
}

fn written_rest(rest: Remainder) -> Rest
    ensures { result ≡ spec.written_rest rest }
{
    match rest {
        Remainder::Unwritten => Rest::First,
        Remainder::To(rest) => rest,
    }
}

fn rest_of_spread(way: Spread, rest: Remainder) -> Option<Rest>
    ensures { result ≡ spec.rest_of_spread way rest }
{
    match way {
        Spread::Even | Spread::HEven | Spread::Proportional => Some(written_rest(rest)),
        Spread::Copy | Spread::HCopy => None,
    }
}

fn rest_of(operator: Operator, rest: Remainder) -> Option<Rest>
    ensures { result ≡ spec.rest_of operator rest }
{
    match operator {
        Operator::Sum | Operator::Min | Operator::Max | Operator::Average | Operator::Count => None,
        Operator::Spread(way) => rest_of_spread(way, rest),
    }
}

fn own_dimension(kind: &DefKind) -> Option<u16>
    ensures { result ≡ spec.own_dimension kind.now }
{
    match kind {
        DefKind::Relation { target, base } => { if *target == *base { Some(*base) } else { None } }
        DefKind::Dimension
        | DefKind::Valueset { .. }
        | DefKind::Variable { .. }
        | DefKind::Formula { .. }
        | DefKind::Program { .. }
        | DefKind::Aggmap { .. } => None,
    }
}

fn is_allocating(line: &MapLine) -> bool
    ensures { result ≡ spec.allocates line.now.operator }
{
    allocates(line.operator)
}

fn one_allocates(lines: &[MapLine]) -> bool
    ensures { result ≡ spec.one_allocates lines.now }
{
    lines.iter().any(|line| is_allocating(line))
}

fn is_too_many(earlier: &[MapLine], operator: Operator) -> bool
    ensures { result ≡ spec.is_too_many earlier.now operator }
{
    one_allocates(earlier) | (allocates(operator) & !earlier.is_empty())
}

fn is_among(dimension: u16, earlier: &[u16]) -> bool
    ensures { result ≡ list_any (λ other. other == dimension) earlier.now }
{
    earlier.iter().any(|other| *other == dimension)
}

fn name_of(catalogue: &Catalogue, object: u16, other: Text) -> Text
    ensures { result ≡ spec.named (slice_get catalogue.now object) other }
{
    match catalogue.def(object) {
        Some(def) => def.name,
        None => other,
    }
}

/// A line of the text by its number in the block, of which DEFINE is the first one.
fn line_of(written: &Written) -> u32
    ensures { result ≡ written.now.line - 1 }
{
    written.line.saturating_sub(1)
}

/// A line whose relation has this number and this definition.
fn line_along(
    catalogue: &Catalogue,
    earlier: &[u16],
    written: &Written,
    relation: u16,
    def: &Def,
) -> Result<(MapLine, u16), MapFault>
    ensures { result ≡ spec.along catalogue.now earlier.now written.now relation def.now (spec.own_dimension def.now.kind) }
{
    let line = line_of(written);
    match own_dimension(&def.kind) {
        None => Err(MapFault::WrongKind {
            line,
            name: def.name,
        }),
        Some(dimension) => {
            if is_among(dimension, earlier) {
                let name = name_of(catalogue, dimension, def.name);
                return Err(MapFault::Repeat { line, name });
            }
            let operator = written.operator;
            let rest = rest_of(operator, written.rest);
            Ok((
                MapLine {
                    relation,
                    operator,
                    rest,
                },
                dimension,
            ))
        }
    }
}

fn line_of_relation(
    catalogue: &Catalogue,
    lines: &[MapLine],
    dimensions: &[u16],
    written: &Written,
    relation: u16,
    def: &Def,
) -> Result<(MapLine, u16), MapFault>
    ensures { result ≡ spec.of_object catalogue.now (record { lines = lines.now; dimensions = dimensions.now }) written.now relation (Some def.now) }
{
    if is_too_many(lines, written.operator) {
        return Err(MapFault::WrongKind {
            line: line_of(written),
            name: def.name,
        });
    }
    line_along(catalogue, dimensions, written, relation, def)
}

/// The line behind these earlier ones, with its dimension.
#[tactic(auto, unfolding(crate::specs::Maps::line_in))]
pub(crate) fn line_in(
    catalogue: &Catalogue,
    lines: &[MapLine],
    dimensions: &[u16],
    written: &Written,
) -> Result<(MapLine, u16), MapFault>
    ensures { result ≡ spec.line_in catalogue.now (record { lines = lines.now; dimensions = dimensions.now }) written.now }
{
    let line = line_of(written);
    let name = written.relation;
    match catalogue.find(&name) {
        None => Err(MapFault::Unknown { line, name }),
        Some(object) => match catalogue.def(object) {
            None => Err(MapFault::Unknown { line, name }),
            Some(def) => line_of_relation(catalogue, lines, dimensions, written, object, def),
        },
    }
}
