//! The ops of names.
ghost use Rattle.std.specs.Prelude.{◌≡◌, ◌∷◌, [], ◌++◌, length, map, IfOk, OnOk};
ghost use Rattle.dml_compile.specs.Compiled.{fix_of, fixes_of};
ghost use Rattle.dml_compile.specs.inside.Emitted as spec;

use crate::draft::{Draft, number, put};
use aw_lists::List;
use dml_exec::{Axis, Fix, Op};
use dml_kinds::{FixedValue, Taken};
use std::alloc::{AllocError, Global};

fn fix_of(fix: &FixedValue) -> Fix
    ensures { result ≡ fix_of fix.now }
{
    Fix {
        dimension: fix.dimension,
        value: fix.value,
    }
}

/// Adds fixed values.
pub fn put_fixes(into: &mut Vec<Fix>, fixes: &[FixedValue]) -> Result<(), AllocError>
    ensures { OnOk result (into.new.items ≡ into.old.items ++ fixes_of fixes.now) }
{
    for fix in fixes {
        into.push(fix_of(fix))?;
    }
    Ok(())
}

/// The axis of a dimension, where the first of these fixes has this number.
pub fn axis_of(fixes: &[FixedValue], first: u16, dimension: u16) -> Result<Axis, AllocError>
    ensures { IfOk result (λ axis. axis ≡ spec.axis_of fixes.now first dimension) }
{
    match fixes {
        [] => Ok(Axis::Free(dimension)),
        [fix, rest @ ..] => {
            if fix.dimension == dimension {
                return Ok(Axis::Fixed(first));
            }
            match first.checked_add(1) {
                Some(next) => axis_of(rest, next, dimension),
                None => Err(AllocError),
            }
        }
    }
}

fn axes(alloc: Global, taken: &Taken, first: u16) -> Result<Vec<Axis>, AllocError>
    ensures { IfOk result (λ axes. axes.items ≡ map (spec.axis_of taken.now.fixes first) taken.now.dimensions) }
{
    let mut axes = Vec::new(alloc);
    for dimension in taken.dimensions.slots() {
        axes.push(axis_of(taken.fixes.as_slice(), first, *dimension)?)?;
    }
    Ok(axes)
}

/// Reads an object at the place and its fixed values.
pub fn load(alloc: Global, draft: &mut Draft, taken: &Taken) -> Result<(), AllocError>
    ensures ops { OnOk result (draft.new.ops.items ≡ draft.old.ops.items ++ spec.load taken.now (length draft.old.fixes.items) ∷ []) }
    ensures fixes { OnOk result (draft.new.fixes.items ≡ draft.old.fixes.items ++ fixes_of taken.now.fixes) }
{
    let first = number(draft.fixes.len())?;
    let axes = axes(alloc, taken, first)?;
    put_fixes(&mut draft.fixes, taken.fixes.as_slice())?;
    put(
        draft,
        Op::Load {
            object: taken.object,
            axes: List::from_vec(axes),
        },
    )
}
