//! Why a statement is refused.
ghost use Rattle.std.specs.Prelude.{◌≡◌, [], IsTrue};
ghost use Rattle.dim_maintain.specs.Maintained.{is_among};
ghost use Rattle.dim_maintain.specs.Causes as spec;

use crate::fault::MaintainFault;
use aw_cell::Text;
use aw_dim::Dimension;
use dml_tree::Place;

fn is_among(names: &[Text], name: &Text) -> bool
    ensures { result ≡ is_among names.now name.now }
{
    names.contains(name)
}

fn is_value(dimension: &Dimension, name: &Text) -> bool
    ensures { result ≡ spec.is_value dimension.now name.now }
{
    dimension.slot_of(name).is_some()
}

fn new_cause(dimension: &Dimension, earlier: &[Text], name: &Text) -> Option<MaintainFault>
    ensures { result ≡ spec.new_cause dimension.now earlier.now name.now }
{
    if name.bytes().is_empty() {
        Some(MaintainFault::NoValue(*name))
    } else if is_value(dimension, name) | is_among(earlier, name) {
        Some(MaintainFault::Repeated(*name))
    } else {
        None
    }
}

fn old_cause(dimension: &Dimension, earlier: &[Text], name: &Text) -> Option<MaintainFault>
    ensures { result ≡ spec.old_cause dimension.now earlier.now name.now }
{
    if !is_value(dimension, name) {
        Some(MaintainFault::NoValue(*name))
    } else if is_among(earlier, name) {
        Some(MaintainFault::Repeated(*name))
    } else {
        None
    }
}

/// The first cause of new names, each behind those before it.
fn first_new_cause(dimension: &Dimension, names: &[Text]) -> Option<MaintainFault>
    ensures { result ≡ spec.first_cause (spec.new_cause dimension.now) [] names.now }
{
    for (at, name) in names.iter().enumerate() {
        if let Some(fault) = new_cause(dimension, &names[..at], name) {
            return Some(fault);
        }
    }
    None
}

/// The first cause of names of values, each behind those before it.
fn first_old_cause(dimension: &Dimension, names: &[Text]) -> Option<MaintainFault>
    ensures { result ≡ spec.first_cause (spec.old_cause dimension.now) [] names.now }
{
    for (at, name) in names.iter().enumerate() {
        if let Some(fault) = old_cause(dimension, &names[..at], name) {
            return Some(fault);
        }
    }
    None
}

fn place_cause(dimension: &Dimension, place: &Place) -> Option<MaintainFault>
    ensures { result ≡ spec.place_cause dimension.now place.now }
{
    match place {
        Place::First | Place::Last => None,
        Place::Before(name) | Place::After(name) => {
            if is_value(dimension, name) {
                None
            } else {
                Some(MaintainFault::NoValue(*name))
            }
        }
    }
}

fn own_place_cause(names: &[Text], place: &Place) -> Option<MaintainFault>
    ensures { result ≡ spec.own_place_cause names.now place.now }
{
    match place {
        Place::First | Place::Last => None,
        Place::Before(name) | Place::After(name) => {
            if is_among(names, name) {
                Some(MaintainFault::Repeated(*name))
            } else {
                None
            }
        }
    }
}

fn full_cause(dimension: &Dimension, count: usize) -> Option<MaintainFault>
    ensures { result ≡ spec.full_cause dimension.now count }
{
    let room = 65_536 - dimension.next() as usize;
    if count > room {
        Some(MaintainFault::Full)
    } else {
        None
    }
}

/// Why these values aren't added at this place.
pub fn added_cause(dimension: &Dimension, names: &[Text], place: &Place) -> Option<MaintainFault>
    ensures { result ≡ spec.added_cause dimension.now names.now place.now }
{
    first_new_cause(dimension, names)
        .or(place_cause(dimension, place))
        .or(full_cause(dimension, names.len()))
}

/// Why these values aren't deleted.
pub fn deleted_cause(dimension: &Dimension, names: &[Text]) -> Option<MaintainFault>
    ensures { result ≡ spec.deleted_cause dimension.now names.now }
{
    first_old_cause(dimension, names)
}

/// Why these values aren't moved to this place.
pub fn moved_cause(dimension: &Dimension, names: &[Text], place: &Place) -> Option<MaintainFault>
    ensures { result ≡ spec.moved_cause dimension.now names.now place.now }
{
    first_old_cause(dimension, names)
        .or(place_cause(dimension, place))
        .or(own_place_cause(names, place))
}

/// Why this value isn't renamed.
pub fn renamed_cause(dimension: &Dimension, old: &Text, new: &Text) -> Option<MaintainFault>
    ensures { result ≡ spec.renamed_cause dimension.now old.now new.now }
{
    if !is_value(dimension, old) {
        Some(MaintainFault::NoValue(*old))
    } else if new.bytes().is_empty() {
        Some(MaintainFault::NoValue(*new))
    } else if is_value(dimension, new) {
        Some(MaintainFault::Repeated(*new))
    } else {
        None
    }
}
