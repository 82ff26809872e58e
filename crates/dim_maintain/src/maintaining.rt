ghost use Rattle.std.specs.Prelude.{◌≡◌, ◌≢◌, None, Some, IfOk, OnOk, IfErr};
ghost use Rattle.dim_maintain.specs.Maintained as spec;
ghost use Rattle.dim_maintain.specs.Causes as cause;
ghost use Rattle.dim_maintain.specs.declared.fault.MaintainFault.TheVariants.{NoMemory};

use crate::causes::{added_cause, deleted_cause, moved_cause, renamed_cause};
use crate::changing::{with_added, with_deleted, with_moved, with_renamed};
use crate::fault::MaintainFault;
use aw_cell::Text;
use aw_dim::Dimension;
use dml_tree::Place;

/// A dimension with new values, which stand at a place in the order written and have the next slots
/// (docs/LANGUAGE.md, "MAINTAIN"). The first that refuses it is, for each value in turn, `NoValue`
/// where it is empty and `Repeated` where a value has the name or it was written before; then
/// `NoValue` where the place is by an unknown value, and `Full` where there are fewer slots left.
pub fn added(
    dimension: &Dimension,
    values: &[Text],
    place: &Place,
) -> Result<Dimension, MaintainFault>
    ensures value { IfOk result (λ made. made ≡ spec.added dimension.now values.now place.now) }
    ensures accepted { OnOk result (cause.added_cause dimension.now values.now place.now ≡ None) }
    ensures refused { IfErr result (λ fault. fault ≢ NoMemory → cause.added_cause dimension.now values.now place.now ≡ Some fault) }
{
    if let Some(fault) = added_cause(dimension, values, place) {
        return Err(fault);
    }
    let made = with_added(dimension, values, place)?;
    Ok(made)
}

/// A dimension without these values, whose slots are never given again (docs/LANGUAGE.md, "MAINTAIN").
/// The first that refuses it is, for each value in turn, `NoValue` where it is unknown and `Repeated`
/// where it was written before.
pub fn deleted(dimension: &Dimension, values: &[Text]) -> Result<Dimension, MaintainFault>
    ensures value { IfOk result (λ made. made ≡ spec.deleted dimension.now values.now) }
    ensures accepted { OnOk result (cause.deleted_cause dimension.now values.now ≡ None) }
    ensures refused { IfErr result (λ fault. fault ≢ NoMemory → cause.deleted_cause dimension.now values.now ≡ Some fault) }
{
    if let Some(fault) = deleted_cause(dimension, values) {
        return Err(fault);
    }
    let made = with_deleted(dimension, values)?;
    Ok(made)
}

/// A dimension in which these values stand at a place among the others, in the order written
/// (docs/LANGUAGE.md, "MAINTAIN"). The first that refuses it is, for each value in turn, `NoValue`
/// where it is unknown and `Repeated` where it was written before; then `NoValue` where the place is
/// by an unknown value, and `Repeated` where it is by one that is moved.
pub fn moved(
    dimension: &Dimension,
    values: &[Text],
    place: &Place,
) -> Result<Dimension, MaintainFault>
    ensures value { IfOk result (λ made. made ≡ spec.moved dimension.now values.now place.now) }
    ensures accepted { OnOk result (cause.moved_cause dimension.now values.now place.now ≡ None) }
    ensures refused { IfErr result (λ fault. fault ≢ NoMemory → cause.moved_cause dimension.now values.now place.now ≡ Some fault) }
{
    if let Some(fault) = moved_cause(dimension, values, place) {
        return Err(fault);
    }
    let made = with_moved(dimension, values, place)?;
    Ok(made)
}

/// A dimension with a value under another name, with the slot and the place that it had
/// (docs/LANGUAGE.md, "MAINTAIN"). The first that refuses it is `NoValue` where the old name is
/// unknown, `NoValue` where the new one is empty, and `Repeated` where a value has the new one.
pub fn renamed(dimension: &Dimension, old: &Text, new: &Text) -> Result<Dimension, MaintainFault>
    ensures value { IfOk result (λ made. made ≡ spec.renamed dimension.now old.now new.now) }
    ensures accepted { OnOk result (cause.renamed_cause dimension.now old.now new.now ≡ None) }
    ensures refused { IfErr result (λ fault. fault ≢ NoMemory → cause.renamed_cause dimension.now old.now new.now ≡ Some fault) }
{
    if let Some(fault) = renamed_cause(dimension, old, new) {
        return Err(fault);
    }
    let made = with_renamed(dimension, old, new)?;
    Ok(made)
}
