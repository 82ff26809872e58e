ghost use Rattle.std.specs.Prelude.{◌≡◌, ◌≤◌, length, OnOk, OnErr, IsSome, IfSome};
ghost use Rattle.std.specs.List.{flat_map};
ghost use Rattle.aw_io.specs.Known.{Grows, GrowsByFront};
ghost use Rattle.aw_lists.specs.Faults.{Rose};
ghost use Rattle.mv_core.specs.Lookups.{kept_at};
ghost use Rattle.script_meaning.specs.Dump as spec;

use crate::line::{cell_line, heading_line, slot_line, value_line};
use aw_body::Body;
use aw_cell::Text;
use aw_disk::Disk;
use aw_io::{Sink, SinkFault, put_all};
use aw_schema::Catalogue;
use aw_store::Store;
use aw_var::Variable;

// Writes the values of a dimension.
fn write_values<K: Sink>(values: &[(u16, Text)], out: &mut K) -> Result<(), SinkFault>
    ensures ok { OnOk result (Grows (K.written out.old) (K.written out.new) (flat_map spec.value_line values.now)) }
    ensures err { OnErr result (GrowsByFront (K.written out.old) (K.written out.new) (flat_map spec.value_line values.now)) }
    ensures later { K.faults out.old ≤ K.faults out.new }
    ensures cause { OnErr result (Rose (K.faults out.old) (K.faults out.new)) }
{
    for (at, (slot, name)) in values.iter().enumerate() {
        let line = value_line(*slot, name);
        put_all(out, line.as_slice())?;
    }
    Ok(())
}

// Writes the slots of a valueset.
fn write_slots<K: Sink>(slots: &[u16], out: &mut K) -> Result<(), SinkFault>
    ensures ok { OnOk result (Grows (K.written out.old) (K.written out.new) (flat_map spec.slot_line slots.now)) }
    ensures err { OnErr result (GrowsByFront (K.written out.old) (K.written out.new) (flat_map spec.slot_line slots.now)) }
    ensures later { K.faults out.old ≤ K.faults out.new }
    ensures cause { OnErr result (Rose (K.faults out.old) (K.faults out.new)) }
{
    for (at, slot) in slots.iter().enumerate() {
        let line = slot_line(*slot);
        put_all(out, line.as_slice())?;
    }
    Ok(())
}

// Writes the cells of a variable or a relation.
fn write_cells<K: Sink>(cells: &Variable, out: &mut K) -> Result<(), SinkFault>
    ensures ok { OnOk result (Grows (K.written out.old) (K.written out.new) (flat_map spec.cell_line cells.now.cells)) }
    ensures err { OnErr result (GrowsByFront (K.written out.old) (K.written out.new) (flat_map spec.cell_line cells.now.cells)) }
    ensures later { K.faults out.old ≤ K.faults out.new }
    ensures cause { OnErr result (Rose (K.faults out.old) (K.faults out.new)) }
{
    for (key, cell) in cells.iter() {
        let line = cell_line(&key, &cell);
        put_all(out, line.as_slice())?;
    }
    Ok(())
}

// Writes a line for each value, slot or cell of a body.
fn write_body<K: Sink>(body: &Body, out: &mut K) -> Result<(), SinkFault>
    ensures ok { OnOk result (Grows (K.written out.old) (K.written out.new) (spec.body_lines body.now)) }
    ensures err { OnErr result (GrowsByFront (K.written out.old) (K.written out.new) (spec.body_lines body.now)) }
    ensures later { K.faults out.old ≤ K.faults out.new }
    ensures cause { OnErr result (Rose (K.faults out.old) (K.faults out.new)) }
{
    match body {
        Body::Dim(values) => write_values(values.entries(), out),
        Body::Rel(cells) => write_cells(cells, out),
        Body::Set(slots) => write_slots(slots.as_slice(), out),
        Body::Var(cells) => write_cells(cells, out),
    }
}

// Writes the heading of an object, and then its body.
fn write_object<K: Sink>(
    name: &Text,
    number: u64,
    body: &Body,
    out: &mut K,
) -> Result<(), SinkFault>
    ensures ok { OnOk result (Grows (K.written out.old) (K.written out.new) (spec.dumped_object name.now number body.now)) }
    ensures err { OnErr result (GrowsByFront (K.written out.old) (K.written out.new) (spec.dumped_object name.now number body.now)) }
    ensures later { K.faults out.old ≤ K.faults out.new }
    ensures cause { OnErr result (Rose (K.faults out.old) (K.faults out.new)) }
{
    let heading = heading_line(name, number, body);
    put_all(out, heading.as_slice())?;
    write_body(body, out)
}

// Writes an object of a store under its name, where it is kept.
fn write_kept<K: Sink, D: Disk>(
    name: &Text,
    store: &Store<D>,
    object: u16,
    out: &mut K,
) -> Result<(), SinkFault>
    ensures ok { OnOk result (Grows (K.written out.old) (K.written out.new) (spec.dumped_kept name.now (kept_at store.now.table.objects object))) }
    ensures err { OnErr result (GrowsByFront (K.written out.old) (K.written out.new) (spec.dumped_kept name.now (kept_at store.now.table.objects object))) }
    ensures later { K.faults out.old ≤ K.faults out.new }
    ensures cause { OnErr result (Rose (K.faults out.old) (K.faults out.new)) }
{
    if !store.keeps(object) {
        return Ok(());
    }
    let number = store.look(object).0;
    write_object(name, number, store.body(object), out)
}

/// Writes each object of a store that is kept, under the name of its definition.
pub fn write_objects<K: Sink, D: Disk>(
    catalogue: &Catalogue,
    store: &Store<D>,
    out: &mut K,
) -> Result<(), SinkFault>
    requires sized { length catalogue.now ≡ length store.now.table.objects }
    requires few { length catalogue.now ≤ 4096 }
    ensures ok { OnOk result (Grows (K.written out.old) (K.written out.new) (spec.dumped catalogue.now store.now.table.objects)) }
    ensures err { OnErr result (GrowsByFront (K.written out.old) (K.written out.new) (spec.dumped catalogue.now store.now.table.objects)) }
    ensures later { K.faults out.old ≤ K.faults out.new }
    ensures cause { OnErr result (Rose (K.faults out.old) (K.faults out.new)) }
{
    for object in 0..catalogue.len() as u16 {
        if let Some(def) = catalogue.def(object) {
            match write_kept(&def.name, store, object, out) {
                Ok(()) => {}
                Err(fault) => return Err(fault),
            }
        }
    }
    Ok(())
}
