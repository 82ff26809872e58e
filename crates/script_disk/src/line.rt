ghost use Rattle.std.specs.Prelude.{◌≡◌, ◌≤◌, ◌+◌, ◌*◌, ◌++◌, length};
ghost use Rattle.arrayvec.specs.ArrayVec.{array_vec_len};
ghost use Rattle.script_meaning.specs.Dump as spec;
ghost use Rattle.script_disk.specs.WhyUnopened.{damaged};

use arrayvec::ArrayVec;
use aw_body::Body;
use aw_cell::{Cell, Text};
use aw_lists::Coord;
use itoa::Buffer;

/// Bytes on the stack, with room for each line that is written of a workspace.
pub type Line = ArrayVec<u8, 192>;

// Appends bytes for which there is room.
fn append(line: &mut Line, bytes: &[u8])
    requires { array_vec_len line.old + length bytes.now ≤ 192 }
    ensures items { line.new.items ≡ line.old.items ++ bytes.now }
    ensures len { array_vec_len line.new ≡ array_vec_len line.old + length bytes.now }
{
    line.try_extend_from_slice(bytes).unwrap();
}

/// The line of a workspace that is damaged at this offset.
pub fn damaged_line(offset: u64) -> Line
    ensures { result.items ≡ damaged offset }
{
    let mut line = Line::new();
    append(&mut line, b"DAMAGED ");
    append(&mut line, Buffer::new().format(offset).as_bytes());
    append(&mut line, b"\n");
    line
}

// How many values, slots or cells a body has, and the next slot of a dimension.
fn append_counts(line: &mut Line, body: &Body)
    requires { array_vec_len line.old ≤ 110 }
    ensures items { line.new.items ≡ line.old.items ++ spec.counted body.now }
    ensures len { array_vec_len line.new ≤ array_vec_len line.old + 81 }
{
    match body {
        Body::Dim(values) => {
            append(line, Buffer::new().format(values.len()).as_bytes());
            append(line, b" ");
            append(line, Buffer::new().format(values.next()).as_bytes());
        }
        Body::Rel(cells) => append(line, Buffer::new().format(cells.len()).as_bytes()),
        Body::Set(slots) => append(line, Buffer::new().format(slots.len()).as_bytes()),
        Body::Var(cells) => append(line, Buffer::new().format(cells.len()).as_bytes()),
    }
}

/// The first line of an object: its name, the number of its latest generation, and the counts.
#[tactic(auto, using(crate::proofs::Lines::text_fits))]
pub fn heading_line(name: &Text, number: u64, body: &Body) -> Line
    ensures { result.items ≡ spec.heading name.now number (spec.counted body.now) }
{
    let mut line = Line::new();
    append(&mut line, name.bytes());
    append(&mut line, b" ");
    append(&mut line, Buffer::new().format(number).as_bytes());
    append(&mut line, b" ");
    append_counts(&mut line, body);
    append(&mut line, b"\n");
    line
}

/// The line of a value of a dimension.
#[tactic(auto, using(crate::proofs::Lines::text_fits))]
pub fn value_line(slot: u16, name: &Text) -> Line
    ensures { result.items ≡ spec.value_line (slot, name.now) }
{
    let mut line = Line::new();
    append(&mut line, b"  ");
    append(&mut line, Buffer::new().format(slot).as_bytes());
    append(&mut line, b" ");
    append(&mut line, name.bytes());
    append(&mut line, b"\n");
    line
}

/// The line of a slot of a valueset.
pub fn slot_line(slot: u16) -> Line
    ensures { result.items ≡ spec.slot_line slot }
{
    let mut line = Line::new();
    append(&mut line, b"  ");
    append(&mut line, Buffer::new().format(slot).as_bytes());
    append(&mut line, b"\n");
    line
}

// The slots of a key, each with a blank behind it.
fn append_key(line: &mut Line, slots: &[u16])
    requires { array_vec_len line.old + 6 * length slots.now ≤ 192 }
    ensures items { line.new.items ≡ line.old.items ++ spec.key_text slots.now }
    ensures len { array_vec_len line.new ≤ array_vec_len line.old + 6 * length slots.now }
{
    for (at, slot) in slots.iter().enumerate() {
        append(line, Buffer::new().format(*slot).as_bytes());
        append(line, b" ");
    }
}

/// The line of a cell, behind its key.
pub fn cell_line(key: &Coord, cell: &Cell) -> Line
    ensures { result.items ≡ spec.cell_line (key.now, cell.now) }
{
    let mut line = Line::new();
    append(&mut line, b"  ");
    append_key(&mut line, key.slots());
    append(&mut line, b"= ");
    let mut text = [0; 64];
    let size = cell.write(&mut text);
    append(&mut line, &text[..size]);
    append(&mut line, b"\n");
    line
}
