//! Slots of a valueset.
ghost use Rattle.std.specs.Prelude.{◌≡◌, ◌++◌, ◌∷◌, [], length, false, IfOk, OnOk};
ghost use Rattle.aw_codec.specs.Formats.{many};
ghost use Rattle.aw_codec.specs.Parsing.{Gives, reading};
ghost use Rattle.aw_codec.specs.RecordFormat as format;
ghost use Rattle.aw_codec.specs.inside.Seen.{AreMarked, is_slot};

use crate::fields::{field_at, u32_at};
use crate::record::BadRecord;
use aw_body::BodyPatch;
use aw_lists::List;
use std::alloc::{AllocError, Global};

/// How many slots there are.
const SLOTS: usize = 65_536;

/// The slots that were read, and marks at them.
#[derive(Drop)]
struct SlotsRead {
    slots: Vec<u16>,
    marks: Vec<bool>,
}

impl SlotsRead {
    /// No slots.
    fn new(alloc: Global) -> Result<SlotsRead, AllocError>
        ensures none { IfOk result (λ read. read.slots.items ≡ []) }
        ensures all { IfOk result (λ read. length read.marks.items ≡ 65536) }
        ensures marked { IfOk result (λ read. AreMarked (is_slot []) read.marks.items) }
    {
        Ok(SlotsRead {
            slots: Vec::new(alloc),
            marks: no_marks(alloc, SLOTS)?,
        })
    }

    /// A slot that is none of these, and the offset behind it.
    #[tactic(auto, unfolding(crate::specs::RecordFormat::other_slot, crate::specs::Formats::number))]
    fn other_at(&self, bytes: &[u8], at: usize) -> Result<(u16, usize), BadRecord>
        requires all { length self.now.marks.items ≡ 65536 }
        requires marked { AreMarked (is_slot self.now.slots.items) self.now.marks.items }
        ensures { Gives (λ x. (x.0, x.1)) result (reading (format.other_slot self.now.slots.items) bytes.now at) }
    {
        let field = field_at(bytes, at, 2)?;
        let slot = u16::from_be_bytes([field[0], field[1]]);
        if self.marks[usize::from(slot)] {
            Err(BadRecord::At(at as u64))
        } else {
            Ok((slot, at + 2))
        }
    }

    /// Adds a slot.
    #[tactic(auto, using(crate::proofs::Held::slot_marked))]
    fn add(&mut self, slot: u16) -> Result<(), AllocError>
        requires all { length self.old.marks.items ≡ 65536 }
        requires marked { AreMarked (is_slot self.old.slots.items) self.old.marks.items }
        ensures slots { OnOk result (self.new.slots.items ≡ self.old.slots.items ++ slot ∷ []) }
        ensures all { OnOk result (length self.new.marks.items ≡ 65536) }
        ensures marked { OnOk result (AreMarked (is_slot (self.old.slots.items ++ slot ∷ [])) self.new.marks.items) }
    {
        self.slots.push(slot)?;
        self.marks[usize::from(slot)] = true;
        Ok(())
    }
}

/// So many marks that aren't set.
#[tactic(auto, using(crate::proofs::Held::unmarked))]
pub fn no_marks(alloc: Global, count: usize) -> Result<Vec<bool>, AllocError>
    ensures size { IfOk result (λ marks. length marks.items ≡ count) }
    ensures clear { IfOk result (λ marks. AreMarked (λ _. false) marks.items) }
{
    vec![in alloc; false; count]
}

/// So many slots of which none comes twice, and the offset behind them.
fn other_slots_at(
    alloc: Global,
    bytes: &[u8],
    at: usize,
    count: u32,
) -> Result<(List<u16>, usize), BadRecord>
    ensures { Gives (λ x. (x.0, x.1)) result (reading (many format.other_slot count []) bytes.now at) }
{
    let mut read = SlotsRead::new(alloc)?;
    let mut behind = at;
    for _ in 0..count {
        let (slot, after) = read.other_at(bytes, behind)?;
        read.add(slot)?;
        behind = after;
    }
    Ok((List::from_vec(read.slots), behind))
}

/// What stands behind the letter of a patch of slots, and the offset behind it.
#[tactic(auto, using(crate::proofs::Readings::reading_bind), unfolding(crate::specs::RecordFormat::slots))]
pub fn slots_at(alloc: Global, bytes: &[u8], at: usize) -> Result<(BodyPatch, usize), BadRecord>
    ensures { Gives (λ x. (x.0, x.1)) result (reading format.slots bytes.now at) }
{
    let (count, at) = u32_at(bytes, at, 0)?;
    let (slots, at) = other_slots_at(alloc, bytes, at, count)?;
    Ok((BodyPatch::Slots(slots), at))
}
