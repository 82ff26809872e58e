ghost use Rattle.std.specs.Prelude.{◌≡◌, ◌++◌, length, replicate, reverse, take_while, OnOk};
ghost use Rattle.aw_disk.specs.Images.{overwritten};
ghost use Rattle.aw_disk.specs.Covered.{is_write, synced_count};
ghost use Rattle.aw_disk.specs.inside.PickedImages.{picked, left_by};

use crate::NoMemory;
use crate::placing::overwrite;
use crate::step::{Pick, Step};

fn writes_at_end(steps: &[Step]) -> usize
    ensures { result ≡ length (take_while is_write (reverse steps.now)) }
{
    steps
        .iter()
        .rev()
        .take_while(|step| matches!(step, Step::Write(..)))
        .count()
}

/// How many steps there are up to the last sync, that one included.
pub fn steps_to_last_sync(steps: &[Step]) -> usize
    ensures { result ≡ synced_count steps.now }
{
    steps.len() - writes_at_end(steps)
}

/// Puts the picked bytes in the range of each write.
pub fn leave_all(image: &mut Vec<u8>, pick: Pick, steps: &[Step]) -> Result<(), NoMemory>
    ensures { OnOk result (image.new.items ≡ left_by pick image.old.items steps.now) }
{
    for step in steps {
        if let Step::Write(offset, bytes) = step {
            leave(image, pick, *offset, bytes.as_slice())?;
        }
    }
    Ok(())
}

// Puts the picked bytes in the range of a write.
fn leave(image: &mut Vec<u8>, pick: Pick, offset: u64, bytes: &[u8]) -> Result<(), NoMemory>
    ensures { OnOk result (image.new.items ≡ picked pick image.old.items offset bytes.now) }
{
    match pick {
        Pick::Kept => write_over(image, offset, bytes),
        Pick::Old => {
            let missing = (offset as usize)
                .saturating_add(bytes.len())
                .saturating_sub(image.len());
            fill(image, missing, 0)
        }
        Pick::Fill(byte) => {
            let mut filled = Vec::new(*image.allocator());
            fill(&mut filled, bytes.len(), byte)?;
            write_over(image, offset, filled.as_slice())
        }
    }
}

fn fill(bytes: &mut Vec<u8>, count: usize, byte: u8) -> Result<(), NoMemory>
    ensures { OnOk result (bytes.new.items ≡ bytes.old.items ++ replicate count byte) }
{
    let len = bytes.len();
    if count > usize::MAX - len {
        return Err(NoMemory);
    }
    bytes.resize(len + count, byte)
}

fn write_over(bytes: &mut Vec<u8>, offset: u64, with: &[u8]) -> Result<(), NoMemory>
    ensures { OnOk result (bytes.new.items ≡ overwritten bytes.old.items offset with.now) }
{
    bytes.reserve(with.len())?;
    let place = bytes.len().min(offset as usize);
    overwrite(bytes, place, with);
    Ok(())
}
