ghost use Rattle.std.specs.Prelude.{◌≡◌, ◌≤◌, ℕ, List, length, Some, IfSome, OnOk, IsErr};
ghost use Rattle.aw_disk.specs.Calls.{Written};
ghost use Rattle.aw_disk.specs.Images.{TornFrom};
ghost use Rattle.aw_lists.specs.Faults.{Rose};
ghost use Rattle.aw_journal.specs.Passed.{Passed};

use aw_disk::{Disk, Failed};

/// Writes these bytes and syncs. `Failed`: the disk failed at one of the two.
pub fn put<D: Disk>(disk: &mut D, offset: u64, bytes: &[u8]) -> Result<(), Failed>
    requires { IfSome (D.content disk.old) (λ content. offset ≤ length content) }
    ensures written { OnOk result (Written offset bytes.now (D.content disk.old) (D.content disk.new)) }
    ensures durable { OnOk result ((image : List ℕ) → D.crash disk.new (D.clock disk.new) image → D.content disk.new ≡ Some image) }
    ensures moments { Passed (D.clock disk.old) (D.clock disk.new) (D.crash disk.old) (D.crash disk.new) (TornFrom offset (length bytes.now) (D.crash disk.old (D.clock disk.old))) }
    ensures later { D.faults disk.old ≤ D.faults disk.new }
    ensures cause { IsErr result → Rose (D.faults disk.old) (D.faults disk.new) }
{
    match disk.write_at(offset, bytes) {
        Ok(()) => disk.sync(),
        Err(failed) => Err(failed),
    }
}
