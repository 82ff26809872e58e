ghost use Rattle.std.specs.Prelude.{◌≡◌, ◌≤◌, ◌++◌, ◌∷◌, [], ℕ, List, length, Some, IfSome, IfOk, IsErr, IsErrOf, OnOk, IsTrue, ◌↔◌};
ghost use Rattle.aw_disk.specs.Calls.{Written};
ghost use Rattle.aw_disk.specs.Images.{TornFrom};
ghost use Rattle.aw_lists.specs.Faults.{Rose};
ghost use Rattle.aw_journal.specs.Format.{head, IsFormatted};
ghost use Rattle.aw_journal.specs.CrashPayloads.{AllHold};
ghost use Rattle.aw_journal.specs.Passed.{Passed};
ghost use Rattle.aw_journal.specs.Undisturbed.{Undisturbed};

use crate::fault::FormatFault;
use crate::put::put;
use crate::read::HEAD;
use aw_disk::{Disk, Failed};

// The head, and a closed gate.
const EMPTY: [u8; 9] = *b"OLAPMW1\n\0";

fn is_formatted<D: Disk>(disk: &mut D) -> Result<bool, Failed>
    ensures ok { IfOk result (λ formatted. IfSome (D.content disk.old) (λ content. IsTrue formatted ↔ IsFormatted content)) }
    ensures reads { Undisturbed D.content D.faults D.clock D.crash disk.old disk.new }
    ensures cause { IsErr result → Rose (D.faults disk.old) (D.faults disk.new) }
{
    let mut start = [0u8; 9];
    match disk.read_at(0, &mut start) {
        Ok(count) => Ok(count == 9 && start[..8] == HEAD[..]),
        Err(failed) => Err(failed),
    }
}

/// Writes a journal without payloads, by docs/FORMATS.md, 'The journal': the head and a closed gate
/// over the first 9 bytes, and a sync. A disk of at least 9 bytes with the head is as before, whatever
/// the answer. `AlreadyFormatted`: the disk is such a one. `DiskFault`: the disk failed.
pub fn format<D: Disk>(disk: &mut D) -> Result<(), FormatFault>
    ensures ok { OnOk result (IfSome (D.content disk.old) (λ content. ¬ (IsFormatted content))) }
    ensures formatted { IsErrOf result FormatFault.AlreadyFormatted → IfSome (D.content disk.old) IsFormatted }
    ensures kept { IfSome (D.content disk.old) (λ content. IsFormatted content → Undisturbed D.content D.faults D.clock D.crash disk.old disk.new) }
    ensures unchanged { IsErrOf result FormatFault.AlreadyFormatted → Undisturbed D.content D.faults D.clock D.crash disk.old disk.new }
    ensures written { OnOk result (Written 0 (head ++ 0 ∷ []) (D.content disk.old) (D.content disk.new)) }
    ensures durable { OnOk result ((image : List ℕ) → D.crash disk.new (D.clock disk.new) image → D.content disk.new ≡ Some image) }
    ensures empty { OnOk result (AllHold (D.crash disk.new (D.clock disk.new)) []) }
    ensures moments { Passed (D.clock disk.old) (D.clock disk.new) (D.crash disk.old) (D.crash disk.new) (TornFrom 0 9 (D.crash disk.old (D.clock disk.old))) }
    ensures later { D.faults disk.old ≤ D.faults disk.new }
    ensures cause { IsErrOf result FormatFault.DiskFault → Rose (D.faults disk.old) (D.faults disk.new) }
{
    match is_formatted(disk) {
        Ok(true) => return Err(FormatFault::AlreadyFormatted),
        Ok(false) => {}
        Err(_) => return Err(FormatFault::DiskFault),
    }
    match put(disk, 0, &EMPTY) {
        Ok(()) => Ok(()),
        Err(_) => Err(FormatFault::DiskFault),
    }
}
