ghost use Rattle.std.specs.Prelude.{◌≡◌, ◌≤◌};
ghost use Rattle.aw_lists.specs.Faults.{Rose};
ghost use Rattle.script_disk.specs.Made.{Makes};

use crate::saying::say;
use aw_disk::Disk;
use aw_io::Sink;
use aw_journal::{FormatFault, format};

const DONE: &[u8] = b"ok\n";

const ALREADY_A_WORKSPACE: &[u8] = b"ALREADY A WORKSPACE\n";

/// Makes a workspace without definitions of a disk, for the word `new`, and writes how that went
/// (docs/FORMATS.md, "The texts of a workspace"). The answer is the status of the run:
///
/// - 0: the head and a closed gate stand over the first 9 bytes and are on the disk, and `ok` is
///   written.
/// - 4: the sink failed. A front of what was due at 0 or at 9 is written.
/// - 5: the disk failed. Nothing is written.
/// - 9: the disk has at least 9 bytes and the head, and is as before. `ALREADY A WORKSPACE` is written.
pub fn make<K: Sink, D: Disk>(disk: &mut D, out: &mut K) -> u8
    ensures makes { Makes D.content D.faults D.clock D.crash disk.old disk.new (K.written out.old) (K.written out.new) result }
    ensures disk_later { D.faults disk.old ≤ D.faults disk.new }
    ensures sink_later { K.faults out.old ≤ K.faults out.new }
    ensures disk_cause { result ≡ 5 → Rose (D.faults disk.old) (D.faults disk.new) }
    ensures sink_cause { result ≡ 4 → Rose (K.faults out.old) (K.faults out.new) }
{
    match format(disk) {
        Ok(()) => say(0, DONE, out),
        Err(FormatFault::AlreadyFormatted) => say(9, ALREADY_A_WORKSPACE, out),
        Err(FormatFault::DiskFault) => 5,
    }
}
