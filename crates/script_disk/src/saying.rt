ghost use Rattle.std.specs.Prelude.{◌≡◌, ◌≤◌, ◌⊎◌};
ghost use Rattle.aw_lists.specs.Faults.{Rose};
ghost use Rattle.script_disk.specs.Texts.{Says};

use aw_io::{Sink, put_all};

/// Writes a text that is due with this status, and answers the status, or 4 where the sink failed.
pub fn say<K: Sink>(due: u8, text: &[u8], out: &mut K) -> u8
    ensures says { Says due text.now result (K.written out.old) (K.written out.new) }
    ensures later { K.faults out.old ≤ K.faults out.new }
    ensures cause { result ≡ 4 → (due ≡ 4) ⊎ Rose (K.faults out.old) (K.faults out.new) }
{
    match put_all(out, text) {
        Ok(()) => due,
        Err(_) => 4,
    }
}
