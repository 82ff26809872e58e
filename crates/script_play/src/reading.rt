ghost use Rattle.std.specs.Prelude.{◌≡◌, ◌≤◌, ◌<◌, length, OnOk, Err};
ghost use Rattle.aw_lists.specs.Faults.{Rose};
ghost use Rattle.script_play.specs.declared.ending.Ending.TheVariants as ending;
ghost use Rattle.script_play.specs.inside.StoreWorlds.{IsSound};
ghost use Rattle.script_play.specs.inside.Playing.{play_of};
ghost use Rattle.script_play.specs.inside.ScriptReading.{ReadsFrom, EndsOrFails, stop_ending};
ghost use Rattle.script_play.specs.Runs.{streams};
ghost use Rattle.script_play.specs.inside.Telling.{HasTold};

use crate::ending::Ending;
use crate::player::Player;
use crate::stop::Stop;
use aw_disk::Disk;
use aw_feed::{Feed, Listeners};
use aw_io::{Sink, Source, Took};
use aw_store::Store;

/// How many bytes a script may have.
pub const MOST_BYTES: usize = 67_108_864;

/// The ending of a run that a player stopped.
pub fn ending_of(stop: Stop) -> Ending
    ensures { result ≡ stop_ending stop }
{
    match stop {
        Stop::SinkFault => Ending::SinkFault,
        Stop::DiskFault => Ending::DiskFault,
        Stop::NoMemory => Ending::NoMemory,
    }
}

/// After as many bytes as a script may have: whether another one comes.
fn expect_end<S: Source>(script: &mut S) -> Result<(), Ending>
    ensures ends { EndsOrFails result (S.left script.old) (S.left script.new) }
    ensures later { S.faults script.old ≤ S.faults script.new }
    ensures cause { result ≡ Err ending.SourceFault → Rose (S.faults script.old) (S.faults script.new) }
{
    let mut next = [0];
    match script.take(&mut next) {
        Took::Got(_) => Err(Ending::TooLong),
        Took::End => Ok(()),
        Took::Failed => Err(Ending::SourceFault),
    }
}

/// Reads a script to its end in pieces that fit the buffer, and plays each piece before the next is
/// taken. An `Err` tells how the run ends without the script's end.
pub fn read<D: Disk, S: Source, K: Sink>(
    player: &mut Player<Store<D>>,
    buffer: &mut [u8],
    script: &mut S,
    out: &mut K,
    feed: &mut Feed,
) -> Result<(), Ending>
    requires sound { IsSound player.old.world }
    requires room { 0 < length buffer.old }
    ensures reads { ReadsFrom D.faults D.clock D.crash (play_of player.old) result (streams (S.left script.old) (S.left script.new) (K.written out.old) (K.written out.new)) (play_of player.new) }
    ensures sound { OnOk result (IsSound player.new.world) }
    ensures source_later { S.faults script.old ≤ S.faults script.new }
    ensures sink_later { K.faults out.old ≤ K.faults out.new }
    ensures source_cause { result ≡ Err ending.SourceFault → Rose (S.faults script.old) (S.faults script.new) }
    ensures sink_cause { result ≡ Err ending.SinkFault → Rose (K.faults out.old) (K.faults out.new) }
    ensures told { HasTold (⟦<Feed as Listeners>⟧.listening feed.old) (⟦<Feed as Listeners>⟧.listening feed.new) player.old.world.store player.new.world.store }
{
    let mut room = MOST_BYTES;
    while room > 0 {
        let len = buffer.len().min(room);
        let piece = &mut buffer[..len];
        match script.take(piece) {
            Took::Got(count) => {
                match player.play_bytes(&piece[..count], out, feed) {
                    Ok(()) => {}
                    Err(stop) => return Err(ending_of(stop)),
                }
                room -= count;
            }
            Took::End => return Ok(()),
            Took::Failed => return Err(Ending::SourceFault),
        }
    }
    expect_end(script)
}
