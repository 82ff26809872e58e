ghost use Rattle.std.specs.Prelude.{◌≡◌, ◌<◌, ◌≤◌, IfOk, length, vec_len};
ghost use Rattle.aw_lists.specs.Faults.{Rose};
ghost use Rattle.script_play.specs.declared.ending.Ending.TheVariants as ending;
ghost use Rattle.script_play.specs.inside.StoreWorlds.{IsSound};
ghost use Rattle.script_play.specs.inside.Playing.{play_of, opened_play};
ghost use Rattle.script_play.specs.inside.ScriptReading.{EndsFrom, FinishesBy};
ghost use Rattle.script_play.specs.Runs.{streams, run_of, Ends, Plays};
ghost use Rattle.script_play.specs.inside.Telling.{HasTold, listening_by};

use crate::ending::Ending;
use crate::player::Player;
use crate::reading::{ending_of, read};
use crate::world::StoreWorld;
use aw_disk::Disk;
use aw_feed::{Feed, Listener, Listeners};
use aw_io::{Sink, Source};
use aw_lists::List;
use aw_schema::Catalogue;
use aw_store::Store;
use core::mem::replace_with;
use script_disk::open;
use ses_step::Names;
use std::alloc::{AllocError, Global};

/// How many bytes of the script are asked for at a time.
const PIECE: usize = 65_536;

fn buffer(alloc: Global) -> Result<Vec<u8>, AllocError>
    ensures { IfOk result (λ bytes. vec_len bytes ≡ 65536) }
{
    vec![in alloc; 0; PIECE]
}

/// The script has ended: answers its last line, and writes what was only defined.
fn finish<D: Disk, K: Sink>(player: &mut Player<Store<D>>, out: &mut K, feed: &mut Feed) -> Ending
    requires { IsSound player.old.world }
    ensures finishes { FinishesBy D.faults D.clock D.crash result (play_of player.old) (K.written out.old) player.new.world.store (K.written out.new) }
    ensures later { K.faults out.old ≤ K.faults out.new }
    ensures cause { result ≡ ending.SinkFault → Rose (K.faults out.old) (K.faults out.new) }
    ensures told { HasTold (⟦<Feed as Listeners>⟧.listening feed.old) (⟦<Feed as Listeners>⟧.listening feed.new) player.old.world.store player.new.world.store }
{
    match player.finish(out, feed) {
        Ok(false) => Ending::Accepted,
        Ok(true) => Ending::Refusing,
        Err(stop) => ending_of(stop),
    }
}

/// Plays a script with a player and a buffer that were made for it.
fn play_with<D: Disk, S: Source, K: Sink>(
    player: &mut Player<Store<D>>,
    buffer: &mut [u8],
    script: &mut S,
    out: &mut K,
    feed: &mut Feed,
) -> Ending
    requires sound { IsSound player.old.world }
    requires room { 0 < length buffer.old }
    ensures ends { EndsFrom D.faults D.clock D.crash (play_of player.old) result (streams (S.left script.old) (S.left script.new) (K.written out.old) (K.written out.new)) player.new.world.store }
    ensures source_later { S.faults script.old ≤ S.faults script.new }
    ensures sink_later { K.faults out.old ≤ K.faults out.new }
    ensures source_cause { result ≡ ending.SourceFault → Rose (S.faults script.old) (S.faults script.new) }
    ensures sink_cause { result ≡ ending.SinkFault → Rose (K.faults out.old) (K.faults out.new) }
    ensures told { HasTold (⟦<Feed as Listeners>⟧.listening feed.old) (⟦<Feed as Listeners>⟧.listening feed.new) player.old.world.store player.new.world.store }
{
    match read(player, buffer, script, out, feed) {
        Ok(()) => finish(player, out, feed),
        Err(ending) => ending,
    }
}

/// How a run ended, and the store that it left.
#[derive(Drop)]
struct Ended<S> {
    ending: Ending,
    store: S,
}

/// Plays a script over a store that was just loaded.
fn play_over<D: Disk, S: Source, K: Sink>(
    alloc: Global,
    script: &mut S,
    out: &mut K,
    store: Store<D>,
    feed: &mut Feed,
) -> Ended<Store<D>>
    ensures ends { EndsFrom D.faults D.clock D.crash (opened_play store) result.ending (streams (S.left script.old) (S.left script.new) (K.written out.old) (K.written out.new)) result.store }
    ensures source_later { S.faults script.old ≤ S.faults script.new }
    ensures sink_later { K.faults out.old ≤ K.faults out.new }
    ensures source_cause { result.ending ≡ ending.SourceFault → Rose (S.faults script.old) (S.faults script.new) }
    ensures sink_cause { result.ending ≡ ending.SinkFault → Rose (K.faults out.old) (K.faults out.new) }
    ensures told { HasTold (⟦<Feed as Listeners>⟧.listening feed.old) (⟦<Feed as Listeners>⟧.listening feed.new) store result.store }
{
    let mut buffer = match buffer(alloc) {
        Ok(buffer) => buffer,
        Err(_) => {
            return Ended {
                ending: Ending::NoMemory,
                store,
            };
        }
    };
    let world = StoreWorld {
        drafted: Catalogue::new(alloc),
        open_lines: List::new(alloc),
        store,
        names: Names::new(alloc),
        sessions: List::new(alloc),
    };
    let mut player = Player::new(alloc, world);
    let ending = play_with(&mut player, buffer.as_mut_slice(), script, out, feed);
    Ended {
        ending,
        store: player.into_store(),
    }
}

/// The status of a run, and the disk that it left.
#[derive(Drop)]
struct Ran<D> {
    status: u8,
    disk: D,
}

/// Opens a disk, and plays a script on it.
fn play_opened<D: Disk, S: Source, K: Sink>(
    alloc: Global,
    script: &mut S,
    out: &mut K,
    disk: D,
    feed: &mut Feed,
) -> Ran<D>
    ensures ends { Ends (run_of S.left S.faults K.written K.faults D.content D.faults D.clock D.crash script.old script.new out.old out.new disk result.disk (⟦<Feed as Listeners>⟧.listening feed.old) (⟦<Feed as Listeners>⟧.listening feed.new)) result.status }
    ensures source_later { S.faults script.old ≤ S.faults script.new }
    ensures sink_later { K.faults out.old ≤ K.faults out.new }
    ensures disk_later { D.faults disk ≤ D.faults result.disk }
    ensures source_cause { result.status ≡ 3 → Rose (S.faults script.old) (S.faults script.new) }
    ensures sink_cause { result.status ≡ 4 → Rose (K.faults out.old) (K.faults out.new) }
    ensures disk_cause { result.status ≡ 5 → Rose (D.faults disk) (D.faults result.disk) }
{
    match open(alloc, disk, out) {
        Ok(store) => {
            store.recall_invariant();
            let ended = play_over(alloc, script, out, store, feed);
            Ran {
                status: ended.ending.status(),
                disk: ended.store.into_disk(),
            }
        }
        Err((why, disk)) => Ran {
            status: why.status(),
            disk,
        },
    }
}

/// What a run needs beside the disk. It is handed back, so that a caller knows the devices again.
#[derive(Drop)]
struct Devices<'a, S, K> {
    alloc: Global,
    script: &'a mut S,
    out: &'a mut K,
    feed: &'a mut Feed,
}

fn play_disk<'a, D: Disk, S: Source, K: Sink>(
    disk: D,
    devices: Devices<'a, S, K>,
) -> (D, (u8, Devices<'a, S, K>))
    ensures same_source { result.1.1.script.ghost_name ≡ devices.entry.script.ghost_name }
    ensures same_sink { result.1.1.out.ghost_name ≡ devices.entry.out.ghost_name }
    ensures same_feed { result.1.1.feed.ghost_name ≡ devices.entry.feed.ghost_name }
    ensures plays { Plays (run_of S.left S.faults K.written K.faults D.content D.faults D.clock D.crash devices.entry.script.now result.1.1.script.now devices.entry.out.now result.1.1.out.now disk result.0 (⟦<Feed as Listeners>⟧.listening devices.entry.feed.now) (⟦<Feed as Listeners>⟧.listening result.1.1.feed.now)) result.1.0 }
    ensures source_later { S.faults devices.entry.script.now ≤ S.faults result.1.1.script.now }
    ensures sink_later { K.faults devices.entry.out.now ≤ K.faults result.1.1.out.now }
    ensures disk_later { D.faults disk ≤ D.faults result.0 }
    ensures source_cause { result.1.0 ≡ 3 → Rose (S.faults devices.entry.script.now) (S.faults result.1.1.script.now) }
    ensures sink_cause { result.1.0 ≡ 4 → Rose (K.faults devices.entry.out.now) (K.faults result.1.1.out.now) }
    ensures disk_cause { result.1.0 ≡ 5 → Rose (D.faults disk) (D.faults result.0) }
{
    let Devices {
        alloc,
        script,
        out,
        feed,
    } = devices;
    let Ran { status, disk } = play_opened(alloc, script, out, disk, feed);
    let devices = Devices {
        alloc,
        script,
        out,
        feed,
    };
    (disk, (status, devices))
}

/// Opens a disk, plays a script on it, and answers the status.
pub fn play<D: Disk, S: Source, K: Sink>(
    alloc: Global,
    script: &mut S,
    out: &mut K,
    disk: &mut D,
    feed: &mut Feed,
) -> u8
    ensures plays { Plays (run_of S.left S.faults K.written K.faults D.content D.faults D.clock D.crash script.old script.new out.old out.new disk.old disk.new (⟦<Feed as Listeners>⟧.listening feed.old) (⟦<Feed as Listeners>⟧.listening feed.new)) result }
    ensures source_later { S.faults script.old ≤ S.faults script.new }
    ensures sink_later { K.faults out.old ≤ K.faults out.new }
    ensures disk_later { D.faults disk.old ≤ D.faults disk.new }
    ensures source_cause { result ≡ 3 → Rose (S.faults script.old) (S.faults script.new) }
    ensures sink_cause { result ≡ 4 → Rose (K.faults out.old) (K.faults out.new) }
    ensures disk_cause { result ≡ 5 → Rose (D.faults disk.old) (D.faults disk.new) }
{
    // The store owns the disk while it is open.
    let devices = Devices {
        alloc,
        script,
        out,
        feed,
    };
    let (status, _) = replace_with(
        disk,
        devices,
        |disk, devices| -> (D, (u8, Devices<'_, S, K>))
            ensures same_source { result.1.1.script.ghost_name ≡ devices.entry.script.ghost_name }
            ensures same_sink { result.1.1.out.ghost_name ≡ devices.entry.out.ghost_name }
            ensures same_feed { result.1.1.feed.ghost_name ≡ devices.entry.feed.ghost_name }
            ensures plays { Plays (run_of S.left S.faults K.written K.faults D.content D.faults D.clock D.crash devices.entry.script.now result.1.1.script.now devices.entry.out.now result.1.1.out.now disk result.0 (listening_by devices.entry.feed.now.listeners.items (λ listener. record { told = told (listener.vtable, listener.value); last = last (listener.vtable, listener.value) })) (listening_by result.1.1.feed.now.listeners.items (λ listener. record { told = told (listener.vtable, listener.value); last = last (listener.vtable, listener.value) }))) result.1.0 }
            ensures source_later { S.faults devices.entry.script.now ≤ S.faults result.1.1.script.now }
            ensures sink_later { K.faults devices.entry.out.now ≤ K.faults result.1.1.out.now }
            ensures disk_later { D.faults disk ≤ D.faults result.0 }
            ensures source_cause { result.1.0 ≡ 3 → Rose (S.faults devices.entry.script.now) (S.faults result.1.1.script.now) }
            ensures sink_cause { result.1.0 ≡ 4 → Rose (K.faults devices.entry.out.now) (K.faults result.1.1.out.now) }
            ensures disk_cause { result.1.0 ≡ 5 → Rose (D.faults disk) (D.faults result.0) }
        { play_disk(disk, devices) },
    );
    status
}
