ghost use Rattle.std.specs.Prelude.{◌≡◌, ◌∷◌, ◌≤◌, [], false, OnOk, Ok, Err};
ghost use Rattle.std.specs.Str.Lines.{strip_carriage_return};
ghost use Rattle.aw_lists.specs.Faults.{Rose};
ghost use Rattle.script_play.specs.inside.StoreWorlds.{IsSound};
ghost use Rattle.script_world.specs.Worlds.{block_ends, line as event_line};
ghost use Rattle.script_play.specs.inside.Playing.{WritesSo, WritesResponse, RespondedSo, FeedsSo, EndsLinesSo, EndsBlockSo, FinishesSo, play_of};
ghost use Rattle.script_play.specs.inside.Telling.{HasTold};

use crate::response::Response;
use crate::stop::Stop;
use crate::world::StoreWorld;
use aw_disk::Disk;
use aw_feed::{Feed, Listeners};
use aw_io::{Sink, put_all};
use aw_store::Store;
use ses_step::append_line;
use std::alloc::Global;

/// Plays the bytes of a script as they come: each line is answered once its end has come.
#[derive(Drop)]
pub struct Player<S> {
    alloc: Global,
    world: StoreWorld<S>,
    line: Vec<u8>,
    refused: bool,
    /// What is to be written for the line that ended.
    text: Vec<u8>,
}

/// A line without the carriage return at its end.
fn without_return(line: &[u8]) -> &[u8]
    ensures { result.now ≡ strip_carriage_return line.now }
{
    let len = line.len();
    if len > 0 && line[len - 1] == b'\r' {
        &line[..len - 1]
    } else {
        line
    }
}

/// Writes a response, and tells whether it is a refusal. An `Err` tells that the sink failed, or
/// that memory ran out; a front of the response is written then.
fn write<K: Sink>(
    alloc: Global,
    response: &Response,
    text: &mut Vec<u8>,
    out: &mut K,
) -> Result<bool, Stop>
    ensures writes { WritesSo response.now result (K.written out.old) (K.written out.new) }
    ensures later { K.faults out.old ≤ K.faults out.new }
    ensures cause { result ≡ Err Stop.SinkFault → Rose (K.faults out.old) (K.faults out.new) }
{
    text.clear();
    match append_line(alloc, text, &response.prefix, &response.answer) {
        Ok(()) => {}
        Err(_) => return Err(Stop::NoMemory),
    }
    match put_all(out, text.as_slice()) {
        Ok(()) => Ok(response.answer.is_refusal()),
        Err(_) => Err(Stop::SinkFault),
    }
}

/// Writes what a line or the end of a block is answered, and tells whether that is a refusal. After
/// an `Err` a front of the answer is written.
fn write_response<K: Sink>(
    alloc: Global,
    response: &Option<Response>,
    text: &mut Vec<u8>,
    out: &mut K,
) -> Result<bool, Stop>
    ensures writes { WritesResponse response.now result (K.written out.old) (K.written out.new) }
    ensures later { K.faults out.old ≤ K.faults out.new }
    ensures cause { result ≡ Err Stop.SinkFault → Rose (K.faults out.old) (K.faults out.new) }
{
    match response {
        Some(response) => match write(alloc, response, text, out) {
            Ok(refused) => Ok(refused),
            Err(stop) => Err(stop),
        },
        None => Ok(false),
    }
}

/// Answers a line, writes the answer, and tells whether the line is refused. After an `Err` a front
/// of the answer is written.
fn respond<D: Disk, K: Sink>(
    alloc: Global,
    world: &mut StoreWorld<Store<D>>,
    line: &[u8],
    text: &mut Vec<u8>,
    out: &mut K,
    feed: &mut Feed,
) -> Result<bool, Stop>
    requires { IsSound world.old }
    ensures responded { RespondedSo D.faults D.clock D.crash (event_line line.now) result world.old world.new (K.written out.old) (K.written out.new) }
    ensures sound { OnOk result (IsSound world.new) }
    ensures later { K.faults out.old ≤ K.faults out.new }
    ensures cause { result ≡ Err Stop.SinkFault → Rose (K.faults out.old) (K.faults out.new) }
    ensures told { HasTold (⟦<Feed as Listeners>⟧.listening feed.old) (⟦<Feed as Listeners>⟧.listening feed.new) world.old.store world.new.store }
{
    match world.answer(alloc, line, feed) {
        Ok(response) => match write_response(alloc, &response, text, out) {
            Ok(refused) => Ok(refused),
            Err(stop) => Err(stop),
        },
        Err(stop) => Err(stop),
    }
}

/// The script has ended: answers a definition that it left open, and tells whether it is refused.
fn respond_to_end<D: Disk, K: Sink>(
    alloc: Global,
    world: &mut StoreWorld<Store<D>>,
    text: &mut Vec<u8>,
    out: &mut K,
) -> Result<bool, Stop>
    requires { IsSound world.old }
    ensures responded { RespondedSo D.faults D.clock D.crash block_ends result world.old world.new (K.written out.old) (K.written out.new) }
    ensures sound { OnOk result (IsSound world.new) }
    ensures later { K.faults out.old ≤ K.faults out.new }
    ensures cause { result ≡ Err Stop.SinkFault → Rose (K.faults out.old) (K.faults out.new) }
    ensures store { world.new.store ≡ world.old.store }
{
    match world.end_block(alloc) {
        Ok(response) => match write_response(alloc, &response, text, out) {
            Ok(refused) => Ok(refused),
            Err(stop) => Err(stop),
        },
        Err(stop) => Err(stop),
    }
}

impl<D: Disk> Player<Store<D>> {
    /// A player in this world that was fed nothing.
    pub fn new(alloc: Global, world: StoreWorld<Store<D>>) -> Player<Store<D>>
        ensures fresh { play_of result ≡ record { world = world; line = []; refused = false } }
    {
        Player {
            alloc,
            world,
            line: Vec::new(alloc),
            refused: false,
            text: Vec::new(alloc),
        }
    }

    /// The store, as the player leaves it.
    pub fn into_store(self) -> Store<D>
        ensures { result ≡ self.world.store }
    {
        self.world.store
    }

    /// The line has ended: answers it.
    fn end_line<K: Sink>(&mut self, out: &mut K, feed: &mut Feed) -> Result<(), Stop>
        requires { IsSound self.old.world }
        ensures feeds { FeedsSo D.faults D.clock D.crash (10 ∷ []) result (play_of self.old) (K.written out.old) (play_of self.new) (K.written out.new) }
        ensures sound { OnOk result (IsSound self.new.world) }
        ensures later { K.faults out.old ≤ K.faults out.new }
        ensures cause { result ≡ Err Stop.SinkFault → Rose (K.faults out.old) (K.faults out.new) }
        ensures told { HasTold (⟦<Feed as Listeners>⟧.listening feed.old) (⟦<Feed as Listeners>⟧.listening feed.new) self.old.world.store self.new.world.store }
    {
        let line = without_return(self.line.as_slice());
        match respond(self.alloc, &mut self.world, line, &mut self.text, out, feed) {
            Ok(refused) => {
                self.refused |= refused;
                self.line.clear();
                Ok(())
            }
            Err(stop) => Err(stop),
        }
    }

    /// Plays one byte of the script.
    fn play_byte<K: Sink>(&mut self, byte: u8, out: &mut K, feed: &mut Feed) -> Result<(), Stop>
        requires { IsSound self.old.world }
        ensures feeds { FeedsSo D.faults D.clock D.crash (byte ∷ []) result (play_of self.old) (K.written out.old) (play_of self.new) (K.written out.new) }
        ensures sound { OnOk result (IsSound self.new.world) }
        ensures later { K.faults out.old ≤ K.faults out.new }
        ensures cause { result ≡ Err Stop.SinkFault → Rose (K.faults out.old) (K.faults out.new) }
        ensures told { HasTold (⟦<Feed as Listeners>⟧.listening feed.old) (⟦<Feed as Listeners>⟧.listening feed.new) self.old.world.store self.new.world.store }
    {
        if byte == b'\n' {
            return self.end_line(out, feed);
        }
        match self.line.push(byte) {
            Ok(()) => Ok(()),
            Err(_) => Err(Stop::NoMemory),
        }
    }

    /// Plays the next bytes of the script.
    pub fn play_bytes<K: Sink>(
        &mut self,
        bytes: &[u8],
        out: &mut K,
        feed: &mut Feed,
    ) -> Result<(), Stop>
        requires { IsSound self.old.world }
        ensures feeds { FeedsSo D.faults D.clock D.crash bytes.now result (play_of self.old) (K.written out.old) (play_of self.new) (K.written out.new) }
        ensures sound { OnOk result (IsSound self.new.world) }
        ensures later { K.faults out.old ≤ K.faults out.new }
        ensures cause { result ≡ Err Stop.SinkFault → Rose (K.faults out.old) (K.faults out.new) }
        ensures told { HasTold (⟦<Feed as Listeners>⟧.listening feed.old) (⟦<Feed as Listeners>⟧.listening feed.new) self.old.world.store self.new.world.store }
    {
        for byte in bytes {
            match self.play_byte(*byte, out, feed) {
                Ok(()) => {}
                Err(stop) => return Err(stop),
            }
        }
        Ok(())
    }

    /// The script has ended: answers its last line, where that has bytes, and tells whether any line
    /// was refused.
    fn end_lines<K: Sink>(&mut self, out: &mut K, feed: &mut Feed) -> Result<bool, Stop>
        requires { IsSound self.old.world }
        ensures ends { EndsLinesSo D.faults D.clock D.crash result (play_of self.old) (K.written out.old) self.new.world (K.written out.new) }
        ensures sound { OnOk result (IsSound self.new.world) }
        ensures later { K.faults out.old ≤ K.faults out.new }
        ensures cause { result ≡ Err Stop.SinkFault → Rose (K.faults out.old) (K.faults out.new) }
        ensures told { HasTold (⟦<Feed as Listeners>⟧.listening feed.old) (⟦<Feed as Listeners>⟧.listening feed.new) self.old.world.store self.new.world.store }
    {
        let line = self.line.as_slice();
        if line.is_empty() {
            return Ok(self.refused);
        }
        match respond(self.alloc, &mut self.world, line, &mut self.text, out, feed) {
            Ok(refused) => Ok(self.refused | refused),
            Err(stop) => Err(stop),
        }
    }

    /// The script has ended: answers its last line, where that has bytes, and a definition that is
    /// still open, and tells whether any line was refused.
    fn end_script<K: Sink>(&mut self, out: &mut K, feed: &mut Feed) -> Result<bool, Stop>
        requires { IsSound self.old.world }
        ensures ends { EndsBlockSo D.faults D.clock D.crash result (play_of self.old) (K.written out.old) self.new.world (K.written out.new) }
        ensures sound { OnOk result (IsSound self.new.world) }
        ensures later { K.faults out.old ≤ K.faults out.new }
        ensures cause { result ≡ Err Stop.SinkFault → Rose (K.faults out.old) (K.faults out.new) }
        ensures told { HasTold (⟦<Feed as Listeners>⟧.listening feed.old) (⟦<Feed as Listeners>⟧.listening feed.new) self.old.world.store self.new.world.store }
    {
        match self.end_lines(out, feed) {
            Ok(refused) => {
                match respond_to_end(self.alloc, &mut self.world, &mut self.text, out) {
                    Ok(block) => Ok(refused | block),
                    Err(stop) => Err(stop),
                }
            }
            Err(stop) => Err(stop),
        }
    }

    /// The script has ended: answers its last line, where that has bytes, and a definition that is
    /// still open, writes what was only defined, and tells whether any line was refused.
    pub fn finish<K: Sink>(&mut self, out: &mut K, feed: &mut Feed) -> Result<bool, Stop>
        requires { IsSound self.old.world }
        ensures finishes { FinishesSo D.faults D.clock D.crash result (play_of self.old) (K.written out.old) self.new.world.store (K.written out.new) }
        ensures later { K.faults out.old ≤ K.faults out.new }
        ensures cause { result ≡ Err Stop.SinkFault → Rose (K.faults out.old) (K.faults out.new) }
        ensures told { HasTold (⟦<Feed as Listeners>⟧.listening feed.old) (⟦<Feed as Listeners>⟧.listening feed.new) self.old.world.store self.new.world.store }
    {
        match self.end_script(out, feed) {
            Ok(refused) => match self.world.finish(self.alloc, feed) {
                Ok(()) => Ok(refused),
                Err(stop) => Err(stop),
            },
            Err(stop) => Err(stop),
        }
    }
}
