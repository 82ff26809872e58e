ghost use Rattle.std.specs.Prelude.{◌≡◌, ◌≤◌, IfOk, IfSome, OnErr, length};
ghost use Rattle.ses_step.specs.declared.session.Session.{Session as SessionState};
ghost use Rattle.ses_step.specs.SessionLines.{line_begun};
ghost use Rattle.ses_step.specs.Sessions as spec;
ghost use Rattle.script_meaning.specs.Language.{written};
ghost use Rattle.ses_step.specs.Sessions.{Sees, Allows, IsReady};
ghost use Rattle.script_play.specs.inside.StoreWorlds.{definitions_in};
ghost use Rattle.script_play.specs.inside.LineSteps.{IsOpen, Asked, Replied, ReplyWants, Turned, TurnWants};
ghost use Rattle.script_play.specs.inside.Telling.{HasTold};

use crate::telling::tell_of;
use aw_cell::Text;
use aw_disk::Disk;
use aw_feed::{Feed, Listeners};
use aw_store::Store;
use mv_core::{Entry, Reply};
use ses_step::{Answer, Begun, Session};
use std::alloc::{AllocError, Global};

/// Asks the store, and tells the listeners the record of what it did, where it wrote one. Want of
/// memory leaves the store as it was.
fn ask<D: Disk>(store: &mut Store<D>, entry: &Entry, feed: &mut Feed) -> Result<Reply, AllocError>
    ensures ok { IfOk result (λ reply. Asked D.faults D.clock D.crash entry.now reply store.old store.new) }
    ensures allowed { IfOk result (λ reply. (s : SessionState) → Sees (definitions_in store.old) s.known → IfSome s.asked (IsReady s.known) → Allows (definitions_in store.old) s reply) }
    ensures err { OnErr result (store.new ≡ store.old) }
    ensures told { HasTold (⟦<Feed as Listeners>⟧.listening feed.old) (⟦<Feed as Listeners>⟧.listening feed.new) store.old store.new }
{
    store.recall_invariant();
    let reply = store.act(entry);
    tell_of(store, entry, &reply, feed);
    match reply {
        Reply::NoMemory => Err(AllocError),
        reply => Ok(reply),
    }
}

/// Begins a line of a session, by the definitions of the store.
fn begin<D: Disk>(
    alloc: Global,
    store: &Store<D>,
    session: &mut Session,
    line: &[u8],
    from: u32,
) -> Result<Begun, AllocError>
    requires closed { IsOpen store.now }
    requires sees { Sees (definitions_in store.now) session.old.known }
    requires short { length line.now ≤ 4096 }
    requires within { from ≤ length line.now }
    ensures begun { IfOk result (λ begun. (begun, session.new) ≡ line_begun (definitions_in store.now) session.old.known line.now from) }
    ensures ready { IfOk result (λ begun. IfSome session.new.asked (IsReady session.new.known)) }
{
    match store.catalogue() {
        Some(catalogue) => session.begin(alloc, catalogue, line, from),
        None => unreachable!(),
    }
}

/// Answers a command by the reply, by the definitions of the store.
fn finish<D: Disk>(
    alloc: Global,
    names: &[Text],
    store: &Store<D>,
    session: &mut Session,
    reply: Reply,
) -> Result<Answer, AllocError>
    requires closed { IsOpen store.now }
    requires allowed { Allows (definitions_in store.now) session.old reply }
    ensures { IfOk result (λ answer. (answer, session.new.known) ≡ spec.finished (definitions_in store.now) names.now session.old reply) }
{
    match store.catalogue() {
        Some(catalogue) => session.finish(alloc, catalogue, names, reply),
        None => unreachable!(),
    }
}

/// Asks the store, and answers by its reply.
fn ask_and_finish<D: Disk>(
    alloc: Global,
    names: &[Text],
    store: &mut Store<D>,
    session: &mut Session,
    entry: &Entry,
    feed: &mut Feed,
) -> Result<Answer, AllocError>
    requires ready { IfSome session.old.asked (IsReady session.old.known) }
    requires closed { IsOpen store.old }
    requires sees { Sees (definitions_in store.old) session.old.known }
    ensures ok { IfOk result (λ answer. Replied D.faults D.clock D.crash (definitions_in store.old) names.now entry.now answer session.old session.new.known store.old store.new) }
    ensures err { OnErr result (ReplyWants D.faults D.clock D.crash entry.now store.old store.new) }
    ensures told { HasTold (⟦<Feed as Listeners>⟧.listening feed.old) (⟦<Feed as Listeners>⟧.listening feed.new) store.old store.new }
{
    match ask(store, entry, feed) {
        Ok(reply) => match finish(alloc, names, store, session, reply) {
            Ok(answer) => Ok(answer),
            Err(full) => Err(full),
        },
        Err(full) => Err(full),
    }
}

/// A line of a session: it answers, or asks the store and answers by the reply.
pub fn take_turn<D: Disk>(
    alloc: Global,
    names: &[Text],
    store: &mut Store<D>,
    session: &mut Session,
    line: &[u8],
    from: u32,
    feed: &mut Feed,
) -> Result<Answer, AllocError>
    requires closed { IsOpen store.old }
    requires sees { Sees (definitions_in store.old) session.old.known }
    requires short { length line.now ≤ 4096 }
    requires within { from ≤ length line.now }
    ensures ok { IfOk result (λ answer. Turned D.faults D.clock D.crash (definitions_in store.old) names.now (written line.now from) answer session.old.known session.new.known store.old store.new) }
    ensures err { OnErr result (TurnWants D.faults D.clock D.crash (definitions_in store.old) names.now (written line.now from) session.old.known store.old store.new) }
    ensures told { HasTold (⟦<Feed as Listeners>⟧.listening feed.old) (⟦<Feed as Listeners>⟧.listening feed.new) store.old store.new }
{
    match begin(alloc, store, session, line, from)? {
        Begun::Said(answer) => Ok(answer),
        Begun::Ask(entry) => {
            match ask_and_finish(alloc, names, store, session, &entry, feed) {
                Ok(answer) => Ok(answer),
                Err(full) => Err(full),
            }
        }
    }
}
