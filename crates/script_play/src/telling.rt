ghost use Rattle.std.specs.Prelude.{◌≡◌, true};
ghost use Rattle.aw_codec.specs.Records.{FitsPayload};
ghost use Rattle.aw_store.specs.StoredRecords.{last_spelling};
ghost use Rattle.mv_core.specs.SharedStep as shared;
ghost use Rattle.script_play.specs.inside.Telling.{TellsLast, TellsWhere};

use aw_disk::Disk;
use aw_feed::{Feed, Listeners};
use aw_store::Store;
use mv_core::{Entry, Reply};

/// Tells the listeners the last record of a store: its number on the disk, and its payload.
pub fn tell_last<D: Disk>(store: &Store<D>, feed: &mut Feed)
    requires { FitsPayload (last_spelling store.now.records) }
    ensures { TellsLast store.now (⟦<Feed as Listeners>⟧.listening feed.old) (⟦<Feed as Listeners>⟧.listening feed.new) }
{
    let (number, payload) = store.last_payload();
    feed.tell(number, payload);
}

/// Whether a store that replied so to an entry has written a record of it.
fn writes(entry: &Entry, reply: &Reply) -> bool
    ensures { result ≡ shared.writes entry.now reply.now }
{
    match entry {
        Entry::Commit { changes, .. } => match reply {
            Reply::Committed => !changes.is_empty(),
            _ => false,
        },
        _ => false,
    }
}

/// Tells the listeners the record of an entry that was replied to so, where there is one.
pub fn tell_of<D: Disk>(store: &Store<D>, entry: &Entry, reply: &Reply, feed: &mut Feed)
    requires { shared.writes entry.now reply.now ≡ true → FitsPayload (last_spelling store.now.records) }
    ensures { TellsWhere (shared.writes entry.now reply.now) store.now (⟦<Feed as Listeners>⟧.listening feed.old) (⟦<Feed as Listeners>⟧.listening feed.new) }
{
    if writes(entry, reply) {
        tell_last(store, feed);
    }
}
