ghost use Rattle.std.specs.Prelude.{IsTrue, IfSome};
ghost use Rattle.aw_schema.specs.Definitions.{is_spellable};
ghost use Rattle.aw_store.specs.StoredRecords.{is_replayed, are_replayed};

use aw_body::Seen;
use aw_cell::{Kind, Text, is_name};
use aw_disk::{Disk, MemDisk};
use aw_lists::{Coord, List};
use aw_schema::{Catalogue, Def, DefKind};
use aw_store::{NoMemory, Store};
use mv_core::{Entry, Reply};
use std::alloc::Global;

fn store_of(alloc: Global, image: &[u8]) -> Result<Option<Store<MemDisk>>, NoMemory> {
    let disk = MemDisk::new(List::from_slice(alloc, image)?, List::new(alloc));
    match Store::load(alloc, disk) {
        Ok(store) => Ok(Some(store)),
        Err(_) => Ok(None),
    }
}

// Whether a store has so many records, of which the last has these bytes.
fn has_last<D: Disk>(store: &Store<D>, number: u64, bytes: &[u8]) -> bool {
    let (records, last) = store.last_payload();
    (records == number) & (last == bytes)
}

fn last_is(alloc: Global, image: &[u8], number: u64, bytes: &[u8]) -> bool {
    match store_of(alloc, image) {
        Ok(Some(store)) => has_last(&store, number, bytes),
        _ => false,
    }
}

#[test]
fn tells_the_last_record(rt: HostRuntime) {
    let one = b"OLAPMW1\n\x01\0\0\0\x09D\x01\0\x01\x01v\x03\x02\0\0";
    let none = last_is(rt.alloc(), b"OLAPMW1\n\0", 0, b"");
    assert!(rt; none & last_is(rt.alloc(), one, 1, b"D\x01\0\x01\x01v\x03\x02\0"));
}

// The definition of the INTEGER variable `v` without dimensions.
fn integer() -> Option<Def>
    ensures spellable { IfSome result (λ def. IsTrue (is_spellable def)) }
    ensures replayed { IfSome result (λ def. IsTrue (is_replayed def.kind)) }
{
    if !is_name(b"v") {
        return None;
    }
    let dimensions = Coord::of(&[])?;
    let name = Text::of(b"v")?;
    let kind = DefKind::Variable {
        kind: Kind::Int,
        dimensions,
    };
    Some(Def { name, kind })
}

fn definitions(alloc: Global) -> Option<Catalogue>
    ensures { IfSome result (λ catalogue. IsTrue (are_replayed catalogue)) }
{
    let mut catalogue = Catalogue::new(alloc);
    let def = integer()?;
    match catalogue.check(def) {
        Ok(_) => Some(catalogue),
        Err(_) => None,
    }
}

// Whether a store takes the definition of `v`.
fn defines<D: Disk>(alloc: Global, store: &mut Store<D>) -> bool {
    let Some(catalogue) = definitions(alloc) else {
        return false;
    };
    if catalogue.record_len() > 67_108_864 {
        return false;
    }
    store.define(catalogue).is_ok()
}

// A session asks for an object of which it has the first generation.
fn acquire<D: Disk>(
    alloc: Global,
    store: &mut Store<D>,
    who: u32,
    object: u16,
) -> Result<Reply, NoMemory> {
    let mut keep = List::new(alloc);
    keep.push(Seen { object, number: 1 })?;
    let entry = Entry::Acquire {
        who,
        keep,
        fresh: List::new(alloc),
        same: List::new(alloc),
    };
    Ok(store.act(&entry))
}

fn is_strange<D: Disk>(alloc: Global, store: &mut Store<D>) -> bool {
    match acquire(alloc, store, 1, 0) {
        Ok(reply) => matches!(&reply, Reply::Stranger { object: 0 }),
        Err(_) => false,
    }
}

fn is_granted<D: Disk>(alloc: Global, store: &mut Store<D>) -> bool {
    match acquire(alloc, store, 1, 0) {
        Ok(reply) => matches!(&reply, Reply::Acquired(_)),
        Err(_) => false,
    }
}

// Whether definitions are wanted first, and taken once.
fn defines_once<D: Disk>(alloc: Global, store: &mut Store<D>) -> bool {
    let first = store.catalogue().is_none() & is_strange(alloc, store);
    let taken = defines(alloc, store) & !defines(alloc, store);
    first & taken & is_granted(alloc, store)
}

fn definitions_are_taken(alloc: Global) -> bool {
    match store_of(alloc, b"OLAPMW1\n\0") {
        Ok(Some(mut store)) => defines_once(alloc, &mut store),
        _ => false,
    }
}

#[test]
fn definitions_are_taken_once(rt: HostRuntime) {
    assert!(rt; definitions_are_taken(rt.alloc()));
}
