ghost use Rattle.std.specs.Prelude.{◌≡◌, ◌≤◌, ℕ, ◌+◌, ◌*◌, ◌%◌, ◌^◌, All, IfSome, length};
ghost use Rattle.mv_desk.specs.Passes.{IsPassOf};

use aw_lists::List;
use mv_desk::{Desk, Pass, Sequential, Unclosed, Unmade};
use std::alloc::Global;
use std::sync::Wait;
use std::sync::atomic::{AtomicU64, Ordering};
use std::test::Fail;
use std::thread;
use std::thread::Threads;

// A machine whose replies depend on all entries before: how many there were, and their digest.
#[derive(Drop)]
struct Trail {
    count: u64,
    digest: u64,
}

impl Sequential for Trail {
    type Entry = u64;

    type Reply = (u64, u64);

    ghost step = { λ before entry reply after. (reply ≡ (before.count, before.digest)) × (after.count ≡ (before.count + 1) % 2 ^ 64) × (after.digest ≡ (before.digest * 31 + entry) % 2 ^ 64) };

    fn act(&mut self, entry: &u64) -> (u64, u64) {
        let reply = (self.count, self.digest);
        self.count = self.count.wrapping_add(1);
        self.digest = self.digest.wrapping_mul(31).wrapping_add(*entry);
        reply
    }
}

// A desk over a fresh trail, and its passes.
fn opened(alloc: Global, callers: u32) -> Option<(Desk<Trail>, Vec<Pass<Trail>>)>
    requires { (1 ≤ callers) × (callers ≤ 64) }
    ensures { IfSome result (λ r. All (IsPassOf r.0) r.1.items) }
{
    let trail = Trail {
        count: 0,
        digest: 0,
    };
    match Desk::new(alloc, trail, callers) {
        Ok((desk, passes)) => Some((desk, passes.into_vec())),
        Err(Unmade { machine: _ }) => None,
    }
}

// The count and the digest of a desk that closes.
fn closed(desk: Desk<Trail>, passes: Vec<Pass<Trail>>) -> Option<(u64, u64)>
    requires { All (IsPassOf desk) passes.items }
{
    match desk.close(List::from_vec(passes)) {
        Ok(Trail { count, digest }) => Some((count, digest)),
        Err(Unclosed { desk: _, passes: _ }) => None,
    }
}

// What comes back of a close that is refused.
fn refused(desk: Desk<Trail>, passes: Vec<Pass<Trail>>) -> Option<(Desk<Trail>, Vec<Pass<Trail>>)>
    requires { All (IsPassOf desk) passes.items }
    ensures { IfSome result (λ r. All (IsPassOf r.0) r.1.items × (r.0 ≡ desk)) }
{
    match desk.close(List::from_vec(passes)) {
        Ok(Trail { .. }) => None,
        Err(Unclosed { desk, passes }) => Some((desk, passes.into_vec())),
    }
}

// Whether an act at this place has this reply.
fn tells<R: Wait>(
    rt: &R,
    desk: &Desk<Trail>,
    pass: &mut Pass<Trail>,
    entry: u64,
    place: u64,
    digest: u64,
) -> bool
    requires { IsPassOf desk.now pass.old }
    ensures { IsPassOf desk.now pass.new }
{
    let (found, reply) = desk.act(rt, pass, &entry);
    (found == place) & (reply.0 == place) & (reply.1 == digest)
}

// One caller twice, and then two one after the other.
fn acts_in_turn<R: Wait>(
    rt: &R,
    desk: &Desk<Trail>,
    first: &mut Pass<Trail>,
    second: &mut Pass<Trail>,
) -> bool
    requires { IsPassOf desk.now first.old × IsPassOf desk.now second.old }
    ensures { IsPassOf desk.now first.new × IsPassOf desk.now second.new }
{
    tells(rt, desk, first, 5, 0, 0)
        & tells(rt, desk, first, 7, 1, 5)
        & tells(rt, desk, second, 9, 2, 162)
        & tells(rt, desk, first, 1, 3, 5031)
}

fn one_caller<R: Wait>(rt: &R, alloc: Global) -> Option<bool> {
    let (desk, mut passes) = opened(alloc, 1)?;
    let mut pass = passes.pop()?;
    let told = tells(rt, &desk, &mut pass, 5, 0, 0);
    passes.push_reserved(pass);
    Some(told & (closed(desk, passes) == Some((1, 5))))
}

// A close without the second pass is refused, and one with both is granted.
fn two_callers<R: Wait>(rt: &R, alloc: Global) -> Option<bool> {
    let (desk, mut passes) = opened(alloc, 2)?;
    let mut second = passes.pop()?;
    let mut first = passes.pop()?;
    let told = acts_in_turn(rt, &desk, &mut first, &mut second);
    passes.push_reserved(first);
    let (desk, mut passes) = refused(desk, passes)?;
    passes.push(second).ok()?;
    Some(told & (closed(desk, passes) == Some((4, 155962))))
}

// Three acts of one caller. It notes each digest that it is told at the place of the call, and the one
// that it makes of it at the next place.
fn works<R: Wait>(
    rt: &R,
    desk: &Desk<Trail>,
    pass: &mut Pass<Trail>,
    notes: &[AtomicU64],
    entry: u64,
)
    requires { IsPassOf desk.now pass.old }
    ensures { IsPassOf desk.now pass.new }
{
    let (place, reply) = desk.act(rt, pass, &entry);
    note(notes, place, reply.1, entry);
    let (place, reply) = desk.act(rt, pass, &entry);
    note(notes, place, reply.1, entry);
    let (_, reply) = desk.act(rt, pass, &entry);
    note(notes, reply.0, reply.1, entry);
}

fn note(notes: &[AtomicU64], place: u64, digest: u64, entry: u64) {
    if let Some(here) = notes.get(place as usize) {
        here.fetch_sub(digest, Ordering::SeqCst);
    }
    if let Some(next) = notes.get(place.wrapping_add(1) as usize) {
        next.fetch_add(
            digest.wrapping_mul(31).wrapping_add(entry),
            Ordering::SeqCst,
        );
    }
}

// Each call was told the digest of the one before it, so all notes but the last come to 0.
fn many_callers<R: Threads + Wait + Sync>(rt: &R, alloc: Global) -> Option<bool> {
    let (desk, mut passes) = opened(alloc, 64)?;
    let mut notes = Vec::new(alloc);
    for _ in 0..193 {
        notes.push(AtomicU64::new(0)).ok()?;
    }
    let shared = &desk;
    let told = notes.as_slice();
    thread::for_each_mut(
        rt,
        passes.as_mut_slice(),
        64,
        &|at, pass| { works(rt, shared, pass, told, at as u64 + 1) },
    );
    let last = notes.pop()?.into_inner();
    let zero = notes.iter().all(|note| note.load(Ordering::SeqCst) == 0);
    Some(zero & (closed(desk, passes) == Some((192, last))))
}

#[test]
fn callers_are_answered_in_turn(rt: HostRuntime) {
    assert_eq!(rt; one_caller(&rt, rt.alloc()), Some(true));
    assert_eq!(rt; two_callers(&rt, rt.alloc()), Some(true));
    assert_eq!(rt; many_callers(&rt, rt.alloc()), Some(true));
}

fn needs_send<T: Send + Drop>(_: T) {}

fn needs_sync<T: Sync>(_: &T) {}

fn desk_crosses_threads<M: Sequential + Send + Drop>(desk: Desk<M>) {
    needs_sync(&desk);
    needs_send(desk);
}

fn pass_goes_to_a_thread<M: Sequential + Send>(pass: Pass<M>) {
    needs_send(pass);
}

#[test]
fn desks_and_passes_cross_threads(rt: HostRuntime) -> Result<(), Fail> {
    let (desk, mut passes) = opened(rt.alloc(), 1).ok_or("memory")?;
    pass_goes_to_a_thread(passes.pop().ok_or("a pass")?);
    desk_crosses_threads(desk);
    Ok(())
}
