ghost use Rattle.std.specs.Prelude.{◌≤◌, length};
ghost use Rattle.ses_step.specs.Sessions as spec;

use aw_cell::{Kind, Text, is_name};
use aw_lists::Coord;
use aw_schema::{Catalogue, Def, DefKind};
use mv_core::Reply;
use ses_report::{Detail, Refusal};
use ses_step::{Answer, Begun, Session};
use std::alloc::{AllocError, Global};
use std::test::Fail;

fn text(bytes: &[u8]) -> Result<Text, Fail> {
    Ok(Text::of(bytes).ok_or("no text")?)
}

// Defines an INTEGER variable.
fn is_defined(catalogue: &mut Catalogue, name: Text) -> bool {
    let kind = DefKind::Variable {
        kind: Kind::Int,
        dimensions: Coord::of(&[]).unwrap(),
    };
    is_name(name.bytes()) && catalogue.check(Def { name, kind }).is_ok()
}

// A catalogue of two INTEGER variables.
fn two(alloc: Global, first: Text, second: Text) -> Option<Catalogue> {
    let mut catalogue = Catalogue::new(alloc);
    let both = is_defined(&mut catalogue, first) & is_defined(&mut catalogue, second);
    if both { Some(catalogue) } else { None }
}

// Whether a session that gets this reply refuses its command so.
fn is_refused(
    alloc: Global,
    catalogue: &Catalogue,
    names: &[Text],
    reply: Reply,
    number: u8,
    detail: Detail,
) -> bool
    requires { spec.Allows catalogue.now (spec.resting (spec.new_session 0)) reply }
{
    let refusal = Refusal {
        number,
        line: 0,
        detail,
    };
    match Session::new(0).finish(alloc, catalogue, names, reply) {
        Ok(answer) => answer == Answer::Refused(refusal),
        Err(_) => false,
    }
}

// Whether something is asked for, or refused for another cause than that the session isn't attached.
fn is_asked(begun: &Result<Begun, AllocError>) -> Option<bool> {
    match begun {
        Ok(Begun::Ask(_)) => Some(true),
        Ok(Begun::Said(Answer::Refused(refusal))) => Some(refusal.number != 15),
        _ => None,
    }
}

// The same of a session's first line.
fn asks(alloc: Global, catalogue: &Catalogue, line: &[u8]) -> Option<bool>
    requires { length line.now ≤ 4096 }
{
    let mut session = Session::new(0);
    let begun = session.begin(alloc, catalogue, line, 0);
    drop(session);
    let asked = is_asked(&begun);
    drop(begun);
    asked
}

#[test]
fn begins_with_attaching(rt: HostRuntime) -> Result<(), Fail> {
    let (alloc, v, w) = (rt.alloc(), text(b"v")?, text(b"w")?);
    let all = two(alloc, v, w).ok_or("two variables")?;
    let mut begun = asks(alloc, &all, b"AW ATTACH RO") == Some(true);
    begun &= asks(alloc, &all, b"AW DETACH") == Some(false);
    begun &= asks(alloc, &all, b"ACQUIRE v RESYNC w") == Some(false);
    begun &= asks(alloc, &all, b"RELEASE v, w") == Some(false);
    assert!(rt; begun);
    Ok(())
}

#[test]
fn refuses_by_the_reply(rt: HostRuntime) -> Result<(), Fail> {
    let (v, w, b) = (text(b"v")?, text(b"w")?, text(b"b")?);
    let (alloc, names) = (rt.alloc(), [text(b"a")?, b]);
    let all = two(alloc, v, w).ok_or("two variables")?;
    let owned = Reply::Owned { object: 0, by: 1 };
    let stranger = Reply::Stranger { object: 1 };
    let mut refused = is_refused(alloc, &all, &names, owned, 17, Detail::Two(v, b));
    refused &= is_refused(alloc, &all, &names, stranger, 19, Detail::One(w));
    refused &= is_refused(alloc, &all, &names, Reply::Fault, 30, Detail::Nothing);
    assert!(rt; refused);
    Ok(())
}

#[test]
fn refuses_by_the_number(rt: HostRuntime) -> Result<(), Fail> {
    let (alloc, v, w) = (rt.alloc(), text(b"v")?, text(b"w")?);
    let all = two(alloc, v, w).ok_or("two variables")?;
    let newer = Reply::Newer {
        object: 1,
        number: 5,
    };
    let worn = Reply::Worn { object: 0 };
    let long = Reply::TooLarge { bytes: 67_108_865 };
    let mut refused = is_refused(alloc, &all, &[], newer, 18, Detail::Count(w, 5));
    refused &= is_refused(alloc, &all, &[], worn, 22, Detail::One(v));
    refused &= is_refused(alloc, &all, &[], long, 14, Detail::Nothing);
    assert!(rt; refused);
    Ok(())
}
