ghost use Rattle.std.specs.Prelude.{None, Some};

use aw_cell::Text;
use aw_disk::SureDisk;
use aw_feed::{Feed, Heard, Listener};
use aw_io::{SureSink, SureSource};
use aw_lists::List;
use script_play::run;
use std::alloc::{AllocError, Global};
use std::cell::Cell;
use std::rc::Rc;

// A script that writes three records: the definition of `v`, and two commits.
const SCRIPT: &[u8] = b"DEFINE v VARIABLE INTEGER\n\
    a: AW ATTACH MULTI\n\
    a: ACQUIRE v\n\
    a: v = 7\n\
    a: UPDATE\n\
    a: COMMIT\n\
    a: SHOW v\n\
    a: v = 8\n\
    a: UPDATE\n\
    a: COMMIT\n";

const TRANSCRIPT: &[u8] = b"a: ok\na: ok\na: ok\na: ok\na: ok\na: 7\na: ok\na: ok\na: ok\n";

// A listener of the test's own. It writes its name and each number that it is told as two digits
// behind the others, and goes from a number on.
#[derive(Drop)]
struct Noting {
    name: u64,
    digits: Rc<Cell<u64>>,
    last: Option<u64>,
}

impl Listener for Noting {
    ghost told = { λ _. None };

    ghost last = { λ noting. Some noting.last };

    fn commit(&mut self, number: u64, _payload: &[u8]) -> Heard {
        match self.last {
            Some(least) if least <= number => Heard::Gone,
            _ => {
                let before = self.digits.get().wrapping_mul(100);
                let heard = self.name.wrapping_mul(10).wrapping_add(number);
                self.digits.set(before.wrapping_add(heard));
                Heard::Stay
            }
        }
    }
}

// Whether the script, played before these listeners, is answered as it is before none.
fn plays(alloc: Global, listeners: Vec<Box<dyn Listener>>) -> Result<bool, AllocError> {
    let mut script = SureSource::new(List::from_slice(alloc, SCRIPT)?);
    let mut out = SureSink::new(alloc, 54)?;
    let mut disk = SureDisk::new(alloc, b"OLAPMW1\n\0", 68)?;
    let mut feed = Feed::new(listeners);
    let Some(word) = Text::of(b"play") else {
        return Ok(false);
    };
    let ended = run(alloc, &[word], &mut script, &mut out, &mut disk, &mut feed);
    Ok((ended == 0) & (out.bytes() == TRANSCRIPT))
}

// Whether listeners who go from these numbers on hear these notes of the script, in this order.
fn hear(alloc: Global, lasts: &[Option<u64>], notes: u64) -> Result<bool, AllocError> {
    let digits = Rc::new(alloc, Cell::new(0))?;
    let mut listeners: Vec<Box<dyn Listener>> = Vec::new(alloc);
    let mut name = 0u64;
    for last in lasts {
        name = name.wrapping_add(1);
        let digits = digits.clone()?;
        let noting = Noting {
            name,
            digits,
            last: *last,
        };
        listeners.push(Box::new(alloc, noting)?)?;
    }
    Ok(plays(alloc, listeners)? & (digits.get() == notes))
}

fn so(found: Result<bool, AllocError>) -> bool {
    match found {
        Ok(is_so) => is_so,
        Err(_) => false,
    }
}

#[test]
fn one_goes_at_its_third_note(rt: HostRuntime) {
    assert!(rt; so(hear(rt.alloc(), &[Some(3), None], 11_21_12_22_23)));
}

#[test]
fn each_is_told_until_it_goes(rt: HostRuntime) {
    assert!(rt; so(hear(rt.alloc(), &[None, Some(2), Some(1)], 11_21_12_13)));
}
