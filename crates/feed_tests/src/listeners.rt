ghost use Rattle.std.specs.Prelude.{None, Some};

use aw_feed::{Feed, Heard, Listener, MemListener, SureListener};
use std::cell::Cell;
use std::rc::Rc;
use std::test::Fail;

// A listener of the test's own. It writes its name and each number that it is told as two digits
// behind the others, and goes from a number on.
#[derive(Drop)]
struct Noting {
    name: u64,
    digits: Rc<Cell<u64>>,
    last: Option<u64>,
}

impl Listener for Noting {
    ghost told = { λ _. None };

    ghost last = { λ noting. Some noting.last };

    fn commit(&mut self, number: u64, _payload: &[u8]) -> Heard {
        match self.last {
            Some(least) if least <= number => Heard::Gone,
            _ => {
                let before = self.digits.get().wrapping_mul(100);
                let heard = self.name.wrapping_mul(10).wrapping_add(number);
                self.digits.set(before.wrapping_add(heard));
                Heard::Stay
            }
        }
    }
}

// The first goes at no number, the second from 2 on, the third from 1 on.
#[test]
fn each_is_told_until_it_goes(rt: HostRuntime) -> Result<(), Fail> {
    let alloc = rt.alloc();
    let digits = Rc::new(alloc, Cell::new(0))?;
    let mut listeners: Vec<Box<dyn Listener>> = Vec::new(alloc);
    for (name, last) in [(1, None), (2, Some(2)), (3, Some(1))] {
        let digits = digits.clone()?;
        let noting = Noting { name, digits, last };
        listeners.push(Box::new(alloc, noting)?)?;
    }
    let mut feed = Feed::new(listeners);
    for number in 1..4 {
        feed.tell(number, b"payload");
    }
    assert!(rt; digits.get() == 11_21_12_13);
    Ok(())
}

// Whether it stays for the first two records, and goes at the third.
fn goes_at_the_third<L: Listener>(listener: &mut L) -> bool {
    let first = listener.commit(1, b"ab") == Heard::Stay;
    let second = listener.commit(2, b"c") == Heard::Stay;
    first & second & (listener.commit(3, b"d") == Heard::Gone)
}

fn kept(listener: &MemListener) -> bool {
    match listener.notes() {
        [first, second] => {
            (first.0 == 1)
                & (first.1.as_slice() == b"ab".as_slice())
                & (second.0 == 2)
                & (second.1.as_slice() == b"c".as_slice())
        }
        _ => false,
    }
}

#[test]
fn both_forms_go_from_their_number_on(rt: HostRuntime) -> Result<(), Fail> {
    let mut keeping = MemListener::new(rt.alloc(), Some(3));
    let mut sure = SureListener::new(Some(3));
    let go = goes_at_the_third(&mut keeping) & goes_at_the_third(&mut &mut sure);
    assert!(rt; go & kept(&keeping));
    Ok(())
}
