use aw_cell::Text;
use aw_disk::SureDisk;
use aw_feed::Feed;
use aw_io::{StdSource, SureSink};
use script_play::run;
use std::alloc::{AllocError, Global};
use std::io;
use std::io::Read;
use std::test::Fail;

// How many bytes a script may have.
const MOST: usize = 67_108_864;

// Gives a line of so many bytes, and then one byte more where it goes on, or else fails. It counts how
// often it is asked behind the line.
#[derive(Drop)]
struct LongLine {
    left: usize,
    goes_on: bool,
    asked: u8,
}

impl Read for LongLine {
    fn read(&mut self, buf: &mut [u8]) -> io::Result<usize> {
        if self.left == 0 {
            self.asked = self.asked.saturating_add(1);
            if !self.goes_on {
                return Err(io::Error::other("no line"));
            }
        }
        let count = buf.len().min(self.left.max(1));
        buf[..count].fill(b'x');
        self.left = self.left.saturating_sub(count);
        Ok(count)
    }
}

// Whether a run of `play` over a line of as many bytes as a script may have ends with this status, and
// takes from the source once behind the line.
fn asks_once(alloc: Global, goes_on: bool, status: u8) -> Result<bool, AllocError> {
    let mut line = LongLine {
        left: MOST,
        goes_on,
        asked: 0,
    };
    let mut out = SureSink::new(alloc, 9)?;
    let mut disk = SureDisk::new(alloc, b"OLAPMW1\n\0", 9)?;
    let mut feed = Feed::new(Vec::new(alloc));
    let Some(word) = Text::of(b"play") else {
        return Ok(false);
    };
    let ended = run(
        alloc,
        &[word],
        &mut StdSource::new(&mut line),
        &mut out,
        &mut disk,
        &mut feed,
    );
    Ok((ended == status) & (line.asked == 1))
}

#[test]
fn a_source_is_asked_once_at_the_limit(rt: HostRuntime) -> Result<(), Fail> {
    assert!(rt; asks_once(rt.alloc(), true, 10)? & asks_once(rt.alloc(), false, 3)?);
    Ok(())
}
