use aw_io::{
    Gave, MemSink, MemSource, NoMemory, Sink, SinkFault, Source, StdSink, StdSource, Took, put_all,
};
use aw_lists::List;
use std::alloc::Global;
use std::io;
use std::io::{Read, Write};
use std::test::Fail;

// Whether a source gives "ab", fails, gives "c" and is at its end.
fn fails_in_mid_stream<S: Source>(source: &mut S) -> bool {
    let mut piece = [0u8; 2];
    let first = (source.take(&mut piece) == Took::Got(2)) & (piece == *b"ab");
    let failed = source.take(&mut piece) == Took::Failed;
    let last = (source.take(&mut piece) == Took::Got(1)) & (piece == *b"cb");
    first & failed & last & (source.take(&mut piece) == Took::End)
}

// Gives "ab", fails, gives "c", and is at its end.
#[derive(Drop)]
struct Stutter {
    calls: u8,
}

impl Read for Stutter {
    fn read(&mut self, buf: &mut [u8]) -> io::Result<usize> {
        let call = self.calls;
        self.calls = self.calls.saturating_add(1);
        match call {
            0 => (&b"ab"[..]).read(buf),
            1 => Err(io::Error::other("no line")),
            2 => (&b"c"[..]).read(buf),
            _ => Ok(0),
        }
    }
}

#[test]
fn sources_fail_in_mid_stream(rt: HostRuntime) -> Result<(), Fail> {
    let bytes = List::from_slice(rt.alloc(), b"abc")?;
    let mut memory = MemSource::new(bytes, List::from_slice(rt.alloc(), &[1])?);
    let mut reader = StdSource::new(Stutter { calls: 0 });
    assert!(rt; fails_in_mid_stream(&mut &mut memory) & fails_in_mid_stream(&mut reader));
    Ok(())
}

// Passes a byte a call on.
#[derive(Drop)]
struct ByteByByte<K> {
    sink: K,
}

impl<K: Sink> Sink for ByteByByte<K> {
    ghost written = { λ slow. K.written slow.sink };

    ghost faults = { λ slow. K.faults slow.sink };

    fn put(&mut self, bytes: &[u8]) -> Gave {
        self.sink.put(&bytes[..1])
    }
}

// Whether a sink that fails at its fourth byte takes three, and isn't asked again.
fn puts_up_to_a_failure(alloc: Global) -> Result<bool, NoMemory> {
    let mut sink = MemSink::new(List::new(alloc), List::from_slice(alloc, &[3])?);
    let mut slow = ByteByByte { sink: &mut sink };
    let whole = put_all(&mut slow, b"so") == Ok(());
    let cut = put_all(&mut slow, b"far") == Err(SinkFault);
    Ok(whole & cut & (sink.bytes() == b"sof".as_slice()))
}

#[test]
fn put_all_ends_at_a_failure(rt: HostRuntime) -> Result<(), Fail> {
    assert!(rt; puts_up_to_a_failure(rt.alloc())?);
    Ok(())
}

// Takes a byte a call, but for the second, which takes none, and the fourth, which fails. The flush
// behind the fifth fails. It counts the bytes that were taken, and those that were flushed.
#[derive(Drop)]
struct Faulty {
    calls: u8,
    taken: usize,
    flushed: usize,
}

impl Write for Faulty {
    fn write(&mut self, buf: &[u8]) -> io::Result<usize> {
        self.calls = self.calls.saturating_add(1);
        match self.calls {
            2 => Ok(0),
            4 => Err(io::Error::other("no line")),
            _ => {
                let count = buf.len().min(1);
                self.taken = self.taken.saturating_add(count);
                Ok(count)
            }
        }
    }

    fn flush(&mut self) -> io::Result<()> {
        if self.calls == 5 {
            return Err(io::Error::other("no room"));
        }
        self.flushed = self.taken;
        Ok(())
    }
}

// Whether a sink over a writer tells each failure, and nothing else.
fn tells_each_failure<W: Write + Drop>(sink: &mut StdSink<W>) -> bool {
    let first = (sink.put(b"ab") == Gave::Put(1)) & (sink.put(b"ab") == Gave::Failed);
    let second = (sink.put(b"ab") == Gave::Put(1)) & (sink.put(b"ab") == Gave::Failed);
    first & second & (sink.put(b"ab") == Gave::Failed) & (sink.put(b"ab") == Gave::Put(1))
}

#[test]
fn std_sink_tells_each_failure(rt: HostRuntime) {
    let mut writer = Faulty {
        calls: 0,
        taken: 0,
        flushed: 0,
    };
    let told = tells_each_failure(&mut StdSink::new(&mut writer));
    assert!(rt; told & (writer.taken == 4) & (writer.flushed == 4));
}
