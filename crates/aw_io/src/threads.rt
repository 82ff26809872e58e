use crate::mem_sink::MemSink;
use crate::mem_source::MemSource;
use crate::sink::{Gave, SinkFault};
use crate::source::Took;
use crate::sure_sink::SureSink;
use crate::sure_source::SureSource;

fn needs_send_and_sync<T: Send + Sync + Drop>(_: T) {}

// The forms over memory may be sent to other threads and shared with them. Proved, and never run.
fn forms_cross_threads(
    listed_source: MemSource,
    sure_source: SureSource,
    listed_sink: MemSink,
    sure_sink: SureSink,
    took: Took,
    gave: Gave,
    fault: SinkFault,
) {
    needs_send_and_sync(listed_source);
    needs_send_and_sync(sure_source);
    needs_send_and_sync(listed_sink);
    needs_send_and_sync(sure_sink);
    needs_send_and_sync(took);
    needs_send_and_sync(gave);
    needs_send_and_sync(fault);
}
