//! Tests of the program when memory runs out.

ghost use Rattle.std.specs.Prelude.{None};
ghost use Rattle.fleet_run.specs.SourceAndSink.{SinkView};

use fleet_fold::AppendOperator;
use fleet_run::{Failed, Fleet, FleetOptions, SafeSource, Sink, fleet_main};
use fleet_sched::{CompactionScheduler, SizeTieredCompactionScheduler};
use std::alloc::Global;
use std::thread::Threads;

const FLUSH_AND_READ: &str =
    "flush 1 - 3 0 61:t:-:4:-:-,61:v:7631:2:-:-,61:v:7630:1:-:-\nread - 61 3 0\nread - 61 4 0\nread - 61 2 0\nread - 62 9 0\n";

const FLUSH_AND_READ_REPLIES: &str = "ok\nvalue 7631\nnone\nvalue 7631\nnone\n";

const DELETED_KEY: &str = "flush 1 - 3 0 61:t:-:4:-:-,61:v:7631:2:-:-,61:v:7630:1:-:-\n\
     start coordinator 1\n\
     start worker 1\n\
     submit - 0 l1\n\
     poll 1\n\
     claim 1\n\
     finish 1 1\n\
     poll 1\n\
     dump - r0\n\
     read - 61 3 0\n\
     read - 61 4 0\n\
     read - 61 2 0\n";

const DELETED_KEY_REPLIES: &str = "ok\n\
     ok epoch 1\n\
     ok\n\
     ok job 1\n\
     ok freed - done - lost - added - dropped - open 1 moved - drained - bad -\n\
     ok claimed 1.1:- stopped -\n\
     ok t1\n\
     ok freed - done 1 lost - added - dropped - open - moved - drained - bad -\n\
     ok 61:t:-:4:-:-,61:v:7631:2:-:-\n\
     value 7631\n\
     none\n\
     notretained 3 0\n";

// A sink that keeps the first 512 bytes that it takes, and allocates nothing.
#[derive(Drop)]
struct ShortSink {
    bytes: [u8; 512],
    len: usize,
    taken: u64,
}

impl Sink for ShortSink {
    ghost view = { λ s. record { written = None; taken = s.taken; faults = 0 } };

    fn write(&mut self, from: &[u8]) -> Result<usize, Failed> {
        let taken = self.taken.saturating_add(from.len() as u64);
        for byte in from {
            if self.len < self.bytes.len() {
                self.bytes[self.len] = *byte;
                self.len += 1;
            }
        }
        self.taken = taken;
        Ok(from.len())
    }
}

// Whether only whole replies to a script were written, and the status is 0 if all were, and else 6.
fn ends_between_replies<R: Threads + Sync>(
    rt: &R,
    alloc: Global,
    script: &str,
    replies: &str,
) -> bool {
    let Ok(mut fleet) = Fleet::new(alloc, FleetOptions::default()) else {
        return true;
    };
    let Ok(scheduler) = Box::new(alloc, SizeTieredCompactionScheduler::default()) else {
        return true;
    };
    let scheduler: Box<dyn CompactionScheduler + Send + Sync> = scheduler;
    let mut source = SafeSource::new(script.as_bytes());
    let mut sink = ShortSink {
        bytes: [0; 512],
        len: 0,
        taken: 0,
    };
    let status = fleet_main(
        rt,
        alloc,
        &["run"],
        &mut source,
        &AppendOperator,
        scheduler,
        &mut fleet,
        &mut sink,
    );
    let written = &sink.bytes[..sink.len.min(sink.bytes.len())];
    are_whole(written, replies) && status == if written == replies.as_bytes() { 0 } else { 6 }
}

fn are_whole(written: &[u8], replies: &str) -> bool {
    replies.as_bytes().starts_with(written) && (written.is_empty() || written.ends_with(b"\n"))
}

// If any growth of memory is refused, the status is 6 and only whole replies were written. With
// ample memory it is 0.
#[test]
fn memory_ends_between_replies(rt: HostRuntime) {
    assert!(rt; ends_between_replies(&rt, rt.alloc(), FLUSH_AND_READ, FLUSH_AND_READ_REPLIES));
    assert!(rt; ends_between_replies(&rt, rt.alloc(), DELETED_KEY, DELETED_KEY_REPLIES));
}
