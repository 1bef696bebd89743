// A sink that is slow at times: the core of a run beside device threads waits for it, and the devices go on.

use crate::live::live_difference;
use crate::ran::Outside;
use anyhow::Result;
use rt_outside::{Failed, MemSink, Sink};
use rt_top::{NoGate, rtic};
use std::alloc::Global;
use std::thread;
use std::thread::Threads;
use std::time::{Clock, Duration};
use test_tables::Case;

/// Bytes that the sink has room for.
const ROOM: u32 = 1 << 20;

/// One write of so many takes long.
const PERIOD: u32 = 64;

/// How long such a write takes, in milliseconds.
const PAUSE: u64 = 1;

/// A sink in memory that sleeps at one write of so many.
struct Slow<'a, R> {
    rt: &'a R,
    kept: MemSink,
    writes: u32,
}

impl<R> Drop for Slow<'_, R> {
    fn drop(self) {
        let Slow {
            rt: _,
            kept: _,
            writes: _,
        } = self;
    }
}

impl<R: Clock> Sink for Slow<'_, R> {
    ghost taken = { λ s. s.kept.taken };

    ghost faults = { λ s. s.kept.faults };

    fn write(&mut self, piece: &[u8]) -> Result<usize, Failed> {
        self.writes = self.writes.saturating_add(1);
        if self.writes % PERIOD == 0 {
            thread::sleep(self.rt, Duration::from_millis(PAUSE));
        }
        self.kept.write(piece)
    }
}

/// What is told of a case: `ok`, or what differs. Its parts are those of a run beside device threads.
pub fn verdict<R: Threads + Clock + Sync>(
    rt: &R,
    alloc: Global,
    case: &Case,
) -> Result<&'static str> {
    let mut outside = Outside::of(alloc, case.bytes("app"), case.bytes("second"))?;
    let mut out = Slow {
        rt,
        kept: MemSink::new(alloc, ROOM, &[])?,
        writes: 0,
    };
    let status = rtic(
        rt,
        alloc,
        &["live", "app", "script"],
        &mut outside.app,
        &mut outside.second,
        &mut outside.third,
        &mut out,
        &NoGate,
    );
    live_difference(rt, alloc, case, status, out.kept.bytes())
}
