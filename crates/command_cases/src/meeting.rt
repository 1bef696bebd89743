// Runs in which each device is held at its first pend until all of them have come to theirs. Devices that run one after
// another do not come through it.
use crate::live::live_difference;
use crate::ran::{Outside, run_on};
use crate::sides::Holds;
use anyhow::{Context, Result};
use rt_top::Gate;
use std::alloc::Global;
use std::sync::atomic::AtomicU64;
use std::sync::atomic::Ordering::SeqCst;
use std::thread::Threads;
use std::time::Clock;
use test_tables::Case;

/// A gate that lets no device make a pend before all have come to one.
struct Meeting<'a, R> {
    holds: Holds<'a, R>,
    /// The devices that have to come.
    wanted: u64,
    /// The devices that have come.
    come: AtomicU64,
}

impl<R> Drop for Meeting<'_, R> {
    fn drop(self) {
        let Meeting {
            holds: _,
            wanted: _,
            come: _,
        } = self;
    }
}

impl<R: Clock> Gate for Meeting<'_, R> {
    fn before_step(&self, _n: u64) {}

    fn before_pend(&self, _device: u8, n: u64) {
        if n == 0 {
            self.come.fetch_add(1, SeqCst);
            self.holds.until(&self.come, self.wanted);
        }
    }
}

/// What is told of a case: `ok`, or what differs. Its parts are those of a run beside device threads, and the number of
/// its `devices`.
pub fn verdict<R: Threads + Clock + Sync>(
    rt: &R,
    alloc: Global,
    case: &Case,
) -> Result<&'static str> {
    let gate = Meeting {
        holds: Holds::of(rt),
        wanted: u64::from(case.number("devices").context("no number of devices")?),
        come: AtomicU64::new(0),
    };
    let outside = Outside::of(alloc, case.bytes("app"), case.bytes("second"))?;
    let ran = run_on(rt, alloc, &["live", "app", "script"], outside, &gate);
    if gate.holds.is_late() {
        return Ok("a hold gave up");
    }
    live_difference(rt, alloc, case, ran.status, ran.output())
}
