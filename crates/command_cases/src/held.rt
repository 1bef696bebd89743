// Runs in which a gate holds the core and a device, so that it is known which pends meet and when they arrive. A run
// that does one after the other fails, and so does one that makes its arrivals up: the gate alone knows the step.
use crate::account::end_of;
use crate::ran::{Outside, run_on};
use crate::sides::Sides;
use anyhow::{Context, Result};
use rt_ids::Status;
use rt_top::Gate;
use std::alloc::Global;
use std::thread::Threads;
use std::time::Clock;
use test_tables::Case;

/// Pends of the device that meet before the core goes on; the pend behind them is held.
const MEET: u64 = 2;

/// Core steps that have to begin before the last pend is made, from the held one on.
const LATER: u64 = 2;

/// A gate that lets two pends of a device come before one core step, and the third behind the next. A pend of another
/// device does not count, so the step would wait in vain.
struct ByTurns<'a, R> {
    sides: Sides<'a, R>,
    /// The number of the device.
    device: u32,
}

impl<R> Drop for ByTurns<'_, R> {
    fn drop(self) {
        let ByTurns {
            sides: _,
            device: _,
        } = self;
    }
}

impl<R: Clock> Gate for ByTurns<'_, R> {
    fn before_step(&self, n: u64) {
        self.sides.step(n, MEET + 1);
    }

    fn before_pend(&self, device: u8, n: u64) {
        if u32::from(device) == self.device {
            self.sides.pend(n);
            if n == MEET {
                self.sides.hold_behind(LATER);
            }
        }
    }
}

/// Whether the items behind the end of `init` begin with some lines.
fn begins_with(output: &str, items: &str) -> bool {
    match output.split_once("\n0 end init\n") {
        Some((_front, behind)) => behind.starts_with(items),
        None => false,
    }
}

/// What is told of an output: `ok`, or what differs.
fn held_difference(output: &str, case: &Case) -> Option<&'static str> {
    let (total, account) = end_of(output)?;
    if !begins_with(output, case.text("items")?) {
        return Some("the first items differ");
    }
    if total != case.text("total")?.trim() {
        return Some("the total differs");
    }
    Some(if account.starts_with(case.text("account")?) {
        "ok"
    } else {
        "the account differs"
    })
}

/// What is told of a case: `ok`, or what differs. Its parts are the texts `app` and `second`, a script of one device
/// with three pends; the number of this `device`; the `step` that is held; and what is wanted: the `items` that come
/// first behind the end of `init`, the `total`, and the first lines of the `account`.
pub fn verdict<R: Threads + Clock + Sync>(
    rt: &R,
    alloc: Global,
    case: &Case,
) -> Result<&'static str> {
    let step = case.number("step").context("no number of a step")?;
    let gate = ByTurns {
        sides: Sides::of(rt, u64::from(step)),
        device: case.number("device").context("no number of a device")?,
    };
    let outside = Outside::of(alloc, case.bytes("app"), case.bytes("second"))?;
    let ran = run_on(rt, alloc, &["live", "app", "script"], outside, &gate);
    if gate.sides.is_late() {
        return Ok("a hold gave up");
    }
    if ran.status != Status::Done {
        return Ok("the exit status differs");
    }
    let output = std::str::from_utf8(ran.output()).ok().context("no text")?;
    Ok(held_difference(output, case).unwrap_or("there is no account"))
}
