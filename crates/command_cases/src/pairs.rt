// Runs of two cores beside each other. When a request of the other core arrives is free: the output of each core is
// audited by its own application, its account is compared, and its whole text where all of it is known.
use crate::account::{end_of, is_account};
use crate::live::is_audited;
use crate::ran::{Outside, Ran, run_on};
use crate::sides::Sides;
use anyhow::{Context, Result};
use rt_ids::Status;
use rt_top::{Gate, NoGate};
use std::alloc::Global;
use std::thread::Threads;
use std::time::Clock;
use test_tables::Case;

/// The number of the second core.
const SECOND: u8 = 2;

/// Requests of the second core that have to come before the first core goes on.
const ANSWERED: u64 = 2;

/// Requests of an interrupt that may be left when a core ends.
const MOST_LEFT: u64 = 1;

/// A gate that fixes the turn in which each core finds what the other one asks. The first core posts in one step, and
/// waits in front of it for the first request of the second core, which waits for the step behind. That step finds this
/// request and no other: it waits for the next one, which waits until the step is over. Cores that run one after the
/// other do not come through it.
struct Answers<'a, R> {
    sides: Sides<'a, R>,
    /// The step of the first core that posts.
    post: u64,
}

impl<R> Drop for Answers<'_, R> {
    fn drop(self) {
        let Answers { sides: _, post: _ } = self;
    }
}

impl<R: Clock> Gate for Answers<'_, R> {
    fn before_step(&self, n: u64) {
        if n == self.post {
            self.sides.hold_for(1);
        }
        self.sides.step(n, ANSWERED);
    }

    fn before_pend(&self, core: u8, n: u64) {
        if core == SECOND {
            self.sides.pend(n);
            if n.saturating_add(1) == ANSWERED {
                self.sides.hold_behind(1);
            }
        }
    }
}

/// What is told of the text of a core: `ok`, or what differs.
fn told_of_core<R: Threads + Sync>(
    rt: &R,
    alloc: Global,
    app: &[u8],
    text: &str,
    requests: &str,
    whole: &str,
) -> Result<&'static str> {
    if !is_audited(rt, alloc, app, text.as_bytes())? {
        return Ok("the audit says no");
    }
    let (_total, account) = end_of(text).context("no account")?;
    if !is_account(account, requests, MOST_LEFT).unwrap_or(false) {
        return Ok("the account differs");
    }
    if !whole.is_empty() && text.trim_end() != whole.trim_end() {
        return Ok("the text differs");
    }
    Ok("ok")
}

/// The texts of the two cores in an output.
fn texts_of(output: &str) -> Option<(&str, &str)> {
    let texts = output.strip_prefix("core 1\n")?;
    texts.split_once("\ncore 2\n")
}

/// What is told of an output: `ok`, or what differs.
fn pair_difference<R: Threads + Sync>(
    rt: &R,
    alloc: Global,
    case: &Case,
    ran: &Ran,
) -> Result<&'static str> {
    if ran.status != Status::Done {
        return Ok("the exit status differs");
    }
    let output = std::str::from_utf8(ran.output()).ok().context("no text")?;
    let Some((first, second)) = texts_of(output) else {
        return Ok("there are no two cores");
    };
    if !first.starts_with(case.text("front").context("no text")?) {
        return Ok("the text of the first core begins in another way");
    }
    let requests = case.text("first_requests").context("no requests")?;
    let whole = case.text("first").context("no text")?;
    let told = told_of_core(rt, alloc, case.bytes("app"), first, requests, whole)?;
    if told != "ok" {
        return Ok(told);
    }
    let requests = case.text("second_requests").context("no requests")?;
    let whole = case.text("other").context("no text")?;
    told_of_core(rt, alloc, case.bytes("second"), second, requests, whole)
}

/// What is told of a case: `ok`, or what differs. Its parts are the texts `app`, `second` and `third`, two applications
/// and a script; perhaps the `step` of the first core at which a gate holds it, behind the one that posts; and what is
/// wanted: `first_requests` and `second_requests`, a line for each declared interrupt of a core in order with the
/// number of the other core's requests, perhaps the whole text of each, `first` and `other`, and the `front` of the
/// first one's.
pub fn verdict<R: Threads + Clock + Sync>(
    rt: &R,
    alloc: Global,
    case: &Case,
) -> Result<&'static str> {
    let words = ["pair", "app", "second", "script"];
    let outside = Outside::of_three(
        alloc,
        case.bytes("app"),
        case.bytes("second"),
        case.bytes("third"),
    )?;
    let Some(step) = case.number("step") else {
        let ran = run_on(rt, alloc, &words, outside, &NoGate);
        return pair_difference(rt, alloc, case, &ran);
    };
    let gate = Answers {
        sides: Sides::of(rt, u64::from(step)),
        post: u64::from(step.saturating_sub(1)),
    };
    let ran = run_on(rt, alloc, &words, outside, &gate);
    if gate.sides.is_late() {
        return Ok("a hold gave up");
    }
    pair_difference(rt, alloc, case, &ran)
}
