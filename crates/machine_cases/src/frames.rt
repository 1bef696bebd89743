// Cases of frames, step by step.

ghost use Rattle.std.specs.Prelude.{◌<◌, ◌≤◌, ◌+◌, length};
ghost use Rattle.rt_context.specs.declared.sizes.TheConstants.{CONTEXTS};

use crate::checks::OK;
use Answer::{Done, RunsOn};
use Step::{Back, Call, Enter, Leave, Write};
use anyhow::Result;
use rt_code::{BodyRow, Instr, Registers};
use rt_context::Frames;
use rt_ids::TaskId;
use std::alloc::Global;

/// What a row of the walk does.
#[derive(Clone, Copy)]
enum Step {
    /// Exception entry from an exception number at an address, with a frame of so many words.
    Enter(u32, u32, u32),
    /// A slot is written.
    Write(u32, u32),
    /// A call from an address of a body of so many words, with two arguments in the slots from one on.
    Call(u32, u32, u32),
    /// Exception return.
    Leave,
    /// Return from a called body.
    Back,
}

/// What the step answers: whether it was done, or the address that runs on.
#[derive(Clone, Copy, Debug, PartialEq, Eq)]
enum Answer {
    Done(bool),
    RunsOn(Option<u32>),
}

/// Takes a step: it enters at most one handler.
fn take(frames: &mut Frames, step: Step) -> Answer
    requires { length frames.old.below < CONTEXTS }
    ensures { length frames.new.below ≤ length frames.old.below + 1 }
{
    match step {
        Enter(number, address, words) => Done(frames.enter(number, address, words)),
        Write(slot, value) => {
            let mut registers = Registers {
                address: 0,
                basepri: 0,
                primask: false,
            };
            let done = frames.execute(Instr::Set(slot, value), 0, &mut registers, &mut []);
            Done(done.is_ok())
        }
        Call(address, words, from) => {
            let row = BodyRow {
                task: TaskId(0),
                entry: 0,
                frame: words,
                args: 2,
            };
            Done(frames.may_call() && frames.call(row, from, address))
        }
        Leave => RunsOn(frames.leave()),
        Back => RunsOn(frames.back()),
    }
}

/// On a stack of 40 words, of which the thread has two: a step, its answer, and after it the depth in bytes and the
/// words of the running frame.
const WALK: [(Step, Answer, u32, &[u32]); 18] = [
    (Back, RunsOn(None), 8, &[0, 0]),
    (Leave, RunsOn(None), 8, &[0, 0]),
    (Call(50, 2, 0), Done(false), 8, &[0, 0]),
    (Enter(17, 100, 3), Done(true), 52, &[0, 0, 0]),
    (Write(0, 7), Done(true), 52, &[7, 0, 0]),
    (Write(1, 8), Done(true), 52, &[7, 8, 0]),
    (Write(3, 9), Done(false), 52, &[7, 8, 0]),
    (Enter(18, 200, 1), Done(true), 88, &[0]),
    (Leave, RunsOn(Some(200)), 52, &[7, 8, 0]),
    (Call(300, 1, 0), Done(false), 52, &[7, 8, 0]),
    (Call(300, 3, 2), Done(false), 52, &[7, 8, 0]),
    (Call(300, 3, 0), Done(true), 64, &[7, 8, 0]),
    (Leave, RunsOn(None), 64, &[7, 8, 0]),
    (Enter(19, 400, 17), Done(false), 64, &[7, 8, 0]),
    (Enter(19, 400, 16), Done(true), 160, &[0; 16]),
    (Leave, RunsOn(Some(400)), 64, &[7, 8, 0]),
    (Back, RunsOn(Some(300)), 52, &[7, 8, 300]),
    (Leave, RunsOn(Some(100)), 8, &[0, 0]),
];

/// The same where exception entry pushes 26 words.
const WIDE_WALK: [(Step, Answer, u32, &[u32]); 5] = [
    (Enter(17, 100, 13), Done(false), 8, &[0, 0]),
    (Enter(17, 100, 12), Done(true), 160, &[0; 12]),
    (
        Write(11, 7),
        Done(true),
        160,
        &[0, 0, 0, 0, 0, 0, 0, 0, 0, 0, 0, 7],
    ),
    (Leave, RunsOn(Some(100)), 8, &[0, 0]),
    (Leave, RunsOn(None), 8, &[0, 0]),
];

/// The first row of a walk whose step answers, or leaves the stack, in another way than it says.
fn first_wrong(frames: &mut Frames, rows: &[(Step, Answer, u32, &[u32])]) -> Option<usize>
    requires { length frames.old.below + length rows.now ≤ CONTEXTS }
{
    for (row, &(step, answer, depth, slots)) in rows.iter().enumerate() {
        let took = take(frames, step);
        if (took, frames.depth(), frames.slots()) != (answer, depth, slots) {
            return Some(row);
        }
    }
    None
}

/// Frames stand on each other, with the basic frame of 8 words at exception entry, and with the extended one of 26.
pub fn frames_difference(alloc: Global) -> Result<&'static str> {
    if first_wrong(&mut Frames::new(alloc, 160, 8, 2)?, &WALK).is_some() {
        return Ok("a step with the basic frame differs");
    }
    if first_wrong(&mut Frames::new(alloc, 160, 26, 2)?, &WIDE_WALK).is_some() {
        return Ok("a step with the extended frame differs");
    }
    Ok(OK)
}
