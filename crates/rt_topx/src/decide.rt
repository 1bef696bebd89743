// From a command to what is done, text by text.

ghost use Rattle.std.specs.Prelude.{◌≢◌, ℕ, List, drop};
ghost use Rattle.rt_app.specs.Accepted.{IsAccepted};
ghost use Rattle.rt_app.specs.View.{app_of};
ghost use Rattle.rt_build.specs.Accepted.{IsApplication};
ghost use Rattle.rt_board.specs.Board.{AreInputs};
ghost use Rattle.rt_target.specs.Reading.{IsBoardOf};
ghost use Rattle.rt_top.specs.Program.{inputs};
ghost use Rattle.rt_top.specs.Inside.Using.{HasUse, No, Then};
ghost use Rattle.rt_top.specs.Reads.{given_by};
ghost use Rattle.rt_top.specs.Inside.Decides.{Conducts};
ghost use Rattle.rt_topx.specs.Inside.Beside.{command_of};
ghost use Rattle.rt_topx.specs.Kinds.{kinds_of};
ghost use Rattle.rt_topx.specs.Rticx.{rticx_program};

use crate::audit::audit;
use crate::boards::read_board_of;
use crate::bounds::bounds;
use crate::command::Command;
use crate::cycles::cycles;
use crate::live::live;
use crate::native::native;
use crate::respond::respond;
use crate::run::run;
use crate::timed::timed_bounds;
use crate::why::why;
use rt_app::App;
use rt_board::Board;
use rt_devices::Gate;
use rt_ids::Status;
use rt_outside::{Sink, Source};
use rt_top::reading::{read_accepted, read_listing};
use rt_top::reply::finish;
use std::alloc::Global;
use std::thread::Threads;

/// Does what the command is, and answers the status that the program ends with.
pub(crate) fn decide<
    R: Threads + Sync,
    A: Source,
    B: Source,
    C: Source,
    K: Sink + Send,
    G: Gate + Sync,
>(
    rt: &R,
    alloc: Global,
    command: Command,
    first: &mut A,
    second: &mut B,
    third: &mut C,
    out: &mut K,
    gate: &G,
) -> Status
    ensures { let a = given_by A.past first.old first.new in
        let b = given_by B.past second.old second.new in
        let c = given_by C.past third.old third.new in
        Conducts rticx_program command (kinds_of command) (inputs a b c)
        (Then a (HasUse A.past A.left A.faults first.old first.new)
        (Then b (HasUse B.past B.left B.faults second.old second.new)
        (Then c (HasUse C.past C.left C.faults third.old third.new) No)))
        (K.taken out.old) (K.taken out.new) (K.faults out.old) (K.faults out.new) result }
{
    match command {
        Command::Why => finish(out, &why(alloc, first)),
        Command::Bounds => finish(out, &bounds(alloc, first)),
        Command::TimedBounds => match read_listing(alloc, first) {
            Ok(image) => finish(out, &timed_bounds(alloc, &image, second)),
            Err(reply) => finish(out, &reply),
        },
        other => match read_accepted(alloc, first) {
            Ok(app) => decide_of(rt, alloc, other, &app, second, third, out, gate),
            Err(reply) => finish(out, &reply),
        },
    }
}

/// A command that reads a third text, beside a board.
#[derive(Clone, Copy, PartialEq, Eq)]
enum Beside {
    Run,
    Audit,
    Live,
}

/// Does what a command is of its application, which is the first of its texts.
fn decide_of<R: Threads + Sync, B: Source, C: Source, K: Sink + Send, G: Gate + Sync>(
    rt: &R,
    alloc: Global,
    command: Command,
    app: &App,
    second: &mut B,
    third: &mut C,
    out: &mut K,
    gate: &G,
) -> Status
    requires accepted { IsAccepted (app_of app.now) }
    requires why { command ≢ Command.Why }
    requires bounds { command ≢ Command.Bounds }
    requires timed_bounds { command ≢ Command.TimedBounds }
    ensures { (first : List ℕ) → IsApplication first (app_of app.now) →
        let b = given_by B.past second.old second.new in
        let c = given_by C.past third.old third.new in
        Conducts rticx_program command (drop 1 (kinds_of command)) (inputs first b c)
        (Then b (HasUse B.past B.left B.faults second.old second.new)
        (Then c (HasUse C.past C.left C.faults third.old third.new) No))
        (K.taken out.old) (K.taken out.new) (K.faults out.old) (K.faults out.new) result }
{
    match command {
        Command::Run => decide_on_board(rt, alloc, Beside::Run, app, second, third, out, gate),
        Command::Audit => decide_on_board(rt, alloc, Beside::Audit, app, second, third, out, gate),
        Command::Live => decide_on_board(rt, alloc, Beside::Live, app, second, third, out, gate),
        Command::Native => finish(out, &native(alloc, app, second)),
        Command::Cycles => finish(out, &cycles(alloc, app)),
        Command::Respond => finish(out, &respond(alloc, app, second)),
        Command::Why | Command::Bounds | Command::TimedBounds => unreachable!(),
    }
}

/// Does what a command is of its application that goes on with a board and a third text.
fn decide_on_board<R: Threads + Sync, B: Source, C: Source, K: Sink + Send, G: Gate + Sync>(
    rt: &R,
    alloc: Global,
    beside: Beside,
    app: &App,
    second: &mut B,
    third: &mut C,
    out: &mut K,
    gate: &G,
) -> Status
    requires { IsAccepted (app_of app.now) }
    ensures { (first : List ℕ) → IsApplication first (app_of app.now) →
        let command = command_of beside in
        let b = given_by B.past second.old second.new in
        let c = given_by C.past third.old third.new in
        Conducts rticx_program command (drop 1 (kinds_of command)) (inputs first b c)
        (Then b (HasUse B.past B.left B.faults second.old second.new)
        (Then c (HasUse C.past C.left C.faults third.old third.new) No))
        (K.taken out.old) (K.taken out.new) (K.faults out.old) (K.faults out.new) result }
{
    match read_board_of(alloc, app, second) {
        Ok(board) => decide_beside(rt, alloc, beside, app, &board, third, out, gate),
        Err(reply) => finish(out, &reply),
    }
}

/// Does what a command is of its application and its board.
fn decide_beside<R: Threads + Sync, C: Source, K: Sink + Send, G: Gate + Sync>(
    rt: &R,
    alloc: Global,
    beside: Beside,
    app: &App,
    board: &Board,
    third: &mut C,
    out: &mut K,
    gate: &G,
) -> Status
    requires accepted { IsAccepted (app_of app.now) }
    requires inputs { AreInputs (app_of app.now) board.now.inputs }
    ensures { (first second : List ℕ) → IsApplication first (app_of app.now) →
        IsBoardOf (app_of app.now) second board.now →
        let command = command_of beside in
        let c = given_by C.past third.old third.new in
        Conducts rticx_program command (drop 2 (kinds_of command)) (inputs first second c)
        (Then c (HasUse C.past C.left C.faults third.old third.new) No)
        (K.taken out.old) (K.taken out.new) (K.faults out.old) (K.faults out.new) result }
{
    match beside {
        Beside::Run => run(alloc, app, board, third, out),
        Beside::Audit => finish(out, &audit(alloc, app, board, third)),
        Beside::Live => live(rt, alloc, app, board, third, out, gate),
    }
}
