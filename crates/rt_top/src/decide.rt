// Reads the application of a command, and hands it to the command's function.

ghost use Rattle.std.specs.Prelude.{◌≡◌, ℕ, List, ◌∷◌, drop};
ghost use Rattle.rt_app.specs.Accepted.{IsAccepted};
ghost use Rattle.rt_app.specs.View.{app_of};
ghost use Rattle.rt_build.specs.Accepted.{IsApplication};
ghost use Rattle.rt_top.specs.Program.{inputs};
ghost use Rattle.rt_top.specs.Kinds as kind;
ghost use Rattle.rt_top.specs.Kinds.{kinds_of};
ghost use Rattle.rt_top.specs.Rtic.{rtic_program};
ghost use Rattle.rt_top.specs.Reads.{given_by};
ghost use Rattle.rt_top.specs.Inside.Decides.{Conducts};
ghost use Rattle.rt_top.specs.Inside.Meant.{command_word, IsInRange};
ghost use Rattle.rt_top.specs.Inside.Using.{HasUse, No, Then};

use crate::audit::audit;
use crate::build::build;
use crate::check::check;
use crate::command::Command;
use crate::deepest::deepest;
use crate::demo::demo;
use crate::format::fmt;
use crate::live::live;
use crate::pair::pair;
use crate::reading::read_accepted;
use crate::reply::finish;
use crate::run::run;
use crate::soak::soak;
use crate::times::times;
use crate::verify::verify;
use rt_app::App;
use rt_devices::Gate;
use rt_ids::Status;
use rt_outside::{Sink, Source};
use std::alloc::Global;
use std::thread::Threads;

/// Does what the command is, and answers the status that the program ends with.
pub(crate) fn decide<
    R: Threads + Sync,
    A: Source,
    B: Source,
    C: Source,
    K: Sink + Send,
    G: Gate + Sync,
>(
    rt: &R,
    alloc: Global,
    command: Command,
    first: &mut A,
    second: &mut B,
    third: &mut C,
    out: &mut K,
    gate: &G,
) -> Status
    requires { IsInRange (command_word command) }
    ensures { let a = given_by A.past first.old first.new in
        let b = given_by B.past second.old second.new in
        let c = given_by C.past third.old third.new in
        Conducts rtic_program (command_word command) (kinds_of (command_word command)) (inputs a b c)
        (Then a (HasUse A.past A.left A.faults first.old first.new)
        (Then b (HasUse B.past B.left B.faults second.old second.new)
        (Then c (HasUse C.past C.left C.faults third.old third.new) No)))
        (K.taken out.old) (K.taken out.new) (K.faults out.old) (K.faults out.new) result }
{
    match command {
        Command::Demo(tasks) => finish(out, &demo(alloc, tasks)),
        Command::Fmt => finish(out, &fmt(alloc, first)),
        Command::Verify => finish(out, &verify(alloc, first)),
        other => match read_accepted(alloc, first) {
            Ok(app) => decide_of(rt, alloc, other, &app, second, third, out, gate),
            Err(reply) => finish(out, &reply),
        },
    }
}

/// Does what a command is of its application, which is the first of its texts. No command is inlined, because then each
/// would pay for the stack of all.
#[inline(never)]
fn decide_of<R: Threads + Sync, B: Source, C: Source, K: Sink + Send, G: Gate + Sync>(
    rt: &R,
    alloc: Global,
    command: Command,
    app: &App,
    second: &mut B,
    third: &mut C,
    out: &mut K,
    gate: &G,
) -> Status
    requires range { IsInRange (command_word command) }
    requires accepted { IsAccepted (app_of app.now) }
    requires of_application { let kinds = kinds_of (command_word command) in
        kinds ≡ kind.Application ∷ drop 1 kinds }
    ensures { (first : List ℕ) → IsApplication first (app_of app.now) →
        let b = given_by B.past second.old second.new in
        let c = given_by C.past third.old third.new in
        Conducts rtic_program (command_word command) (drop 1 (kinds_of (command_word command))) (inputs first b c)
        (Then b (HasUse B.past B.left B.faults second.old second.new)
        (Then c (HasUse C.past C.left C.faults third.old third.new) No))
        (K.taken out.old) (K.taken out.new) (K.faults out.old) (K.faults out.new) result }
{
    match command {
        Command::Run => run(alloc, app, second, out),
        Command::Live => live(rt, alloc, app, second, out, gate),
        Command::Pair => pair(rt, alloc, app, second, third, out, gate),
        Command::Audit => finish(out, &audit(alloc, app, second)),
        Command::Times => finish(out, &times(alloc, app, second)),
        Command::Check => finish(out, &check(alloc, app)),
        Command::Build => finish(out, &build(alloc, app)),
        Command::Deepest => finish(out, &deepest(alloc, app)),
        Command::Soak {
            number,
            count,
            workers,
        } => finish(out, &soak(rt, alloc, app, number, count, workers)),
        Command::Demo(_) | Command::Fmt | Command::Verify => unreachable!(),
    }
}
