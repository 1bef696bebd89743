// Runs a core beside the devices of a script, some of which give words.
ghost use Rattle.std.specs.Prelude.{◌≡◌, ◌≤◌, [], ◌++◌, IsErrOf, OnOk, List, ℕ, false, length, map, true};
ghost use Rattle.rt_app.specs.Accepted.{IsAccepted};
ghost use Rattle.rt_app.specs.View.{app_of};
ghost use Rattle.rt_build.specs.Image.{IsImageOf};
ghost use Rattle.rt_code.specs.Lines.{HasLines};
ghost use Rattle.rt_core.specs.Machine.{IsFresh};
ghost use Rattle.rt_outside.specs.{Bytes.Took, Faults.Rose};
ghost use Rattle.rt_script.specs.Script.{HasNames, IsScript};
ghost use Rattle.rt_board.specs.Board.{AreInputs};
ghost use Rattle.rt_given.specs.Given.{asked};
ghost use Rattle.rt_live.specs.Ready.{IsReady};
ghost use Rattle.rt_values.specs.Sides.{new_taker};
ghost use Rattle.rt_inputs.specs.Inside.Placed.{CanRun};
ghost use Rattle.rt_live_inputs.specs.Boxes.{boxes, plain};
ghost use Rattle.rt_live_inputs.specs.Inside.Making.{AreGivers};
ghost use Rattle.rt_live_inputs.specs.declared.making.TheConstants.{MOST_BOXES};
ghost use Rattle.rt_live_inputs.specs.Output.{HasWritten, HasWrittenPart, IsLiveText, TookStart};

use crate::closing::close_boxes;
use crate::ending::{go, put_front, put_rows, put_total};
use crate::happening::Going;
use crate::making::{Places, places_of, plain_script};
use rt_app::App;
use rt_board::Board;
use rt_core::Core;
use rt_devices::Gate;
use rt_given::{GivenLine, GivenScript};
use rt_inputs::{Held, Registers};
use rt_live::gathering::enter_left;
use rt_live::{Account, LiveFail, Ready};
use rt_outside::Sink;
use std::alloc::Global;
use std::marker::{Send, Sync};
use std::thread::Threads;

/// Runs a core to which no event has come beside the devices of a script, in threads of their own, some of which give
/// words. It writes the bytes that stand in front, the trace of the core's image with the words that the devices of the
/// board put, line by line as it happens, with its total of core steps, and the account of the devices' requests. The
/// core's image is one of the application, and the board is one of it. All memory is taken before the first write.
/// After a fault of the sink nothing more happens to the core, and the looks go on until the devices have ended.
pub fn live<R: Threads + Sync, K: Sink + Send, G: Gate + Sync>(
    rt: &R,
    alloc: Global,
    core: &mut Core,
    app: &App,
    board: &Board,
    script: &GivenScript,
    front: &[u8],
    out: &mut K,
    gate: &G,
) -> Result<(), LiveFail>
    requires accepted { IsAccepted (app_of app.now) }
    requires image { IsImageOf (app_of app.now) core.old.image }
    requires inputs { AreInputs (app_of app.now) board.now.inputs }
    requires fresh { IsFresh core.old }
    requires lines { HasLines core.old.image }
    requires declared { HasNames core.old.image.names (asked script.now) }
    ensures ok { OnOk result ((bytes : List ℕ)
        × IsLiveText (app_of app.now) core.old.image board.now script.now bytes
        × Took (K.taken out.old) (K.taken out.new) (front.now ++ bytes)) }

    // At a fault a beginning was taken of a text that could have been written.
    ensures part { IsErrOf result LiveFail.Fault →
        TookStart (app_of app.now) core.old.image board.now script.now front.now (K.taken out.old) (K.taken out.new) }
    ensures none { IsErrOf result LiveFail.NoMemory → Took (K.taken out.old) (K.taken out.new) [] }
    ensures fault { IsErrOf result LiveFail.Fault → Rose (K.faults out.old) (K.faults out.new) }
    ensures quiet { ¬ IsErrOf result LiveFail.Fault → K.faults out.new ≡ K.faults out.old }

    // The core has done what happens in the trace that was taken, at a fault what came up to it, and nothing where
    // memory was not there.
    ensures all { OnOk result (HasWritten (app_of app.now) board.now script.now front.now core.old core.new
        (K.taken out.old) (K.taken out.new)) }
    ensures begun { IsErrOf result LiveFail.Fault →
        HasWrittenPart (app_of app.now) board.now script.now front.now core.old core.new
        (K.taken out.old) (K.taken out.new) }
    ensures untouched { IsErrOf result LiveFail.NoMemory → core.new ≡ core.old }
{
    let lines = script.lines();
    let Ok(plain) = plain_script(alloc, lines) else {
        return Err(LiveFail::NoMemory);
    };
    let Ok(ready) = Ready::of(alloc, core, &plain) else {
        return Err(LiveFail::NoMemory);
    };
    let Ok(places) = places_of(alloc, lines) else {
        return Err(LiveFail::NoMemory);
    };
    if run(rt, core, app, board, lines, ready, places, front, out, gate) {
        Ok(())
    } else {
        Err(LiveFail::Fault)
    }
}

/// The run of what was made ready, to its end. It answers whether no fault came.
fn run<R: Threads + Sync, K: Sink, G: Gate + Sync>(
    rt: &R,
    core: &mut Core,
    app: &App,
    board: &Board,
    lines: &[GivenLine],
    ready: Ready<'_>,
    places: Places,
    front: &[u8],
    out: &mut K,
    gate: &G,
) -> bool
    requires can { CanRun (app_of app.now) board.now core.old }
    requires image { IsImageOf (app_of app.now) core.old.image }
    requires fresh { IsFresh core.old }
    requires lines { HasLines core.old.image }
    requires script { IsScript (asked lines.now) }
    requires declared { HasNames core.old.image.names (asked lines.now) }
    requires plain { ready.script.now ≡ plain lines.now }
    requires ready { IsReady core.old.image.names ready }
    requires few { length places.kinds.items ≤ MOST_BOXES }
    requires kinds { places.kinds.items ≡ boxes lines.now }
    requires takers { places.takers.items ≡ map new_taker places.mailboxes.items }
    requires givers { AreGivers lines.now places.kinds.items places.mailboxes.items places.givers.items }
    ensures ok { result ≡ true → HasWritten (app_of app.now) board.now lines.now front.now core.old core.new
        (K.taken out.old) (K.taken out.new) }
    ensures quiet { result ≡ true → K.faults out.new ≡ K.faults out.old }
    ensures part { result ≡ false → HasWrittenPart (app_of app.now) board.now lines.now front.now core.old core.new
        (K.taken out.old) (K.taken out.new) }
    ensures fault { result ≡ false → Rose (K.faults out.old) (K.faults out.new) }
{
    let Ready {
        script: _,
        words,
        mut line,
        devices,
        mut rows,
    } = ready;
    let Places {
        kinds,
        mailboxes,
        mut takers,
        givers,
    } = places;
    let mut going = Going {
        registers: Registers::new(),
        held: Held::new(),
        went: put_front(front, out),
    };
    go(
        rt,
        core,
        app,
        board,
        &mut going,
        &mut line,
        &words,
        &kinds,
        &mailboxes,
        &mut takers,
        lines,
        devices,
        givers,
        &mut rows,
        out,
        gate,
    );
    put_total(&mut going, core.steps(), out);
    let left = words.close(line);
    enter_left(&mut rows, 0, &left, 0, 0);
    close_boxes(&mut rows, &kinds, mailboxes, takers);
    put_rows(&mut going, &Account { rows }, &core.image().names, out);
    going.went
}
