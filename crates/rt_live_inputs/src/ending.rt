// The run beside the devices to its last turn, and the text behind the trace.
ghost use Rattle.std.specs.Prelude.{◌≡◌, ◌<◌, ◌^◌, map, true};
ghost use Rattle.rt_app.specs.View.{app_of};
ghost use Rattle.rt_code.specs.Lines.{HasLines};
ghost use Rattle.rt_core.specs.Machine.{IsFresh};
ghost use Rattle.rt_script.specs.Script.{HasNames, IsScript};
ghost use Rattle.rt_trace.specs.Text.{total_text};
ghost use Rattle.rt_live.specs.Account.{account_text};
ghost use Rattle.rt_live.specs.Ready.{AreGathered, AreReady};
ghost use Rattle.rt_given.specs.Given.{asked};
ghost use Rattle.rt_inputs.specs.Inside.Ran.{moment};
ghost use Rattle.rt_inputs.specs.Inside.Placed.{CanRun};
ghost use Rattle.rt_values.specs.Sides.{TakerSide, new_taker};
ghost use Rattle.rt_live_inputs.specs.Boxes as spec_boxes;
ghost use Rattle.rt_live_inputs.specs.Boxes.{plain};
ghost use Rattle.rt_live_inputs.specs.Looking as spec;
ghost use Rattle.rt_live_inputs.specs.Inside.Going.{Puts};
ghost use Rattle.rt_live_inputs.specs.Inside.Making.{AreGivers, HasGone};

use crate::beside::beside;
use crate::boxes::BoxKind;
use crate::closing::{gather_boxes, gather_devices};
use crate::device::GivingDevice;
use crate::happening::Going;
use crate::turns::last_turns;
use rt_app::App;
use rt_board::Board;
use rt_core::Core;
use rt_devices::{Device, Gate};
use rt_given::GivenLine;
use rt_ids::Names;
use rt_live::account::put_account;
use rt_live::{Account, AccountRow};
use rt_outside::{Sink, put_all};
use rt_run::put_end;
use rt_trace::LineBuffer;
use rt_values::{Mailbox, Taker};
use rt_words::{Line, Words};
use std::marker::Sync;
use std::thread::Threads;

/// How many core steps a line is.
fn steps_in(line: &GivenLine) -> u32
    ensures { result ≡ spec.steps_in line.now }
{
    match line {
        GivenLine::Steps(count) => *count,
        _ => 0,
    }
}

/// How many core steps the core's own lines are.
fn own_steps(lines: &[GivenLine]) -> u64
    requires { IsScript (asked lines.now) }
    ensures { result ≡ spec.own_steps lines.now }
{
    let mut steps = 0;
    for line in lines {
        steps += u64::from(steps_in(line));
    }
    steps
}

/// The core does its own lines while the devices make their requests. Then the devices are gathered. The core looks
/// once more, and makes as many core steps again as its own lines are, each behind a look.
pub(crate) fn go<R: Threads + Sync, K: Sink, G: Gate + Sync>(
    rt: &R,
    core: &mut Core,
    app: &App,
    board: &Board,
    going: &mut Going,
    line: &mut Line,
    words: &Words,
    kinds: &[BoxKind],
    boxes: &[Mailbox],
    takers: &mut [Taker],
    script: &[GivenLine],
    mut devices: Vec<Device>,
    mut givers: Vec<GivingDevice>,
    rows: &mut [AccountRow],
    out: &mut K,
    gate: &G,
)
    requires can { CanRun (app_of app.now) board.now core.old }
    requires fresh { IsFresh core.old }
    requires lines { HasLines core.old.image }
    requires script { IsScript (asked script.now) }
    requires declared { HasNames core.old.image.names (asked script.now) }
    requires ready { AreReady core.old.image.names (plain script.now) words.now line.old devices.items rows.old }
    requires kinds { kinds.now ≡ spec_boxes.boxes script.now }
    requires takers { takers.old ≡ map new_taker boxes.now }
    requires givers { AreGivers script.now kinds.now boxes.now givers.items }
    ensures gone { HasGone (app_of app.now) board.now script.now kinds.now going.old.went going.new.went
        line.new takers.new (moment core.old going.old.registers) (moment core.new going.new.registers)
        (K.taken out.old) (K.taken out.new) (K.faults out.old) (K.faults out.new) }
    ensures boxes { map (λ (t : TakerSide). t.mailbox) takers.new ≡ boxes.now }
    ensures gathered { AreGathered core.old.image.names (plain script.now) words.now line.new rows.new }
{
    beside(
        rt,
        core,
        app,
        board,
        going,
        line,
        words,
        kinds,
        boxes,
        takers,
        script,
        out,
        gate,
        &mut devices,
        &mut givers,
    );
    gather_devices(line, words, devices, rows);
    gather_boxes(boxes, takers, givers);
    let times = own_steps(script);
    last_turns(
        core, app, board, going, line, words, kinds, boxes, takers, times, out, gate,
    );
}

/// The line of the total, where no fault has come.
pub(crate) fn put_total<K: Sink>(going: &mut Going, total: u64, out: &mut K)
    requires { total < 2 ^ 32 }
    ensures { Puts (total_text total) going.old.went going.new.went
        (K.taken out.old) (K.taken out.new) (K.faults out.old) (K.faults out.new) }
{
    if !going.went {
        return;
    }
    let done = put_end(out, &mut LineBuffer::new(), total);
    going.went = done.is_ok();
}

/// The lines of the account, where no fault has come.
pub(crate) fn put_rows<K: Sink>(going: &mut Going, account: &Account, names: &Names, out: &mut K)
    ensures { Puts (account_text names.now account.now.rows.items) going.old.went going.new.went
        (K.taken out.old) (K.taken out.new) (K.faults out.old) (K.faults out.new) }
{
    if !going.went {
        return;
    }
    let done = put_account(account, names, out);
    going.went = done.is_ok();
}

/// The bytes that stand in front.
pub(crate) fn put_front<K: Sink>(front: &[u8], out: &mut K) -> bool
    ensures { Puts front.now true result
        (K.taken out.old) (K.taken out.new) (K.faults out.old) (K.faults out.new) }
{
    put_all(out, front).is_ok()
}
