// The core's own lines and the devices, side by side.
ghost use Rattle.std.specs.Prelude.{All, ◌+◌, flat_map};
ghost use Rattle.std.specs.Thread.{IsSync};
ghost use Rattle.rt_app.specs.View.{app_of};
ghost use Rattle.rt_script.specs.Script.{HasNames, count};
ghost use Rattle.rt_live.specs.Inside.Working.{AllWork, CanWork};
ghost use Rattle.rt_given.specs.Given.{asked};
ghost use Rattle.rt_inputs.specs.Inside.Ran.{moment};
ghost use Rattle.rt_live_inputs.specs.Looking.{line_turns};
ghost use Rattle.rt_live_inputs.specs.Inside.Able.{AllCanGive, AllGave, CanTurn};
ghost use Rattle.rt_live_inputs.specs.Inside.Turning.{Turns};

use crate::boxes::BoxKind;
use crate::device::GivingDevice;
use crate::happening::Going;
use crate::turns::own_lines;
use rt_app::App;
use rt_board::Board;
use rt_core::Core;
use rt_devices::{Device, Gate};
use rt_given::GivenLine;
use rt_ids::limits::DEVICES;
use rt_outside::Sink;
use rt_values::{Mailbox, Taker};
use rt_words::{Line, Words};
use std::marker::Sync;
use std::thread::{Threads, for_each_mut, join_mut};

/// In at most so many threads words are given.
const GIVING_THREADS: usize = 64;

/// The devices make their requests, those that give no words and those that do.
fn work_all<R: Threads + Sync, G: Gate + Sync>(
    rt: &R,
    words: &Words,
    boxes: &[Mailbox],
    gate: &G,
    devices: &mut [Device],
    givers: &mut [GivingDevice],
)
    requires work { All (CanWork words.now) devices.old }
    requires give { AllCanGive boxes.now givers.old }
    ensures worked { AllWork devices.old devices.new }
    ensures gave { AllGave givers.old givers.new }
{
    join_mut(
        rt,
        &mut ||
            requires { IsSync R.row × IsSync G.row × All (CanWork words.now) devices.now }
            ensures { AllWork devices.entry.now devices.exit.now }
        {
            for_each_mut(
                rt,
                devices,
                usize::from(DEVICES),
                &|_, device| { device.work(words, gate) },
            )
        },
        &mut ||
            requires { IsSync R.row × IsSync G.row × AllCanGive boxes.now givers.now }
            ensures { AllGave givers.entry.now givers.exit.now }
        {
            for_each_mut(
                rt,
                givers,
                GIVING_THREADS,
                &|k, device| { device.work(&boxes[k], gate) },
            )
        },
    );
}

/// The core does the script's own lines while the devices make their requests. It ends when all of them have ended.
pub(crate) fn beside<R: Threads + Sync, K: Sink, G: Gate + Sync>(
    rt: &R,
    core: &mut Core,
    app: &App,
    board: &Board,
    going: &mut Going,
    line: &mut Line,
    words: &Words,
    kinds: &[BoxKind],
    boxes: &[Mailbox],
    takers: &mut [Taker],
    script: &[GivenLine],
    out: &mut K,
    gate: &G,
    devices: &mut [Device],
    givers: &mut [GivingDevice],
)
    requires can { CanTurn (count (asked script.now) + 1) (app_of app.now) board.now kinds.now core.old line.old
        words.now boxes.now takers.old }
    requires declared { HasNames core.old.image.names (asked script.now) }
    requires work { All (CanWork words.now) devices.old }
    requires give { AllCanGive boxes.now givers.old }
    ensures worked { AllWork devices.old devices.new }
    ensures gave { AllGave givers.old givers.new }
    ensures turns { Turns (app_of app.now) board.now kinds.now (flat_map line_turns script.now)
        going.old.went going.new.went line.old line.new takers.old takers.new
        (moment core.old going.old.registers) (moment core.new going.new.registers)
        (K.taken out.old) (K.taken out.new) (K.faults out.old) (K.faults out.new) }
{
    join_mut(
        rt,
        &mut ||
            requires { IsSync R.row × IsSync G.row × All (CanWork words.now) devices.now
                × AllCanGive boxes.now givers.now }
            ensures worked { AllWork devices.entry.now devices.exit.now }
            ensures gave { AllGave givers.entry.now givers.exit.now }
        { work_all(rt, words, boxes, gate, devices, givers) },
        &mut ||
            requires can { CanTurn (count (asked script.now) + 1) (app_of app.now) board.now kinds.now core.now line.now
                words.now boxes.now takers.now }
            requires declared { HasNames core.now.image.names (asked script.now) }
            ensures { Turns (app_of app.entry.now) board.entry.now kinds.entry.now
                (flat_map line_turns script.entry.now) going.entry.now.went going.exit.now.went
                line.entry.now line.exit.now takers.entry.now takers.exit.now
                (moment core.entry.now going.entry.now.registers) (moment core.exit.now going.exit.now.registers)
                (K.taken out.entry.now) (K.taken out.exit.now) (K.faults out.entry.now) (K.faults out.exit.now) }
        {
            own_lines(
                core, app, board, going, line, words, kinds, boxes, takers, script, out, gate,
            )
        },
    );
}
