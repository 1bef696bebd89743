// The core's own lines and the devices, side by side, and the end of the run.
ghost use Rattle.std.specs.Prelude.{All, OnOk, is_ok, ◌≡◌};
ghost use Rattle.std.specs.Thread.{IsSync};
ghost use Rattle.rt_code.specs.Lines.{HasLines};
ghost use Rattle.rt_core.specs.Machine.{IsFresh};
ghost use Rattle.rt_outside.specs.Faults.{HasCause};
ghost use Rattle.rt_script.specs.Script.{HasNames, count};
ghost use Rattle.rt_live.specs.{Able.CanGo, Going.Goes, Interleaving.turns, Ready.AreGathered, Ready.AreReady};
ghost use Rattle.rt_live.specs.{Requests.no_route, Shares.own_turns, Written.Ended, Inside.Working.AllWork};
ghost use Rattle.rt_live.specs.{Inside.Working.CanWork, declared.share.Share.TheVariants.BesideDevices};

use crate::account::AccountRow;
use crate::ending::end;
use crate::gathering::gather_all;
use crate::routes::{CoreRole, NoRoutes};
use crate::share::Share;
use crate::turns::{Between, own_lines};
use rt_core::Core;
use rt_devices::{Device, Gate};
use rt_ids::limits::DEVICES;
use rt_outside::{Failed, Sink};
use rt_script::Line as Asked;
use rt_words::{Line, Words};
use std::marker::Sync;
use std::thread::{Threads, for_each_mut, join_mut};

/// The part of a core that runs alone, beside devices.
const ALONE: CoreRole<NoRoutes> = CoreRole {
    share: Share::BesideDevices,
    routes: NoRoutes,
};

/// The core does the script's own lines while the devices make their pends. It ends when all of them have ended.
fn beside<R: Threads + Sync, K: Sink, G: Gate + Sync>(
    rt: &R,
    core: &mut Core,
    line: &mut Line,
    words: &Words,
    script: &[Asked],
    out: &mut K,
    gate: &G,
    devices: &mut [Device],
) -> Result<(), Failed>
    requires can { CanGo (count script.now) no_route core.old line.old words.now }
    requires declared { HasNames core.old.image.names script.now }
    requires work { All (CanWork words.now) devices.old }
    ensures worked { AllWork devices.old devices.new }
    ensures goes { Goes no_route (own_turns BesideDevices script.now) (is_ok result) line.old line.new
        core.old core.new (K.taken out.old) (K.taken out.new) }
    ensures cause { HasCause (K.faults out.old) (K.faults out.new) result }
    ensures quiet { OnOk result (K.faults out.new ≡ K.faults out.old) }
{
    let ((), done) = join_mut(
        rt,
        &mut ||
            requires { IsSync R.row × IsSync G.row × All (CanWork words.now) devices.now }
            ensures { AllWork devices.entry.now devices.exit.now }
        {
            for_each_mut(
                rt,
                devices,
                usize::from(DEVICES),
                &|_, device| { device.work(words, gate) },
            )
        },
        &mut || -> Result<(), Failed>
            requires can { CanGo (count script.now) no_route core.now line.now words.now }
            requires declared { HasNames core.now.image.names script.now }
            ensures goes { Goes no_route (own_turns BesideDevices script.entry.now) (is_ok result)
                line.entry.now line.exit.now core.entry.now core.exit.now
                (K.taken out.entry.now) (K.taken out.exit.now) }
            ensures cause { HasCause (K.faults out.entry.now) (K.faults out.exit.now) result }
            ensures quiet { OnOk result (K.faults out.exit.now ≡ K.faults out.entry.now) }
        {
            let mut between = Between::new();
            own_lines(core, line, words, &ALONE, script, out, &mut between, gate)
        },
    );
    done
}

/// The core does the script's own lines while the devices make their pends. Then the lines of the devices are gathered.
/// The core looks once more, makes as many core steps again as there were, each behind a look, and the line of the
/// total goes out.
pub(crate) fn go<R: Threads + Sync, K: Sink, G: Gate + Sync>(
    rt: &R,
    core: &mut Core,
    line: &mut Line,
    words: &Words,
    script: &[Asked],
    mut devices: Vec<Device>,
    rows: &mut [AccountRow],
    out: &mut K,
    gate: &G,
) -> Result<(), Failed>
    requires fresh { IsFresh core.old }
    requires lines { HasLines core.old.image }
    requires ready { AreReady core.old.image.names script.now words.now line.old devices.items rows.old }

    // The core's line made the calls of the turns, and no other: the latches of the looks. What was written is the
    // trace of the interleaving with just what these looks found, and its total. At a fault the last look may be cut,
    // or the fault came in the line of the total.
    ensures ended { Ended no_route 0 0 (turns script.now) (is_ok result) line.new.calls core.old core.new
        (K.taken out.old) (K.taken out.new) }

    // Either way each device has made its pends, and its line is gathered.
    ensures gathered { AreGathered core.old.image.names script.now words.now line.new rows.new }
    ensures cause { HasCause (K.faults out.old) (K.faults out.new) result }
    ensures quiet { OnOk result (K.faults out.new ≡ K.faults out.old) }
{
    let done = beside(rt, core, line, words, script, out, gate, &mut devices);
    gather_all(line, words, devices, rows);
    done?;
    let steps = core.steps();
    let mut between = Between::new();
    end(core, line, words, &ALONE, steps, out, &mut between, gate)
}
