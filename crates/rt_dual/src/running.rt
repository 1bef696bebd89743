// Both cores run beside each other.
ghost use Rattle.std.specs.{Prelude.OnOk, Thread.IsSync};
ghost use Rattle.rt_code.specs.Lines.{HasLines};
ghost use Rattle.rt_core.specs.Machine.{IsFresh};
ghost use Rattle.rt_script.specs.Script.{HasNames, IsScript};
ghost use Rattle.rt_live.specs.Shares.{own_events};
ghost use Rattle.rt_dual.specs.Inside.Both.{AreBefore, CanRun, HasEnded, HaveRun};
ghost use Rattle.rt_dual.specs.{Course.first_events, Course.second_events, Course.turns, Output.HasBegun};

use crate::making::{Both, Side};
use rt_core::Core;
use rt_devices::Gate;
use rt_ids::NoMemory;
use rt_live::run_turns;
use rt_outside::Failed;
use rt_script::Line;
use rt_words::Words;
use std::marker::Sync;
use std::thread::{Threads, join_mut};

/// The whole run of a core: the events of the script that are its own, a look behind the last of them, and the line of
/// the total.
#[inline(never)]
fn run_side<G: Gate>(
    core: &mut Core,
    side: &mut Side,
    words: &Words,
    script: &[Line],
    gate: &G,
) -> Result<(), Failed>
    requires can { CanRun script.now core.old side.old words.now }
    ensures ok { OnOk result (HasEnded script.now core.old core.new side.old side.new) }
    ensures begun { HasBegun (turns (own_events side.old.role.share script.now)) core.old core.new }
{
    run_turns(
        core,
        &mut side.line,
        words,
        &side.role,
        script,
        &mut side.text,
        gate,
    )
}

/// Each core runs on its side while the other does, and both have ended when it answers.
#[inline(never)]
fn beside<R: Threads + Sync, G: Gate + Sync>(
    rt: &R,
    first: &mut Core,
    left: &mut Side,
    second: &mut Core,
    right: &mut Side,
    words: &Words,
    script: &[Line],
    gate: &G,
) -> (Result<(), Failed>, Result<(), Failed>)
    requires first_can { CanRun script.now first.old left.old words.now }
    requires second_can { CanRun script.now second.old right.old words.now }
    ensures first_ok { OnOk result.0 (HasEnded script.now first.old first.new left.old left.new) }
    ensures first_begun { HasBegun (turns (own_events left.old.role.share script.now)) first.old first.new }
    ensures second_ok { OnOk result.1 (HasEnded script.now second.old second.new right.old right.new) }
    ensures second_begun { HasBegun (turns (own_events right.old.role.share script.now)) second.old second.new }
{
    join_mut(
        rt,
        &mut || -> Result<(), Failed>
            requires sync { IsSync G.row }
            requires can { CanRun script.now first.now left.now words.now }
            ensures ok { OnOk result (HasEnded script.entry.now first.entry.now first.exit.now
                left.entry.now left.exit.now) }
            ensures begun { HasBegun (turns (own_events left.entry.now.role.share script.entry.now))
                first.entry.now first.exit.now }
        { run_side(first, left, words, script, gate) },
        &mut || -> Result<(), Failed>
            requires can { CanRun script.now second.now right.now words.now }
            ensures ok { OnOk result (HasEnded script.entry.now second.entry.now second.exit.now
                right.entry.now right.exit.now) }
            ensures begun { HasBegun (turns (own_events right.entry.now.role.share script.entry.now))
                second.entry.now second.exit.now }
        { run_side(second, right, words, script, gate) },
    )
}

/// Both cores run to their ends.
#[inline(never)]
pub(crate) fn run_both<R: Threads + Sync, G: Gate + Sync>(
    rt: &R,
    first: &mut Core,
    second: &mut Core,
    script: &[Line],
    both: &mut Both,
    gate: &G,
) -> Result<(), NoMemory>
    requires first_fresh { IsFresh first.old }
    requires second_fresh { IsFresh second.old }
    requires first_lines { HasLines first.old.image }
    requires second_lines { HasLines second.old.image }
    requires before { AreBefore first.old.image second.old.image both.old }
    requires script { IsScript script.now }
    requires declared { HasNames first.old.image.names script.now }
    ensures ok { OnOk result (HaveRun script.now first.old first.new second.old second.new both.new) }
    ensures first_begun { HasBegun (turns (first_events script.now)) first.old first.new }
    ensures second_begun { HasBegun (turns (second_events script.now)) second.old second.new }
{
    let ends = beside(
        rt,
        first,
        &mut both.first,
        second,
        &mut both.second,
        &both.words,
        script,
        gate,
    );
    match ends {
        (Ok(()), Ok(())) => Ok(()),
        _ => Err(NoMemory),
    }
}
