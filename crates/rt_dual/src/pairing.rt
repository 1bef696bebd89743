// Runs two cores beside each other.

ghost use Rattle.std.specs.Prelude.{IsErrOf, List, OnErr, OnOk, [], ℕ, ◌≡◌, ◌⊎◌};
ghost use Rattle.rt_code.specs.Lines.{HasLines};
ghost use Rattle.rt_core.specs.Machine.{IsFresh};
ghost use Rattle.rt_outside.specs.{Bytes.Took, Bytes.TookPrefix, Faults.HasCause, Faults.Rose};
ghost use Rattle.rt_script.specs.Script.{HasNames};
ghost use Rattle.rt_listing.specs.Numbers.{HasTypedNumbers};
ghost use Rattle.rt_dual.specs.Course.{first_events, second_events, turns};
ghost use Rattle.rt_dual.specs.Output.{HasBegun, IsPairText, TookPart};
ghost use Rattle.rt_dual.specs.{Doing.HasPaired, Doing.HasPairedPart, Inside.Both.CanWrite, Inside.Both.IsWritten};

use crate::closing::accounts_of;
use crate::making::{Both, Side, both_of};
use crate::running::run_both;
use crate::writing::put_core;
use rt_code::Image;
use rt_core::Core;
use rt_devices::Gate;
use rt_live::LiveFail;
use rt_outside::{Failed, Sink};
use rt_script::Script;
use std::alloc::Global;
use std::thread::Threads;

/// Runs two cores to which no event has come beside each other, each in a thread of its own where one can be made. A
/// post of a core that its image does not enable pends the other application's interrupt of that name, by one fetch_or
/// of the other core's words behind the step. The first core gets the events of the script, devices' requests at their
/// lines, the second its steps and ticks alone. Each latches all its words before each of its steps and once behind
/// its last event. When both have ended, the text of each is written: its line, the listing of its image, its trace
/// with the total of core steps, and the account of the other core's pends. The traces are kept in memory until then,
/// so nothing has been written where memory is not there.
#[inline(never)]
pub fn pair<R: Threads + Sync, K: Sink, G: Gate + Sync>(
    rt: &R,
    alloc: Global,
    first: &mut Core,
    second: &mut Core,
    script: &Script,
    out: &mut K,
    gate: &G,
) -> Result<(), LiveFail>
    requires first_fresh { IsFresh first.old }
    requires second_fresh { IsFresh second.old }
    requires first_lines { HasLines first.old.image }
    requires second_lines { HasLines second.old.image }
    requires declared { HasNames first.old.image.names script.now }
    ensures ok { OnOk result ((bytes : List ℕ) × IsPairText first.old.image second.old.image script.now bytes
        × Took (K.taken out.old) (K.taken out.new) bytes) }

    // At a fault a beginning was taken of a text that could have been written.
    ensures part { IsErrOf result LiveFail.Fault →
        TookPart first.old.image second.old.image script.now (K.taken out.old) (K.taken out.new) }
    ensures none { IsErrOf result LiveFail.NoMemory → Took (K.taken out.old) (K.taken out.new) [] }

    // Where it came to write, each listing is of its image alone.
    ensures first_numbers { ¬ IsErrOf result LiveFail.NoMemory → HasTypedNumbers first.old.image }
    ensures second_numbers { ¬ IsErrOf result LiveFail.NoMemory → HasTypedNumbers second.old.image }

    // A fault is told, and nothing else is told as one.
    ensures fault { IsErrOf result LiveFail.Fault → Rose (K.faults out.old) (K.faults out.new) }
    ensures quiet { ¬ IsErrOf result LiveFail.Fault → K.faults out.new ≡ K.faults out.old }

    // Where memory is not there neither core has run, or both have: each has then done the first of its events and no
    // others, for whole looks of declared bits, and has not gone on behind the line that wanted it.
    ensures alike { IsErrOf result LiveFail.NoMemory →
        ((first.new ≡ first.old) × (second.new ≡ second.old))
        ⊎ (HasBegun (turns (first_events script.now)) first.old first.new
        × HasBegun (turns (second_events script.now)) second.old second.new) }

    // Behind a whole run each core has done all the events of its trace that was taken.
    ensures all { OnOk result
        (HasPaired script.now first.old first.new second.old second.new (K.taken out.old) (K.taken out.new)) }

    // At a fault each core has done all the events of its trace in the text of which a beginning was taken.
    ensures begun { IsErrOf result LiveFail.Fault →
        HasPairedPart script.now first.old first.new second.old second.new (K.taken out.old) (K.taken out.new) }
{
    let lines = script.lines();
    let Ok(mut both) = both_of(alloc, first.image(), second.image()) else {
        return Err(LiveFail::NoMemory);
    };
    let Ok(()) = run_both(rt, first, second, lines, &mut both, gate) else {
        return Err(LiveFail::NoMemory);
    };
    match put_both(both, first.image(), second.image(), out) {
        Ok(()) => Ok(()),
        Err(_) => Err(LiveFail::Fault),
    }
}

/// Closes the words of both cores, and writes their texts. It takes no memory.
#[inline(never)]
fn put_both<K: Sink>(both: Both, first: &Image, second: &Image, out: &mut K) -> Result<(), Failed>
    requires { CanWrite both }
    ensures ok { OnOk result ((bytes : List ℕ) × IsWritten first.now second.now both bytes
        × Took (K.taken out.old) (K.taken out.new) bytes) }
    ensures err { OnErr result ((bytes : List ℕ) × IsWritten first.now second.now both bytes
        × TookPrefix (K.taken out.old) (K.taken out.new) bytes) }
    ensures cause { HasCause (K.faults out.old) (K.faults out.new) result }
    ensures quiet { OnOk result (K.faults out.new ≡ K.faults out.old) }
{
    let Both {
        words,
        first: left,
        second: right,
    } = both;
    let Side {
        line,
        role: _,
        text,
        rows,
    } = left;
    let Side {
        line: far_line,
        role: _,
        text: far_text,
        rows: far_rows,
    } = right;
    let accounts = accounts_of(words, line, far_line, rows, far_rows);
    put_core(out, &text, &accounts.0, first)?;
    put_core(out, &far_text, &accounts.1, second)
}
