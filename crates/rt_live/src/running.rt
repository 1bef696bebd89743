// Runs a core beside the devices of a script.

ghost use Rattle.std.specs.List.{AllByRecursion};
ghost use Rattle.std.specs.Prelude.{IfOk, IsErrOf, List, OnErr, OnOk, [], ℕ, ◌≡◌};
ghost use Rattle.rt_code.specs.Lines.{HasLines};
ghost use Rattle.rt_core.specs.Machine.{IsFresh};
ghost use Rattle.rt_outside.specs.{Bytes.Took, Faults.HasCause, Faults.Rose};
ghost use Rattle.rt_script.specs.Script.{HasNames};
ghost use Rattle.rt_live.specs.Doing.{HasLived, HasWritten, HasWrittenPart};
ghost use Rattle.rt_live.specs.{Output.IsBalanced, Output.IsLiveText, Output.Lives, Output.TookPart, Ready.IsReady};

use crate::account::{Account, put_account};
use crate::ready::Ready;
use rt_core::Core;
use rt_devices::Gate;
use rt_outside::{Failed, Sink};
use rt_script::Script;
use std::alloc::Global;
use std::marker::{Send, Sync};
use std::thread::Threads;

/// Why a run of a core beside devices, or of two cores, did not come to its end.
#[derive(Debug)]
pub enum LiveFail {
    /// The sink failed.
    Fault,
    /// Memory was wanted and not there; nothing was written.
    NoMemory,
}

/// Runs a core to which no event has come beside the devices of a script, in threads of their own. It writes the trace
/// of the core's image, line by line as it happens, and its total of core steps, and answers the account of the
/// devices' pends. It takes all its memory before its first write.
pub fn live<R: Threads + Sync, K: Sink + Send, G: Gate + Sync>(
    rt: &R,
    alloc: Global,
    core: &mut Core,
    script: &Script,
    out: &mut K,
    gate: &G,
) -> Result<Account, LiveFail>
    requires fresh { IsFresh core.old }
    requires lines { HasLines core.old.image }
    requires declared { HasNames core.old.image.names script.now }
    ensures ok { IfOk result (λ account.
        Lives core.old.image script.now (K.taken out.old) (K.taken out.new) account.rows.items) }

    // Every pend of the devices' lines is counted once; what was raised was latched, and nothing is left.
    ensures balanced { IfOk result (λ account. AllByRecursion (IsBalanced script.now) account.rows.items) }

    // At a fault a beginning was taken of a text that could have been written.
    ensures part { IsErrOf result LiveFail.Fault →
        TookPart core.old.image script.now (K.taken out.old) (K.taken out.new) }
    ensures none { IsErrOf result LiveFail.NoMemory → Took (K.taken out.old) (K.taken out.new) [] }
    ensures fault { IsErrOf result LiveFail.Fault → Rose (K.faults out.old) (K.faults out.new) }
    ensures quiet { ¬ IsErrOf result LiveFail.Fault → K.faults out.new ≡ K.faults out.old }

    // The core has done the events of the trace that was taken, at a fault those up to it, and none where memory was
    // not there.
    ensures all { IfOk result (λ account.
        HasLived script.now core.old core.new (K.taken out.old) (K.taken out.new) account.rows.items) }
    ensures begun { IsErrOf result LiveFail.Fault →
        HasWrittenPart script.now core.old core.new (K.taken out.old) (K.taken out.new) }
    ensures untouched { IsErrOf result LiveFail.NoMemory → core.new ≡ core.old }
{
    let Ok(ready) = Ready::of(alloc, core, script) else {
        return Err(LiveFail::NoMemory);
    };
    match ready.run(rt, core, out, gate) {
        (Ok(()), account) => Ok(account),
        (Err(_), _) => Err(LiveFail::Fault),
    }
}

/// Runs a core to which no event has come beside the devices of what was made ready for it, and writes the trace of the
/// core's image, line by line as it happens, its total of core steps, and the account. It takes no memory.
pub fn run_beside<R: Threads + Sync, K: Sink + Send, G: Gate + Sync>(
    ready: Ready<'_>,
    rt: &R,
    core: &mut Core,
    out: &mut K,
    gate: &G,
) -> Result<(), Failed>
    requires fresh { IsFresh core.old }
    requires lines { HasLines core.old.image }
    requires ready { IsReady core.old.image.names ready }
    ensures ok { OnOk result ((bytes : List ℕ) × IsLiveText core.old.image ready.entry.script.now bytes
        × Took (K.taken out.old) (K.taken out.new) bytes) }

    // At a fault a beginning was taken of a text that could have been written.
    ensures err { OnErr result
        (TookPart core.old.image ready.entry.script.now (K.taken out.old) (K.taken out.new)) }
    ensures cause { HasCause (K.faults out.old) (K.faults out.new) result }
    ensures quiet { OnOk result (K.faults out.new ≡ K.faults out.old) }

    // The core has done the events of the trace that was taken, at a fault those up to it.
    ensures all { OnOk result
        (HasWritten ready.entry.script.now core.old core.new (K.taken out.old) (K.taken out.new)) }
    ensures begun { OnErr result
        (HasWrittenPart ready.entry.script.now core.old core.new (K.taken out.old) (K.taken out.new)) }
{
    let (went, account) = ready.run(rt, core, out, gate);
    went?;
    put_account(&account, &core.image().names, out)
}
