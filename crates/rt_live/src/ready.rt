// What a run takes memory for, and the run of it to its end.
ghost use Rattle.std.specs.List.{AllByRecursion};
ghost use Rattle.std.specs.Prelude.{IfOk, OnErr, OnOk, ◌≡◌};
ghost use Rattle.rt_code.specs.Lines.{HasLines};
ghost use Rattle.rt_core.specs.Machine.{IsFresh};
ghost use Rattle.rt_outside.specs.Faults.{HasCause};
ghost use Rattle.rt_script.specs.Script.{HasNames};
ghost use Rattle.rt_live.specs.{Doing.HasLived, Doing.HasWrittenPart, Output.IsBalanced, Ready.IsReady};

use crate::account::{Account, AccountRow};
use crate::beside::go;
use crate::gathering::enter_left;
use crate::making::{add_bits, devices_of, rows_of};
use rt_core::Core;
use rt_devices::{Device, Gate};
use rt_ids::NoMemory;
use rt_outside::{Failed, Sink};
use rt_script::Script;
use rt_words::{CORE_WORDS, Line, Words};
use std::alloc::Global;
use std::marker::{Send, Sync};
use std::thread::Threads;

/// All that a run under `live` takes memory for: the words, the core's line, and the devices of the script with the
/// lines that they call.
#[derive(Drop)]
pub struct Ready<'a> {
    /// The script.
    pub script: &'a Script,
    /// The pending words, 16 of them, with the bits of the declared interrupts.
    pub words: Words,
    /// The core's line of the words.
    pub line: Line,
    /// The devices, by rising number.
    pub devices: Vec<Device>,
    /// The declared interrupts in order, with nothing counted.
    pub rows: Vec<AccountRow>,
}

impl<'a> Ready<'a> {
    /// Takes all memory, and makes a line of the words for each device of the script. `NoMemory` comes for want of
    /// memory alone.
    pub fn of(alloc: Global, core: &Core, script: &'a Script) -> Result<Ready<'a>, NoMemory>
        requires { HasNames core.now.image.names script.now }
        ensures script { IfOk result (λ ready. ready.script.now ≡ script.now) }
        ensures ready { IfOk result (IsReady core.now.image.names) }
    {
        let rows = rows_of(alloc, &core.image().names)?;
        let mut may = [0; 32];
        add_bits(&mut may, 0, &rows);
        let (words, mut line) = Words::make(alloc, CORE_WORDS, may, 0)?;
        let devices = devices_of(alloc, &words, &mut line, script.lines())?;
        Ok(Ready {
            script,
            words,
            line,
            devices,
            rows,
        })
    }

    /// Runs the core beside the devices, and closes the words. It writes the lines of each event as it happens, and at
    /// the end the total of core steps. The account counts the calls of all lines, and tells what they left. It takes
    /// no memory, and waits for the devices alone.
    pub(crate) fn run<R: Threads + Sync, K: Sink + Send, G: Gate + Sync>(
        self,
        rt: &R,
        core: &mut Core,
        out: &mut K,
        gate: &G,
    ) -> (Result<(), Failed>, Account)
        requires fresh { IsFresh core.old }
        requires lines { HasLines core.old.image }
        requires ready { IsReady core.old.image.names self }

        // The trace was taken, with its total, and the account is that of the calls.
        ensures ok { OnOk result.0 (HasLived self.entry.script.now core.old core.new
            (K.taken out.old) (K.taken out.new) result.1.rows.items) }
        ensures balanced { OnOk result.0 (AllByRecursion (IsBalanced self.entry.script.now) result.1.rows.items) }

        // At a fault a beginning was taken of a text that could have been written.
        ensures err { OnErr result.0
            (HasWrittenPart self.entry.script.now core.old core.new (K.taken out.old) (K.taken out.new)) }
        ensures cause { HasCause (K.faults out.old) (K.faults out.new) result.0 }
        ensures quiet { OnOk result.0 (K.faults out.new ≡ K.faults out.old) }
    {
        let Ready {
            script,
            words,
            mut line,
            devices,
            mut rows,
        } = self;
        let went = go(
            rt,
            core,
            &mut line,
            &words,
            script.lines(),
            devices,
            &mut rows,
            out,
            gate,
        );
        let left = words.close(line);
        enter_left(&mut rows, 0, &left, 0, 0);
        (went, Account { rows })
    }
}
