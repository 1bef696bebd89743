// The end of a run: the last look, the added steps, and the total.
ghost use Rattle.std.specs.Prelude.{OnOk, is_ok, ◌++◌, ◌+◌, ◌≡◌};
ghost use Rattle.rt_outside.specs.Faults.{HasCause};
ghost use Rattle.rt_script.specs.Script.{count};
ghost use Rattle.rt_live.specs.Able.{CanGo};
ghost use Rattle.rt_live.specs.{Interleaving.last_turns, Shares.HasOwnNames, Shares.own_turns, Written.EndsByLine};

use crate::routes::{CoreRole, Routes};
use crate::turns::{Between, look, own_lines, repeat};
use rt_core::Core;
use rt_devices::Gate;
use rt_outside::{Failed, Sink};
use rt_run::put_end;
use rt_script::Line as Asked;
use rt_words::{Line, Words};

/// A look alone, so many core steps, each behind a look, and the line of the total.
pub(crate) fn end<K: Sink, G: Gate, T: Routes>(
    core: &mut Core,
    line: &mut Line,
    words: &Words,
    role: &CoreRole<T>,
    steps: u64,
    out: &mut K,
    between: &mut Between,
    gate: &G,
) -> Result<(), Failed>
    requires can { CanGo (steps + 1) (T.leads role.now.routes) core.old line.old words.now }
    ensures ends { EndsByLine (T.leads role.now.routes) (last_turns steps) (is_ok result)
        line.old line.new core.old core.new (K.taken out.old) (K.taken out.new) }
    ensures cause { HasCause (K.faults out.old) (K.faults out.new) result }
    ensures quiet { OnOk result (K.faults out.new ≡ K.faults out.old) }
{
    look(core, line, words, out, &mut between.held)?;
    let one = Asked::Steps(1);
    repeat(core, line, words, role, &one, steps, out, between, gate)?;
    between.held.clear();
    put_end(out, &mut between.held, core.steps())
}

/// The whole run of a core that has no devices beside it: the events of a script that are its own, a look behind the
/// last of them, and the line of the total.
pub fn run_turns<K: Sink, G: Gate, T: Routes>(
    core: &mut Core,
    line: &mut Line,
    words: &Words,
    role: &CoreRole<T>,
    script: &[Asked],
    out: &mut K,
    gate: &G,
) -> Result<(), Failed>
    requires can { CanGo (count script.now + 1) (T.leads role.now.routes) core.old line.old words.now }
    requires declared { HasOwnNames role.now.share core.old.image.names script.now }
    ensures ends { EndsByLine (T.leads role.now.routes) (own_turns role.now.share script.now ++ last_turns 0)
        (is_ok result) line.old line.new core.old core.new (K.taken out.old) (K.taken out.new) }
    ensures cause { HasCause (K.faults out.old) (K.faults out.new) result }
    ensures quiet { OnOk result (K.faults out.new ≡ K.faults out.old) }
{
    let mut between = Between::new();
    own_lines(core, line, words, role, script, out, &mut between, gate)?;
    end(core, line, words, role, 0, out, &mut between, gate)
}
