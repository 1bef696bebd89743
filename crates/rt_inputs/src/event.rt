// One event of a run with inputs, with its line.
ghost use Rattle.std.specs.Prelude.{◌≡◌, ◌<◌, ◌+◌, ◌-◌, ◌^◌, [], ◌∷◌, replicate, IfOk, OnOk, OnErr};
ghost use Rattle.rt_ids.specs.Event.{Arrive, Tick, Step};
ghost use Rattle.rt_ids.specs.Naming.{IsDeclared};
ghost use Rattle.rt_outside.specs.Faults.{HasCause};
ghost use Rattle.rt_app.specs.View.{app_of};
ghost use Rattle.rt_run.specs.Writable.{IsWritable};
ghost use Rattle.rt_run.specs.Inside.Writing as writing;
ghost use Rattle.rt_inputs.specs.Inputs.{Comes};
ghost use Rattle.rt_inputs.specs.Inside.Placed.{CanRun};
ghost use Rattle.rt_inputs.specs.Inside.Ran.{Ran, Cut, moment};

use crate::held::Held;
use crate::lines::{put_item, put_shown, put_tick};
use crate::putting::put_taken;
use crate::registers::Registers;
use rt_app::App;
use rt_board::Board;
use rt_core::Core;
use rt_ids::Irq;
use rt_outside::{Failed, Sink};
use rt_trace::{Item, What};

/// Core steps up to the first that shows an item, at most so many, with its line. At a take devices put the words of
/// the inputs of its task, with a line each. It answers how many of so many are left.
pub(crate) fn run_to_item<K: Sink>(
    core: &mut Core,
    app: &App,
    board: &Board,
    registers: &Registers,
    most: u32,
    out: &mut K,
    held: &mut Held,
) -> Result<u32, Failed>
    requires can { CanRun (app_of app.now) board.now core.old }
    requires few { core.old.steps + most < 2 ^ 31 }
    requires some { 0 < most }
    ensures fewer { IfOk result (λ left. left < most) }
    ensures ok { IfOk result (λ left. Ran (app_of app.now) board.now (replicate (most - left) (Comes Step))
        (moment core.old registers.now) (moment core.new registers.now) (K.taken out.old) (K.taken out.new)
        held.old.items held.new.items) }
    ensures err { OnErr result (Cut (app_of app.now) board.now (replicate most (Comes Step))
        (moment core.old registers.now) (moment core.new registers.now) (K.taken out.old) (K.taken out.new)
        held.old.items) }
    ensures none_left { OnErr result (held.new.items ≡ []) }
    ensures cause { HasCause (K.faults out.old) (K.faults out.new) result }
    ensures quiet { OnOk result (K.faults out.new ≡ K.faults out.old) }
{
    let before = core.steps();
    let Some(what) = core.steps_to_item(most) else {
        return Ok(0);
    };
    let behind = core.steps();
    put_taken(core, app, board, registers, &what);
    put_shown(
        app,
        board,
        registers,
        behind - 1,
        what,
        &core.image().names,
        out,
        held,
    )?;
    Ok(most - (behind - before) as u32)
}

/// One tick, with its line, and that of the alarm where it comes.
pub(crate) fn run_tick<K: Sink>(core: &mut Core, out: &mut K, held: &mut Held) -> Result<(), Failed>
    requires writable { IsWritable core.old }
    requires few { core.old.steps < 2 ^ 31 }
    requires early { core.old.core.time < 2 ^ 31 }
    ensures ok { OnOk result (writing.Writes (Tick ∷ []) core.old core.new (K.taken out.old) (K.taken out.new)
        held.old.items held.new.items) }
    ensures err { OnErr result
        (writing.Cut (Tick ∷ []) core.old core.new (K.taken out.old) (K.taken out.new) held.old.items) }
    ensures none_left { OnErr result (held.new.items ≡ []) }
    ensures cause { HasCause (K.faults out.old) (K.faults out.new) result }
    ensures quiet { OnOk result (K.faults out.new ≡ K.faults out.old) }
{
    let came = core.tick();
    put_tick(core.steps(), came, &core.image().names, out, held)
}

/// One request of an interrupt, with its line.
pub(crate) fn run_pend<K: Sink>(
    core: &mut Core,
    irq: Irq,
    out: &mut K,
    held: &mut Held,
) -> Result<(), Failed>
    requires writable { IsWritable core.old }
    requires few { core.old.steps < 2 ^ 31 }
    requires declared { IsDeclared core.old.image.names irq }
    ensures ok { OnOk result (writing.Writes (Arrive irq ∷ []) core.old core.new (K.taken out.old) (K.taken out.new)
        held.old.items held.new.items) }
    ensures err { OnErr result
        (writing.Cut (Arrive irq ∷ []) core.old core.new (K.taken out.old) (K.taken out.new) held.old.items) }
    ensures none_left { OnErr result (held.new.items ≡ []) }
    ensures cause { HasCause (K.faults out.old) (K.faults out.new) result }
    ensures quiet { OnOk result (K.faults out.new ≡ K.faults out.old) }
{
    let number = irq.get();
    core.arrive((number / 32) as u8, 1 << (number % 32));
    let step = core.steps();
    let what = What::Pend(irq);
    put_item(out, held, &Item { step, what }, &core.image().names)
}
