// What devices put where an interrupt is taken.
ghost use Rattle.std.specs.Prelude.{◌≡◌, ◌==◌, ◌<◌, ◌^◌, flat_map, length, Some};
ghost use Rattle.std.specs.List.{AllByRecursion};
ghost use Rattle.rt_ids.specs.Lists.{is_some_and};
ghost use Rattle.rt_app.specs.Layout as layout;
ghost use Rattle.rt_app.specs.View.{app_of};
ghost use Rattle.rt_sim.specs.Beside.{core_beside};
ghost use Rattle.rt_board.specs.Board.{no_board};
ghost use Rattle.rt_board.specs.declared.board.Input.{Input};
ghost use Rattle.rt_inputs.specs.Inputs as spec;
ghost use Rattle.rt_inputs.specs.Inside.Ran.{held_in};

use crate::registers::Registers;
use rt_app::App;
use rt_board::{Board, Input};
use rt_core::Core;
use rt_ids::Irq;
use rt_trace::What;

/// The interrupt that an item shows to be taken.
pub(crate) fn taken(what: &What) -> Option<Irq>
    ensures { result ≡ spec.taken (Some what.now) }
{
    match what {
        What::Take(irq, _) => Some(*irq),
        _ => None,
    }
}

/// The interrupt that the task of an input binds.
fn irq_of(app: &App, input: Input) -> Option<Irq>
    ensures { result ≡ spec.input_irq (app_of app.now) input }
{
    let binds = app.task(input.task)?.binds?;
    let irq = app.irqs.get(usize::from(binds))?;
    Some(irq.number)
}

/// Whether the task of an input binds this interrupt.
pub(crate) fn is_for(app: &App, input: Input, irq: Irq) -> bool
    ensures { result ≡ is_some_and (λ n. n == irq) (spec.input_irq (app_of app.now) input) }
{
    match irq_of(app, input) {
        Some(bound) => bound == irq,
        None => false,
    }
}

/// The cell of a local resource.
fn local_at(app: &App, local: u8) -> u16
    requires { layout.local_at (app_of app.now) local < 2 ^ 16 }
    ensures { result ≡ layout.local_at (app_of app.now) local }
{
    (app.shared.len() + usize::from(local)) as u16
}

/// A device puts the word of an input, where the task of the input binds this interrupt.
fn put_word(core: &mut Core, app: &App, registers: &Registers, input: Input, irq: Irq)
    requires few { layout.local_at (app_of app.now) input.local < 2 ^ 16 }
    requires cell { layout.local_at (app_of app.now) input.local < length core.old.core.processor.cells }
    ensures { core.new ≡ record core.old {
      core = core_beside (app_of app.now) core.old.image core.old.core
          (spec.put_for (app_of app.now) no_board (held_in registers.now) irq input);
    } }
{
    let local = input.local;
    if is_for(app, input, irq) {
        core.put(local_at(app, local), registers.word(local));
    }
}

/// Devices put the words of all inputs whose task binds this interrupt.
pub(crate) fn put_words(core: &mut Core, app: &App, board: &Board, registers: &Registers, irq: Irq)
    requires few { AllByRecursion (λ (input : Input). layout.local_at (app_of app.now) input.local < 2 ^ 16)
        board.now.inputs }
    requires cells { AllByRecursion (λ (input : Input).
        layout.local_at (app_of app.now) input.local < length core.old.core.processor.cells) board.now.inputs }
    ensures { core.new ≡ record core.old {
      core = core_beside (app_of app.now) core.old.image core.old.core
          (flat_map (spec.put_for (app_of app.now) board.now (held_in registers.now) irq) board.now.inputs);
    } }
{
    let inputs = board.inputs();
    for input in inputs {
        put_word(core, app, registers, *input, irq);
    }
}

/// Devices put the words of the inputs of the task whose interrupt an item shows to be taken, where it shows a take.
pub(crate) fn put_taken(
    core: &mut Core,
    app: &App,
    board: &Board,
    registers: &Registers,
    what: &What,
)
    requires few { AllByRecursion (λ (input : Input). layout.local_at (app_of app.now) input.local < 2 ^ 16)
        board.now.inputs }
    requires cells { AllByRecursion (λ (input : Input).
        layout.local_at (app_of app.now) input.local < length core.old.core.processor.cells) board.now.inputs }
    ensures { core.new ≡ record core.old {
      core = core_beside (app_of app.now) core.old.image core.old.core
          (spec.puts_for (app_of app.now) board.now (held_in registers.now) (spec.taken (Some what.now)));
    } }
{
    if let Some(irq) = taken(what) {
        put_words(core, app, board, registers, irq);
    }
}
