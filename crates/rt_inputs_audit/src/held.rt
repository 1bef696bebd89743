// A take whose inputs are still to come, and which inputs those are.

ghost use Rattle.std.specs.Prelude.{◌≡◌, ◌==◌, IfOk, IsTrue, IsFalse};
ghost use Rattle.rt_ids.specs.Lists.{is_some_and};
ghost use Rattle.rt_app.specs.Handlers.{irq_number};
ghost use Rattle.rt_app.specs.Tree as tree;
ghost use Rattle.rt_app.specs.View.{app_of};
ghost use Rattle.rt_inputs.specs.Inputs.{input_irq};
ghost use Rattle.rt_inputs_audit.specs.Following.{IsNext};
ghost use Rattle.rt_inputs_audit.specs.Given.{inputs_at};

use rt_app::App;
use rt_board::{Board, Input};
use rt_ids::{Irq, NoMemory};
use std::alloc::Global;
use std::marker::Model;

/// A take whose inputs are still to come.
#[derive(Drop)]
pub struct HeldTake {
    /// The core steps that are done before it.
    pub(crate) step: u64,
    pub(crate) irq: Irq,
    pub(crate) depth: u32,
    /// Those that are still to come, in order.
    pub(crate) inputs: Vec<Input>,
}

impl Model for HeldTake {
    ghost use Rattle.rt_inputs_audit.specs.Following.{Held};

    ghost Value = { Held };

    ghost view = { λ h. record { step = h.step; irq = h.irq; depth = h.depth; inputs = h.inputs.items } };
}

/// The number of an interrupt, by its index in the order of declaration.
fn number(app: &App, irq: u8) -> Option<u16>
    ensures { result ≡ irq_number (app_of app.now) irq }
{
    match app.irqs.get(usize::from(irq)) {
        None => None,
        Some(declared) => Some(declared.number.get()),
    }
}

/// The number of the interrupt that the task of an input binds.
fn irq_of(app: &App, input: &Input) -> Option<u16>
    ensures { result ≡ input_irq (app_of app.now) input.now }
{
    match app.task(input.task) {
        None => None,
        Some(task) => match task.binds {
            None => None,
            Some(irq) => number(app, irq),
        },
    }
}

/// Whether the task of an input binds an interrupt.
fn is_of(app: &App, input: &Input, irq: u16) -> bool
    ensures { result ≡ is_some_and (λ n. n == irq) (input_irq (app_of app.now) input.now) }
{
    match irq_of(app, input) {
        None => false,
        Some(number) => number == irq,
    }
}

/// The inputs of the task that binds an interrupt, in the order of the board.
pub(crate) fn inputs_at(
    alloc: Global,
    app: &App,
    board: &Board,
    irq: u16,
) -> Result<Vec<Input>, NoMemory>
    ensures { IfOk result (λ inputs. inputs.items ≡ inputs_at (app_of app.now) board.now irq) }
{
    let mut inputs = Vec::new(alloc);
    for input in board.inputs() {
        if is_of(app, input, irq) {
            inputs.push(*input)?;
        }
    }
    Ok(inputs)
}

/// Whether the first of some inputs is into a local resource.
pub(crate) fn is_next(inputs: &[Input], local: u8) -> bool
    ensures is { IsTrue result → (app : tree.App) → IsNext app local inputs.now }
    ensures is_not { IsFalse result → (app : tree.App) → IsNext app local inputs.now → ⊥ }
{
    match inputs.first() {
        None => false,
        Some(input) => input.local == local,
    }
}
