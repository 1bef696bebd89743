// The input of a device's interrupt.
ghost use Rattle.std.specs.Prelude.{◌≡◌, filter, find, length, option_map};
ghost use Rattle.rt_app.specs.View.{app_of};
ghost use Rattle.rt_given.specs.Given as given;
ghost use Rattle.rt_given.specs.Wording as spec;

use crate::refusal::Cause;
use rt_app::App;
use rt_board::{Board, Input};
use rt_ids::Irq;

/// The interrupt that the task of an input binds.
pub fn irq_of(app: &App, input: Input) -> Option<Irq>
    ensures { result ≡ given.input_irq (app_of app.now) input }
{
    let binds = app.task(input.task)?.binds?;
    let irq = app.irqs.get(usize::from(binds))?;
    Some(irq.number)
}

/// Whether the task of an input binds this interrupt.
pub fn is_for(app: &App, input: Input, irq: Irq) -> bool
    ensures { result ≡ given.is_for (app_of app.now) irq input }
{
    match irq_of(app, input) {
        Some(bound) => bound == irq,
        None => false,
    }
}

/// How many of these inputs have a task that binds this interrupt.
fn inputs_for(app: &App, inputs: &[Input], irq: Irq) -> usize
    ensures { result ≡ length (filter (given.is_for (app_of app.now) irq) inputs.now) }
{
    inputs
        .iter()
        .filter(|input| is_for(app, **input, irq))
        .count()
}

/// The local resource of the first of these inputs whose task binds this interrupt.
fn first_for(app: &App, inputs: &[Input], irq: Irq) -> Option<u8>
    ensures { result ≡ option_map (λ input. input.local) (find (given.is_for (app_of app.now) irq) inputs.now) }
{
    let input = inputs.iter().find(|input| is_for(app, **input, irq));
    input.map(|input| input.local)
}

/// The local resource of the only input whose task binds this interrupt.
#[tactic(auto, using(crate::proofs::Only::only_many, crate::proofs::Only::only_first))]
pub(crate) fn only_input(app: &App, board: &Board, irq: Irq) -> Result<u8, Cause>
    ensures { result ≡ spec.only_local (filter (given.is_for (app_of app.now) irq) board.now.inputs) }
{
    let inputs = board.inputs();
    if inputs_for(app, inputs, irq) > 1 {
        return Err(Cause::ManyInputs);
    }
    first_for(app, inputs, irq).ok_or(Cause::NoInput)
}
