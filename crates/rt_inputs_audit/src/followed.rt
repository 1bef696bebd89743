// Where the lines of a trace have led in Baker's machine, and whether another may come.

ghost use Rattle.std.specs.Prelude.{◌≡◌, ℕ, true, false, None, Some, IsTrue, IsFalse, IfOk, OnOk};
ghost use Rattle.rt_app.specs.Stack.{stack_bytes};
ghost use Rattle.rt_app.specs.View.{app_of};
ghost use Rattle.rt_laws.specs.Allowed.{May};
ghost use Rattle.rt_laws.specs.State as laws;
ghost use Rattle.rt_baker.specs.Judge.{steps_done};
ghost use Rattle.rt_baker.specs.Judging.{MayGoOn};
ghost use Rattle.rt_baker_moves.specs.Machine.{IsMachine};
ghost use Rattle.rt_baker_moves.specs.State.{StateIs, IsEarly};
ghost use Rattle.rt_board.specs.Board as boards;
ghost use Rattle.rt_inputs.specs.Shown as shown;
ghost use Rattle.rt_inputs_audit.specs.Following.{start, settled, take_label};
ghost use Rattle.rt_inputs_audit.specs.Judging.{IsNoTake, Opens, PlaceIs, LineJudged, EndJudged, take_item};
ghost use Rattle.rt_inputs_audit.specs.Reading.{shown_of};

use crate::held::{HeldTake, inputs_at, is_next};
use crate::line::TraceLine;
use rt_baker::Done;
use rt_baker::coming::pass_steps;
use rt_baker::items::{judge_item, judge_total};
use rt_baker_moves::{Machine, State};
use rt_baker_work::store::drop_first;
use rt_board::{Board, Input};
use rt_ids::{Irq, NoMemory};
use rt_trace::{Item, What};

/// Where the lines of a trace have led in Baker's machine.
#[derive(Drop)]
pub struct Followed<'a> {
    pub(crate) state: State<'a>,
    /// The core steps that are done.
    pub(crate) done: Done,
    /// The take whose inputs are still to come.
    pub(crate) held: Option<HeldTake>,
}

/// Whether the interrupt is the one that is to be taken.
fn may_take<'a>(state: &State<'a>, machine: &Machine<'a>, irq: Irq) -> bool
    requires { IsMachine machine.now }
    ensures may { IsTrue result → (t : laws.State) → StateIs (app_of machine.now.code.now.app.now) state.now t
        → (depth : ℕ) → May (app_of machine.now.code.now.app.now) t (take_label irq depth) }
    ensures may_not { IsFalse result → (t : laws.State) → StateIs (app_of machine.now.code.now.app.now) state.now t
        → (depth : ℕ) → May (app_of machine.now.code.now.app.now) t (take_label irq depth) → ⊥ }
{
    if state.is_owing() {
        return false;
    }
    let number = irq.get();
    match state.candidate(machine) {
        None => false,
        Some(first) => first == number,
    }
}

/// Silent steps pass in front of a take, where they may and the take may come behind them.
fn opens<'a>(
    state: &mut State<'a>,
    machine: &Machine<'a>,
    stack: u32,
    done: Done,
    step: u64,
    irq: Irq,
    depth: u32,
) -> bool
    requires machine { IsMachine machine.now }
    requires stack { stack ≡ stack_bytes (app_of machine.now.code.now.app.now) }
    ensures { Opens (app_of machine.now.code.now.app.now) result state.old state.new (steps_done done) step irq depth }
{
    if depth > stack {
        return false;
    }
    match done.until(step) {
        None => false,
        Some(steps) => {
            if !pass_steps(state, machine, steps) {
                return false;
            }
            may_take(state, machine, irq)
        }
    }
}

impl<'a> Followed<'a> {
    /// In front of the first line.
    pub(crate) fn new(machine: &Machine<'a>) -> Result<Followed<'a>, NoMemory>
        requires { IsMachine machine.now }
        ensures { let app = app_of machine.now.code.now.app.now in IfOk result (λ f. PlaceIs app f (start app)) }
    {
        let state = State::first(machine.code)?;
        Ok(Followed {
            state,
            done: Done::none(),
            held: None,
        })
    }

    /// A take is done where none of its inputs is to come any more, and held where one is.
    fn settle(
        &mut self,
        machine: &Machine<'a>,
        step: u64,
        irq: Irq,
        depth: u32,
        inputs: Vec<Input>,
    ) -> Result<(), NoMemory>
        requires machine { IsMachine machine.now }
        requires early { IsEarly self.old.state }
        ensures { let app = app_of machine.now.code.now.app.now in
            OnOk result ((t : laws.State) (n : ℕ) → StateIs app self.old.state t → steps_done self.old.done ≡ n
            → PlaceIs app self.new (settled app t n step irq depth inputs.items)) }
    {
        let count = inputs.len();
        if count == 0 {
            self.state.take(machine, irq.get())?;
            let item = Item {
                step,
                what: What::Take(irq, depth),
            };
            self.done = Done::behind(&item, false);
            self.held = None;
            return Ok(());
        }
        self.held = Some(HeldTake {
            step,
            irq,
            depth,
            inputs,
        });
        Ok(())
    }

    /// A take comes where none is held, where it may.
    fn take(
        &mut self,
        machine: &Machine<'a>,
        board: &Board,
        stack: u32,
        step: u64,
        irq: Irq,
        depth: u32,
    ) -> Result<bool, NoMemory>
        requires machine { IsMachine machine.now }
        requires stack { stack ≡ stack_bytes (app_of machine.now.code.now.app.now) }
        requires early { MayGoOn (app_of machine.now.code.now.app.now) self.old.state }
        requires free { self.old.held ≡ None }
        ensures { IfOk result (λ came. LineJudged (app_of machine.now.code.now.app.now) board.now came self.old self.new
            (shown.Shows (take_item step irq depth))) }
    {
        let code = machine.code;
        let inputs = inputs_at(code.alloc, code.app, board, irq.get())?;
        if !opens(&mut self.state, machine, stack, self.done, step, irq, depth) {
            return Ok(false);
        }
        self.settle(machine, step, irq, depth, inputs)?;
        Ok(true)
    }

    /// An item that is no take comes where no take is held, where it may.
    fn plain(&mut self, machine: &Machine<'a>, stack: u32, item: &Item) -> Result<bool, NoMemory>
        requires machine { IsMachine machine.now }
        requires stack { stack ≡ stack_bytes (app_of machine.now.code.now.app.now) }
        requires early { MayGoOn (app_of machine.now.code.now.app.now) self.old.state }
        requires free { self.old.held ≡ None }
        requires other { IsNoTake item.now.what }
        ensures { IfOk result (λ came. (b : boards.Board)
            → LineJudged (app_of machine.now.code.now.app.now) b came self.old self.new (shown.Shows item.now)) }
    {
        match judge_item(&mut self.state, machine, stack, self.done, item)? {
            None => Ok(false),
            Some(done) => {
                self.done = done;
                Ok(true)
            }
        }
    }

    /// An item comes, where it may.
    fn item(
        &mut self,
        machine: &Machine<'a>,
        board: &Board,
        stack: u32,
        item: &Item,
    ) -> Result<bool, NoMemory>
        requires machine { IsMachine machine.now }
        requires stack { stack ≡ stack_bytes (app_of machine.now.code.now.app.now) }
        requires early { MayGoOn (app_of machine.now.code.now.app.now) self.old.state }
        ensures { IfOk result (λ came. LineJudged (app_of machine.now.code.now.app.now) board.now came self.old self.new
            (shown.Shows item.now)) }
    {
        if self.held.is_some() {
            return Ok(false);
        }
        match &item.what {
            What::Take(irq, depth) => {
                let came = self.take(machine, board, stack, item.step, *irq, *depth)?;
                Ok(came)
            }
            _other => {
                let came = self.plain(machine, stack, item)?;
                Ok(came)
            }
        }
    }

    /// A word of a take that was held, where it may come.
    fn give(
        &mut self,
        machine: &Machine<'a>,
        held: HeldTake,
        step: u64,
        local: u8,
        word: u32,
    ) -> Result<bool, NoMemory>
        requires machine { IsMachine machine.now }
        requires early { MayGoOn (app_of machine.now.code.now.app.now) self.old.state }
        ensures { IfOk result (λ came. (b : boards.Board) → LineJudged (app_of machine.now.code.now.app.now) b came
            (record self.old { held = Some held }) self.new (shown.Input step local word)) }
    {
        let HeldTake {
            step: at,
            irq,
            depth,
            mut inputs,
        } = held;
        if step != at {
            return Ok(false);
        }
        if !is_next(inputs.as_slice(), local) {
            return Ok(false);
        }
        drop_first(&mut inputs);
        self.state.put(local, word);
        self.settle(machine, at, irq, depth, inputs)?;
        Ok(true)
    }

    /// A word comes, where it may.
    fn input(
        &mut self,
        machine: &Machine<'a>,
        step: u64,
        local: u8,
        word: u32,
    ) -> Result<bool, NoMemory>
        requires machine { IsMachine machine.now }
        requires early { MayGoOn (app_of machine.now.code.now.app.now) self.old.state }
        ensures { IfOk result (λ came. (b : boards.Board) → LineJudged (app_of machine.now.code.now.app.now) b came
            self.old self.new (shown.Input step local word)) }
    {
        match self.held.take() {
            None => Ok(false),
            Some(held) => {
                let came = self.give(machine, held, step, local, word)?;
                Ok(came)
            }
        }
    }

    /// A line comes, where it may and is within so many stack bytes. Where it may not, nothing is known of the place
    /// from then on.
    pub(crate) fn line(
        &mut self,
        machine: &Machine<'a>,
        board: &Board,
        stack: u32,
        line: &TraceLine,
    ) -> Result<bool, NoMemory>
        requires machine { IsMachine machine.now }
        requires stack { stack ≡ stack_bytes (app_of machine.now.code.now.app.now) }
        requires early { MayGoOn (app_of machine.now.code.now.app.now) self.old.state }
        ensures { IfOk result (λ came. LineJudged (app_of machine.now.code.now.app.now) board.now came self.old self.new
            (shown_of line.now)) }
    {
        match line {
            TraceLine::Shows(item) => {
                let came = self.item(machine, board, stack, item)?;
                Ok(came)
            }
            TraceLine::Input(step, local, word) => {
                let came = self.input(machine, *step, *local, *word)?;
                Ok(came)
            }
        }
    }

    /// Whether a trace may end here with so many core steps, where it states a total: no take is held, and silent steps
    /// may come up to it.
    pub(crate) fn ends(&mut self, machine: &Machine<'a>, total: Option<u64>) -> bool
        requires { IsMachine machine.now }
        ensures { EndJudged (app_of machine.now.code.now.app.now) result self.old total }
    {
        match &self.held {
            None => judge_total(&mut self.state, machine, self.done, total),
            Some(_held) => false,
        }
    }
}
