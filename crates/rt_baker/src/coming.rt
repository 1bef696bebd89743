// Whether an item may come, and the state after it.

ghost use Rattle.std.specs.Prelude.{◌≡◌, true, false, None, Some, ℕ, IsTrue, IsFalse, IfOk};
ghost use Rattle.rt_app.specs.View.{app_of};
ghost use Rattle.rt_laws.specs.Preemption as preemption;
ghost use Rattle.rt_laws.specs.Services.{is_declared};
ghost use Rattle.rt_laws.specs.Silent.{MaySpend};
ghost use Rattle.rt_laws.specs.State as laws;
ghost use Rattle.rt_baker_moves.specs.Machine.{IsMachine};
ghost use Rattle.rt_baker_moves.specs.State.{StateIs};
ghost use Rattle.rt_baker.specs.Judging.{IsTurn, MayGoOn, Judges, Passes};

use rt_app::App;
use rt_baker_moves::{Machine, State};
use rt_ids::{Irq, NoMemory};
use rt_trace::What;

/// Whether an interrupt of this number is declared.
fn is_declared(app: &App, irq: u16) -> bool
    ensures { result ≡ is_declared (app_of app.now) irq }
{
    app.irqs.iter().any(|declared| declared.number.get() == irq)
}

/// Whether no interrupt is to be taken, and the running job may take so many steps.
fn may_go<'a>(state: &State<'a>, machine: &Machine<'a>, steps: u64) -> bool
    requires { IsMachine machine.now }
    ensures may { IsTrue result → (t : laws.State) → StateIs (app_of machine.now.code.now.app.now) state.now t
        → (preemption.candidate (app_of machine.now.code.now.app.now) t ≡ None) × MaySpend steps t.jobs }
    ensures may_not { IsFalse result → (t : laws.State) → StateIs (app_of machine.now.code.now.app.now) state.now t
        → preemption.candidate (app_of machine.now.code.now.app.now) t ≡ None → MaySpend steps t.jobs → ⊥ }
{
    if state.candidate(machine).is_some() {
        return false;
    }
    state.may_spend(steps)
}

/// So many silent steps pass, where they may.
pub fn pass_steps<'a>(state: &mut State<'a>, machine: &Machine<'a>, steps: u64) -> bool
    requires { IsMachine machine.now }
    ensures { Passes (app_of machine.now.code.now.app.now) result state.old state.new steps }
{
    if steps == 0 {
        return true;
    }
    if state.is_owing() {
        return false;
    }
    if !may_go(state, machine, steps) {
        return false;
    }
    state.spend(steps);
    true
}

/// The alarm that is owed comes. Nothing else may.
fn rings<'a>(state: &mut State<'a>, machine: &Machine<'a>, what: &What) -> Result<bool, NoMemory>
    requires machine { IsMachine machine.now }
    requires owing { state.old.owing ≡ true }
    ensures { IfOk result (λ came. Judges (app_of machine.now.code.now.app.now) came state.old state.new what.now) }
{
    match what {
        What::Alarm => {
            state.ring(machine)?;
            Ok(true)
        }
        _other => Ok(false),
    }
}

/// An interrupt arrives, where it is declared.
fn arrives<'a>(state: &mut State<'a>, machine: &Machine<'a>, irq: Irq) -> Result<bool, NoMemory>
    requires machine { IsMachine machine.now }
    requires free { state.old.owing ≡ false }
    ensures { IfOk result (λ came. Judges (app_of machine.now.code.now.app.now) came state.old state.new
        (What.Pend irq)) }
{
    let number = irq.get();
    if !is_declared(machine.code.app, number) {
        return Ok(false);
    }
    state.arrive(machine, number)?;
    Ok(true)
}

/// An interrupt is taken, where it is the one that is to be.
fn takes<'a>(state: &mut State<'a>, machine: &Machine<'a>, irq: Irq) -> Result<bool, NoMemory>
    requires machine { IsMachine machine.now }
    requires free { state.old.owing ≡ false }
    requires early { MayGoOn (app_of machine.now.code.now.app.now) state.old }
    ensures { IfOk result (λ came. (depth : ℕ) → Judges (app_of machine.now.code.now.app.now) came state.old state.new
        (What.Take irq depth)) }
{
    let number = irq.get();
    match state.candidate(machine) {
        None => Ok(false),
        Some(first) => {
            if first != number {
                return Ok(false);
            }
            state.take(machine, number)?;
            Ok(true)
        }
    }
}

/// The running job does its next action, where it may and this is the item of that.
fn turn<'a>(state: &mut State<'a>, machine: &Machine<'a>, what: &What) -> Result<bool, NoMemory>
    requires machine { IsMachine machine.now }
    requires free { state.old.owing ≡ false }
    requires action { IsTurn what.now }
    requires early { MayGoOn (app_of machine.now.code.now.app.now) state.old }
    ensures { IfOk result (λ came. Judges (app_of machine.now.code.now.app.now) came state.old state.new what.now) }
{
    if !may_go(state, machine, 1) {
        return Ok(false);
    }
    if !state.shows(what) {
        return Ok(false);
    }
    state.advance(machine)?;
    Ok(true)
}

/// An item comes where no alarm is owed, where it may.
fn comes<'a>(state: &mut State<'a>, machine: &Machine<'a>, what: &What) -> Result<bool, NoMemory>
    requires machine { IsMachine machine.now }
    requires free { state.old.owing ≡ false }
    requires early { MayGoOn (app_of machine.now.code.now.app.now) state.old }
    ensures { IfOk result (λ came. Judges (app_of machine.now.code.now.app.now) came state.old state.new what.now) }
{
    match what {
        What::Pend(irq) => {
            let came = arrives(state, machine, *irq)?;
            Ok(came)
        }
        What::Tick => {
            state.tick();
            Ok(true)
        }
        What::Take(irq, _depth) => {
            let came = takes(state, machine, *irq)?;
            Ok(came)
        }
        other => {
            let came = turn(state, machine, other)?;
            Ok(came)
        }
    }
}

/// An item comes, where it may.
pub(crate) fn come<'a>(
    state: &mut State<'a>,
    machine: &Machine<'a>,
    what: &What,
) -> Result<bool, NoMemory>
    requires machine { IsMachine machine.now }
    requires early { MayGoOn (app_of machine.now.code.now.app.now) state.old }
    ensures { IfOk result (λ came. Judges (app_of machine.now.code.now.app.now) came state.old state.new what.now) }
{
    if state.is_owing() {
        let rang = rings(state, machine, what)?;
        return Ok(rang);
    }
    let came = comes(state, machine, what)?;
    Ok(came)
}
