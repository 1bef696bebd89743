// How jobs start.

ghost use Rattle.std.specs.Prelude.{◌≡◌, ◌<◌, ◌^◌, ℕ, [], false, slice_index_or, None, Some, IfOk, OnOk, replicate};
ghost use Rattle.rt_ids.specs.declared.limits.TheConstants.{IRQ_NUMBERS};
ghost use Rattle.rt_trace.specs.Label.{Stepped};
ghost use Rattle.rt_trace.specs.declared.item.What.TheVariants as what;
ghost use Rattle.rt_app.specs.View.{app_of};
ghost use Rattle.rt_app.specs.Accepted.{IsAccepted};
ghost use Rattle.rt_app.specs.Meaning.{Later};
ghost use Rattle.rt_app.specs.BodyCost.{cost_measure, cost_of};
ghost use Rattle.rt_laws.specs.Allowed.{after};
ghost use Rattle.rt_laws.specs.State as laws;
ghost use Rattle.rt_baker_work.specs.Code.{IsCode, handler_of};
ghost use Rattle.rt_baker_work.specs.Handlers.{run_handler};
ghost use Rattle.rt_baker_work.specs.Store.{MayTakeOne};
ghost use Rattle.rt_baker_work.specs.Todo.{enter_body};
ghost use Rattle.rt_baker_work.specs.Work as kept;
ghost use Rattle.rt_baker_work.specs.Work.{no_work, Becomes};
ghost use Rattle.rt_baker_moves.specs.Machine.{IsMachine};
ghost use Rattle.rt_baker_moves.specs.Job.{role_of};
ghost use Rattle.rt_baker_moves.specs.State.{StateIs, IsEarly};
ghost use Rattle.rt_baker_moves.specs.Inside.Starts.{held_after_take, HasBegunWith, Launches};

use crate::candidate::unqueue;
use crate::job::{Job, Role};
use crate::machine::{Machine, Served};
use crate::reset::first_store;
use crate::state::State;
use rt_app::App;
use rt_baker_work::begin::begin_body;
use rt_baker_work::handler::handle;
use rt_baker_work::walk::settle;
use rt_baker_work::{Code, Store, Work};
use rt_frames::body_cost;
use rt_ids::limits::IRQ_NUMBERS;
use rt_ids::{BodyId, NoMemory};
use std::alloc::Global;

/// A job begins with this to do, in so many core steps at most, and goes on as far as its first action.
fn begin_job<'a>(
    code: &Code<'a>,
    role: Role,
    priority: u32,
    cost: u64,
    mut work: Work<'a>,
    store: &mut Store,
) -> Result<Job<'a>, NoMemory>
    requires code { IsCode code.now }
    requires room { MayTakeOne store.old }
    ensures { let app = app_of code.now.app.now in
        IfOk result (λ j. (first : Later → Later) (start : kept.Work) → start ≡ no_work
        → Becomes app first start store.old work.entry store.old
        → HasBegunWith app (role_of role) priority cost first store.old j store.new) }
{
    settle(code, &mut work, store)?;
    Ok(Job::new(code.alloc, role, priority, cost, work))
}

/// The priority of `init`, whose interrupts are masked: the greatest that there is.
fn greatest(app: &App) -> u32
    requires { IsAccepted (app_of app.now) }
    ensures { result ≡ 2 ^ (app_of app.now).bits }
{
    1 << u32::from(app.bits)
}

/// `init` begins.
fn first_job<'a>(code: &Code<'a>, store: &mut Store) -> Result<Job<'a>, NoMemory>
    requires code { IsCode code.now }
    requires room { MayTakeOne store.old }
    ensures { let app = app_of code.now.app.now in
        IfOk result (λ j. HasBegunWith app laws.Init (2 ^ app.bits) (cost_of (cost_measure app) app.init)
        (enter_body app app.init []) store.old j store.new) }
{
    let app = code.app;
    let mut work = Work::new(code.alloc);
    begin_body(code.alloc, &app.init, &mut work)?;
    let cost = u64::from(body_cost(app, BodyId::Init));
    let job = begin_job(code, Role::Init, greatest(app), cost, work, store)?;
    Ok(job)
}

/// Nothing is pending.
fn none_pending(alloc: Global) -> Result<Vec<bool>, NoMemory>
    ensures { IfOk result (λ v. v.items ≡ replicate IRQ_NUMBERS false) }
{
    Ok(vec![in alloc; false; usize::from(IRQ_NUMBERS)]?)
}

/// What serves an interrupt, where something does.
fn server<'a>(machine: &Machine<'a>, irq: u16) -> Option<Served>
    ensures { result ≡ slice_index_or machine.now.served.now irq None }
{
    let index = usize::from(irq);
    machine.served.get(index).copied().unwrap_or(None)
}

impl<'a> State<'a> {
    /// The state after reset: `init` begins.
    pub fn first(code: &Code<'a>) -> Result<State<'a>, NoMemory>
        requires { IsCode code.now }
        ensures { let app = app_of code.now.app.now in IfOk result (λ s. StateIs app s (laws.first app)) }
    {
        let mut store = first_store(code.alloc, code.app)?;
        let job = first_job(code, &mut store)?;
        let mut jobs = Vec::new(code.alloc);
        jobs.push(job)?;
        let pending = none_pending(code.alloc)?;
        let waiting = Vec::with_capacity(code.alloc, code.app.irqs.len())?;
        Ok(State {
            jobs,
            pending,
            waiting,
            store,
            time: 0,
            alarm: None,
            owing: false,
        })
    }

    /// The interrupt of this number is pending no longer.
    fn clear(&mut self, irq: u16)
        ensures { self.new ≡ held_after_take irq self.old }
    {
        unqueue(&mut self.waiting, irq);
        let index = usize::from(irq);
        if index < self.pending.len() {
            self.pending[index] = false;
        }
    }

    /// The handler of an interrupt starts as a job.
    fn serve(&mut self, code: &Code<'a>, irq: u16, served: Served) -> Result<(), NoMemory>
        requires code { IsCode code.now }
        requires early { IsEarly self.old }
        ensures { let app = app_of code.now.app.now in
            OnOk result (Launches app (laws.Serving irq) served.priority served.cost (run_handler app (handler_of
            served.handler)) self.old self.new) }
    {
        let mut work = Work::new(code.alloc);
        handle(code, served.handler, &mut work)?;
        let priority = u32::from(served.priority);
        let role = Role::Serving(irq);
        let job = begin_job(code, role, priority, served.cost, work, &mut self.store)?;
        self.jobs.insert(0, job)?;
        Ok(())
    }

    /// The handler of an interrupt starts as a job, and the interrupt is pending no longer.
    pub fn take(&mut self, machine: &Machine<'a>, irq: u16) -> Result<(), NoMemory>
        requires machine { IsMachine machine.now }
        requires number { irq < IRQ_NUMBERS }
        requires early { IsEarly self.old }
        ensures { let app = app_of machine.now.code.now.app.now in
            OnOk result ((depth : ℕ) (t : laws.State) → StateIs app self.old t
            → StateIs app self.new (after app t (Stepped (Some (what.Take irq depth))))) }
    {
        self.clear(irq);
        match server(machine, irq) {
            None => Ok(()),
            Some(served) => {
                self.serve(machine.code, irq, served)?;
                Ok(())
            }
        }
    }
}
