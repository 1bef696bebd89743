// A state of Baker's machine, as the auditor keeps it.

ghost use Rattle.std.specs.Prelude.{◌≡◌, OnOk};
ghost use Rattle.rt_app.specs.View.{app_of};
ghost use Rattle.rt_laws.specs.Allowed.{state_after_item};
ghost use Rattle.rt_laws.specs.Giving.{is_due};
ghost use Rattle.rt_laws.specs.Services.{timer_number};
ghost use Rattle.rt_laws.specs.State as laws;
ghost use Rattle.rt_baker_work.specs.Actions.{action_of};
ghost use Rattle.rt_baker_work.specs.Code.{IsCode};
ghost use Rattle.rt_baker_moves.specs.Machine.{IsMachine};
ghost use Rattle.rt_baker_moves.specs.State.{StateIs, IsEarly};
ghost use Rattle.rt_baker_moves.specs.Inside.Acts.{before, held_after_pend, held_alarm, Resumes};

use crate::candidate::queue;
use crate::job::Job;
use crate::machine::Machine;
use rt_app::App;
use rt_baker_work::lookup::number;
use rt_baker_work::timer::least_instant;
use rt_baker_work::{Action, Code, Store};
use rt_ids::{Irq, NoMemory};
use std::marker::Model;

/// A state of Baker's machine.
#[derive(Drop)]
pub struct State<'a> {
    /// The last started first; the thread is the last.
    pub(crate) jobs: Vec<Job<'a>>,
    /// By interrupt number.
    pub(crate) pending: Vec<bool>,
    /// The pending interrupts that something serves, in the order in which they would be taken. There is room for all
    /// declared ones from the start.
    pub(crate) waiting: Vec<Irq>,
    pub(crate) store: Store,
    /// In ticks.
    pub(crate) time: u64,
    /// The instant for which the alarm is set.
    pub(crate) alarm: Option<u64>,
    /// A tick has made the alarm due, and it has not come yet.
    pub(crate) owing: bool,
}

impl<'a> Model for State<'a> {
    ghost use Rattle.rt_baker_moves.specs.State.{AuditorState};
    ghost use Rattle.rt_app.specs.contracts.stmt.Stmt as stmt;
    ghost use Rattle.std.specs.Coded.{codes};

    ghost Value = { AuditorState };

    ghost coded = { Prim.hlevel (codes, stmt.the_row.coded) };

    ghost view = { λ s. record {
      jobs = s.jobs.items;
      pending = s.pending.items;
      waiting = s.waiting.items;
      store = s.store;
      time = s.time;
      alarm = s.alarm;
      owing = s.owing;
    } };
}

/// The number of the monotonic's interrupt; 0 without a monotonic, where nothing is armed and the alarm never comes.
pub(crate) fn timer(app: &App) -> u16
    ensures { result ≡ timer_number (app_of app.now) }
{
    match app.mono {
        None => 0,
        Some(mono) => number(app, mono.irq),
    }
}

/// Whether an instant is not later than the time.
pub(crate) fn is_due(time: u64, instant: Option<u64>) -> bool
    ensures { result ≡ is_due time instant }
{
    match instant {
        None => false,
        Some(instant) => instant <= time,
    }
}

impl<'a> State<'a> {
    /// Whether a tick has made the alarm due, and it has not come yet.
    pub fn is_owing(&self) -> bool
        ensures { result ≡ self.now.owing }
    {
        self.owing
    }

    /// The interrupt of this number is pending from now on, and waits where something serves it. Where it is pending
    /// already, nothing changes.
    pub(crate) fn pend(&mut self, machine: &Machine<'a>, irq: u16) -> Result<(), NoMemory>
        requires { IsMachine machine.now }
        ensures { OnOk result (self.new ≡ held_after_pend (app_of machine.now.code.now.app.now) irq self.old) }
    {
        let index = usize::from(irq);
        if index >= self.pending.len() {
            return Ok(());
        }
        if self.pending[index] {
            return Ok(());
        }
        queue(machine, irq, &mut self.waiting)?;
        self.pending[index] = true;
        Ok(())
    }

    /// The running job, taken out of the state, does an action of its work, and runs on.
    fn resume(&mut self, code: &Code<'a>, action: Action, mut job: Job<'a>) -> Result<(), NoMemory>
        requires code { IsCode code.now }
        requires early { IsEarly self.old }
        ensures { OnOk result (Resumes (app_of code.now.app.now) (action_of action) job.entry self.old self.new) }
    {
        job.perform(code, action, &mut self.store)?;
        self.jobs.insert(0, job)?;
        Ok(())
    }

    /// The alarm is set to an instant, or to none. Where the instant is due, it comes at once.
    fn set_alarm(&mut self, machine: &Machine<'a>, instant: Option<u64>) -> Result<(), NoMemory>
        requires { IsMachine machine.now }
        ensures { OnOk result (self.new ≡ held_alarm (app_of machine.now.code.now.app.now) instant self.old) }
    {
        if is_due(self.time, instant) {
            self.alarm = None;
            self.pend(machine, timer(machine.code.app))?;
            return Ok(());
        }
        self.alarm = instant;
        Ok(())
    }

    /// The running job, taken out of the state, does an action of its work, which stood on top, and runs on.
    pub(crate) fn act(
        &mut self,
        machine: &Machine<'a>,
        action: Action,
        job: Job<'a>,
    ) -> Result<(), NoMemory>
        requires machine { IsMachine machine.now }
        requires early { IsEarly self.old }
        ensures { let app = app_of machine.now.code.now.app.now in
            OnOk result ((t : laws.State) → StateIs app (before action job.entry self.old) t
            → StateIs app self.new (state_after_item app t t.jobs)) }
    {
        match action {
            Action::Post(irq) => {
                self.resume(machine.code, Action::Post(irq), job)?;
                self.pend(machine, irq)?;
                Ok(())
            }
            Action::SetAlarm => {
                let instant = least_instant(self.store.delays());
                self.resume(machine.code, Action::SetAlarm, job)?;
                self.set_alarm(machine, instant)?;
                Ok(())
            }
            plain => {
                self.resume(machine.code, plain, job)?;
                Ok(())
            }
        }
    }
}
