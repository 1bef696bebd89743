// The moves of the machine, one for each item.

ghost use Rattle.std.specs.Prelude.{◌≡◌, [], true, OnOk, MatchOption};
ghost use Rattle.std.specs.List.{AllByRecursion};
ghost use Rattle.rt_actions.specs.Action.{Clocks};
ghost use Rattle.rt_app.specs.Tree.{App};
ghost use Rattle.rt_app.specs.View.{app_of};
ghost use Rattle.rt_trace.specs.Label.{Ticked, Rang};
ghost use Rattle.rt_laws.specs.Acting.{state_after_pend};
ghost use Rattle.rt_laws.specs.Allowed.{state_after_item, after};
ghost use Rattle.rt_laws.specs.DeviceWords.{state_after_put};
ghost use Rattle.rt_laws.specs.Silent.{jobs_after_steps};
ghost use Rattle.rt_laws.specs.State as laws;
ghost use Rattle.rt_baker_work.specs.Code.{IsCode};
ghost use Rattle.rt_baker_work.specs.Work.{is_seen, IsSettled};
ghost use Rattle.rt_baker_moves.specs.Machine.{IsMachine};
ghost use Rattle.rt_baker_moves.specs.State.{StateIs, IsEarly};
ghost use Rattle.rt_baker_moves.specs.Inside.Moves.{with_next, Advances, IsIdling};
ghost use Rattle.rt_baker_moves.specs.Inside.Acts.{held_with_job, Resumes};

use crate::idle::idle;
use crate::job::{Job, Role};
use crate::machine::Machine;
use crate::state::{State, is_due, timer};
use rt_baker_work::clock::answer;
use rt_baker_work::{Code, Reading, Todo};
use rt_ids::NoMemory;

impl<'a> State<'a> {
    /// The interrupt of this number arrives.
    pub fn arrive(&mut self, machine: &Machine<'a>, irq: u16) -> Result<(), NoMemory>
        requires { IsMachine machine.now }
        ensures { let app = app_of machine.now.code.now.app.now in
            OnOk result ((t : laws.State) → StateIs app self.old t → StateIs app self.new (state_after_pend irq t)) }
    {
        self.pend(machine, irq)?;
        Ok(())
    }

    /// The time rises by one tick.
    pub fn tick(&mut self)
        requires early { IsEarly self.old }
        ensures { (app : App) (t : laws.State) → StateIs app self.old t → StateIs app self.new (after app t Ticked) }
    {
        self.time += 1;
        self.owing = is_due(self.time, self.alarm);
    }

    /// The alarm of a tick comes.
    pub fn ring(&mut self, machine: &Machine<'a>) -> Result<(), NoMemory>
        requires { IsMachine machine.now }
        ensures { let app = app_of machine.now.code.now.app.now in
            OnOk result ((t : laws.State) → StateIs app self.old t → StateIs app self.new (after app t Rang)) }
    {
        self.alarm = None;
        self.owing = false;
        self.pend(machine, timer(machine.code.app))?;
        Ok(())
    }

    /// A device puts a word into a local resource.
    pub fn put(&mut self, local: u8, word: u32)
        ensures { (app : App) (t : laws.State) → StateIs app self.old t
            → StateIs app self.new (state_after_put local word t) }
    {
        self.store.set_local(local, word);
    }

    /// So many silent steps pass.
    pub fn spend(&mut self, steps: u64)
        ensures { (app : App) (t : laws.State) → StateIs app self.old t
            → StateIs app self.new (record t { jobs = jobs_after_steps steps t.jobs }) }
    {
        if self.jobs.len() > 0 {
            self.jobs[0].spend(steps);
        }
    }

    /// The running job does its next action, whatever that is, and runs on to the one after it.
    pub fn advance(&mut self, machine: &Machine<'a>) -> Result<(), NoMemory>
        requires machine { IsMachine machine.now }
        requires early { IsEarly self.old }
        requires settled { AllByRecursion (λ j. IsSettled j.work.todos) self.old.jobs }
        ensures { let app = app_of machine.now.code.now.app.now in
            OnOk result ((t : laws.State) → StateIs app self.old t
            → StateIs app self.new (state_after_item app t t.jobs)) }
    {
        match self.take_running() {
            None => Ok(()),
            Some(job) => {
                self.go_on(machine, job)?;
                Ok(())
            }
        }
    }

    /// The running job, where there is one, is taken out of the state.
    fn take_running(&mut self) -> Option<Job<'a>>
        ensures { MatchOption result ((self.old.jobs ≡ []) × (self.new ≡ self.old))
            (λ job. self.old ≡ held_with_job self.new
            job self.new.store) }
    {
        if self.jobs.len() == 0 {
            return None;
        }
        Some(self.jobs.remove(0))
    }

    /// The running job is put back.
    fn put_back(&mut self, job: Job<'a>) -> Result<(), NoMemory>
        ensures { OnOk result (self.new ≡ held_with_job self.old job.entry self.old.store) }
    {
        self.jobs.insert(0, job)?;
        Ok(())
    }

    /// The running job, taken out of the state, does its next action, and runs on.
    fn go_on(&mut self, machine: &Machine<'a>, mut job: Job<'a>) -> Result<(), NoMemory>
        requires machine { IsMachine machine.now }
        requires early { IsEarly self.old }
        requires settled { IsSettled job.work.todos }
        ensures { OnOk result (Advances (app_of machine.now.code.now.app.now) (held_with_job self.old job.entry
            self.old.store) self.new) }
    {
        match job.next() {
            None => {
                self.finish(machine.code, job)?;
                Ok(())
            }
            Some(todo) => {
                self.follow(machine, todo, job)?;
                Ok(())
            }
        }
    }

    /// The running job, taken out of the state, does this, which was taken off its work, and runs on. It is an action
    /// or a reading of the clock, since a job runs on to one of these.
    fn follow(
        &mut self,
        machine: &Machine<'a>,
        todo: Todo<'a>,
        job: Job<'a>,
    ) -> Result<(), NoMemory>
        requires machine { IsMachine machine.now }
        requires early { IsEarly self.old }
        requires seen { is_seen todo ≡ true }
        ensures { OnOk result (Advances (app_of machine.now.code.now.app.now)
            (held_with_job self.old (with_next todo.entry
            job.entry) self.old.store) self.new) }
    {
        match todo {
            Todo::Act(action) => {
                self.act(machine, action, job)?;
                Ok(())
            }
            Todo::Clock(reading) => {
                self.read(machine.code, reading, job)?;
                Ok(())
            }
            _silent => unreachable!(),
        }
    }

    /// The running job, taken out of the state, reads the clock, for what was taken off its work, and runs on.
    fn read(&mut self, code: &Code<'a>, reading: Reading, mut job: Job<'a>) -> Result<(), NoMemory>
        requires code { IsCode code.now }
        requires early { IsEarly self.old }
        ensures { OnOk result (Advances (app_of code.now.app.now)
            (held_with_job self.old (with_next (Todo.Clock reading)
            job.entry) self.old.store) self.new) }
    {
        answer(reading, self.time, &mut job.work)?;
        self.pass(code, job)?;
        Ok(())
    }

    /// The running job, taken out of the state, has read the clock, and runs on.
    fn pass(&mut self, code: &Code<'a>, mut job: Job<'a>) -> Result<(), NoMemory>
        requires code { IsCode code.now }
        requires early { IsEarly self.old }
        ensures { OnOk result (Resumes (app_of code.now.app.now) Clocks job.entry self.old self.new) }
    {
        job.pass(code, &mut self.store)?;
        self.jobs.insert(0, job)?;
        Ok(())
    }

    /// The running job, taken out of the state, has done all its work. A handler returns, and the thread begins `idle`,
    /// unless it waits.
    fn finish(&mut self, code: &Code<'a>, job: Job<'a>) -> Result<(), NoMemory>
        requires code { IsCode code.now }
        requires early { IsEarly self.old }
        ensures { OnOk result (job.entry.work.todos ≡ [] → Advances (app_of code.now.app.now)
            (held_with_job self.old job.entry
            self.old.store) self.new) }
    {
        match job.role {
            Role::Init => {
                self.become_idle(code)?;
                Ok(())
            }
            Role::Idle => {
                self.become_idle(code)?;
                Ok(())
            }
            Role::Waiting => {
                self.put_back(job)?;
                Ok(())
            }
            Role::Serving(_irq) => Ok(()),
        }
    }

    /// The thread, taken out of the state, begins `idle`, or waits where that is absent.
    fn become_idle(&mut self, code: &Code<'a>) -> Result<(), NoMemory>
        requires code { IsCode code.now }
        requires early { IsEarly self.old }
        ensures { OnOk result (IsIdling (app_of code.now.app.now) self.old self.new) }
    {
        let job = idle(code, &mut self.store)?;
        self.jobs.insert(0, job)?;
        Ok(())
    }
}
