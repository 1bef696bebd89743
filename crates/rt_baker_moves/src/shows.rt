// Whether an item shows the end of a job.

ghost use Rattle.std.specs.Prelude.{◌≡◌, ◌↔◌, IsTrue, IsFalse, None, Some, if◌then◌else◌};
ghost use Rattle.rt_app.specs.Tree.{App};
ghost use Rattle.rt_laws.specs.Giving.{left_value, item_to_come, is_due};
ghost use Rattle.rt_laws.specs.State as laws;
ghost use Rattle.rt_baker_work.specs.Store.{contents};
ghost use Rattle.rt_baker_moves.specs.Job.{role_of};
ghost use Rattle.rt_baker_moves.specs.State.{StateIs};
ghost use Rattle.rt_baker_moves.specs.Inside.Shown.{action_item, end_item, job_item, held_item};
ghost use Rattle.rt_baker_moves.specs.Inside.Acts.{held_instant};

use crate::job::{Job, Role};
use crate::state::{State, is_due};
use rt_baker_work::shown::{
    is_alarm, is_arm, is_cancel, is_clock, is_emit, is_enter, is_fire, is_free, is_full,
    is_idle_end, is_init_end, is_leave, is_move, is_placed, is_post, is_ready, is_return, is_set,
    is_start, is_task_end,
};
use rt_baker_work::timer::least_instant;
use rt_baker_work::{Action, Todo};
use rt_ids::Section;
use rt_trace::What;

/// Whether an item shows the end of a job.
fn is_end(what: &What, role: Role) -> bool
    ensures { IsTrue result ↔ (end_item (role_of role) ≡ Some what.now) }
{
    match role {
        Role::Init => is_init_end(what),
        Role::Idle => is_idle_end(what),
        Role::Waiting => false,
        Role::Serving(irq) => is_return(what, irq),
    }
}

impl<'a> State<'a> {
    /// The value that the leaving of a section shows.
    fn left_value(&self, section: Section) -> Option<u32>
        ensures { result ≡ left_value (contents self.now.store) section }
    {
        match section {
            Section::Res(resource) => Some(self.store.shared_value(resource)),
            Section::Free(_task) => None,
            Section::Ready(_level) => None,
            Section::Timer => None,
        }
    }

    /// Whether an item is that of the setting of the alarm. Where that is due it comes at once.
    fn sets_alarm(&self, what: &What) -> bool
        ensures { IsTrue result ↔ (what.now ≡ (if is_due self.now.time (held_instant self.now) then What.Alarm else
            What.AlarmSet)) }
    {
        if is_due(self.time, least_instant(self.store.delays())) {
            return is_alarm(what);
        }
        is_set(what)
    }

    /// Whether an item is that of an action of work.
    fn is_item(&self, action: &Action, what: &What) -> bool
        ensures { IsTrue result ↔ (action_item self.now action.now ≡ Some what.now) }
    {
        match action {
            Action::Enter(section, _cost) => is_enter(what, *section),
            Action::Leave(section) => is_leave(what, *section, self.left_value(*section)),
            Action::Emit(value) => is_emit(what, *value),
            Action::Post(irq) => is_post(what, *irq),
            Action::Place(task) => is_placed(what, *task),
            Action::Full(task) => is_full(what, *task),
            Action::Ready(_level, message) => is_ready(what, message.task()),
            Action::Start(_level, message) => is_start(what, message),
            Action::Free(task) => is_free(what, *task),
            Action::Arm(instant, message) => is_arm(what, message.task(), *instant),
            Action::Fire(message) => is_fire(what, message.task()),
            Action::Cancel(task, handle) => is_cancel(what, *task, *handle),
            Action::Move(task, handle, instant) => is_move(what, *task, *handle, *instant),
            Action::SetAlarm => self.sets_alarm(what),
            Action::End(task) => is_task_end(what, *task),
        }
    }

    /// Whether an item is that of a job's next action.
    fn next_shows(&self, job: &Job<'a>, what: &What) -> bool
        ensures { IsTrue result ↔ (job_item self.now job.now ≡ Some what.now) }
    {
        match job.work.next() {
            None => is_end(what, job.role),
            Some(todo) => match todo {
                Todo::Act(action) => self.is_item(action, what),
                Todo::Clock(_reading) => is_clock(what, self.time),
                _silent => false,
            },
        }
    }

    /// Whether an item is that of the running job's next action, by what it has to do.
    fn is_shown(&self, what: &What) -> bool
        ensures { IsTrue result ↔ (held_item self.now ≡ Some what.now) }
    {
        match self.jobs.as_slice().split_first() {
            None => false,
            Some((job, _others)) => self.next_shows(job, what),
        }
    }

    /// Whether an item is that of the running job's next action.
    pub fn shows(&self, what: &What) -> bool
        ensures right { IsTrue result → (app : App) (t : laws.State) → StateIs app self.now t
            → item_to_come t ≡ Some what.now }
        ensures wrong { IsFalse result → (app : App) (t : laws.State) → StateIs app self.now t
            → item_to_come t ≡ Some what.now → ⊥ }
    {
        self.is_shown(what)
    }
}
