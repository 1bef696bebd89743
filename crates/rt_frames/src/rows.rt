// The rows of the timer queue that belong to each task.

ghost use Rattle.std.specs.Prelude.{◌≡◌, ◌<◌, ◌≤◌, length, if◌then◌else◌};
ghost use Rattle.rt_app.specs.View.{app_of};
ghost use Rattle.rt_app.specs.Level.{is_armed, armed_messages, capacities_before};
ghost use Rattle.rt_app.specs.Sending.{capacity_of};

use crate::armed::{self, MOST_ARMED, armed_flags};
use crate::flags::Flags;
use rt_app::App;
use rt_ids::TaskId;
use std::marker::Model;

/// The rows of the messages of an application that may be armed. Each place of a task that is named in a `spawn_after`
/// has one, by task and place, and the row's number stands for the message in it. Contracts see the application.
#[derive(Drop)]
pub struct ArmedRows<'a> {
    app: &'a App,
    /// By task: whether it is named in a `spawn_after`.
    armed: Flags,
}

impl<'a> Model for ArmedRows<'a> {
    ghost use Rattle.rt_app.specs.declared.app.App.{App};
    ghost use Rattle.rt_app.specs.contracts.app.App as declared;

    ghost Value = { App };

    ghost coded = { declared.the_row.coded };

    ghost use Rattle.rt_app.specs.View.{app_of};
    ghost use Rattle.rt_app.specs.Level.{is_armed};
    ghost use Rattle.rt_frames.specs.Inside.Flags.{HasFlags};

    ghost view = { λ r. r.app.now };

    ghost invariant = { λ r. HasFlags r.armed (is_armed (app_of r.app.now)) };
}

impl<'a> ArmedRows<'a> {
    /// The rows of an application, by one walk over its bodies.
    pub fn of(app: &'a App) -> ArmedRows<'a>
        ensures { result ≡ app.now }
    {
        ArmedRows {
            app,
            armed: armed_flags(app),
        }
    }

    /// Whether messages of a task may be armed: it is named in a `spawn_after`.
    pub fn is_armed(&self, task: TaskId) -> bool
        ensures { result ≡ is_armed (app_of self.now) task }
    {
        self.armed[usize::from(task.0)]
    }

    /// How many rows there are: the messages that may be armed at once.
    pub fn messages(&self) -> u32
        ensures value { result ≡ armed_messages (app_of self.now) }
        ensures few { result ≤ MOST_ARMED }
    {
        armed::armed_messages(self.app, &self.armed)
    }

    /// The row of the first place of a task; of one that has no rows, where it would have its first.
    pub fn first(&self, task: TaskId) -> u32
        ensures value { result ≡ capacities_before (app_of self.now) task }
        ensures few { result ≤ MOST_ARMED }
    {
        armed::messages_before(self.app, &self.armed, usize::from(task.0))
    }

    /// How many rows a declared task has: its capacity, and none where no message of it is ever armed.
    pub fn count(&self, task: TaskId) -> u32
        requires { task < length (app_of self.now).tasks }
        ensures { let app = app_of self.now in result ≡ if is_armed app task then capacity_of app task else 0 }
    {
        if self.is_armed(task) {
            self.capacity(task)
        } else {
            0
        }
    }

    /// The capacity of a declared task.
    fn capacity(&self, task: TaskId) -> u32
        requires { task < length (app_of self.now).tasks }
        ensures { result ≡ capacity_of (app_of self.now) task }
    {
        match self.app.task(task) {
            None => unreachable!(),
            Some(task) => u32::from(task.capacity),
        }
    }
}
