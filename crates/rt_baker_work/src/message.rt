// Messages that are ready, and messages that are armed.

ghost use Rattle.std.specs.Prelude.{◌≡◌, IfOk};

use rt_ids::{NoMemory, TaskId};
use std::alloc::Global;
use std::marker::Model;

/// A message to a software task.
#[derive(Drop)]
pub struct Message {
    pub(crate) task: TaskId,
    pub(crate) args: Vec<u32>,
}

impl Model for Message {
    ghost use Rattle.rt_actions.specs.Content.{Message};

    ghost Value = { Message };

    ghost view = { λ m. record { task = m.task; args = m.args.items } };
}

impl Message {
    /// Its task.
    pub fn task(&self) -> TaskId
        ensures { result ≡ self.now.task }
    {
        self.task
    }

    /// The arguments that it carries.
    pub(crate) fn into_args(self) -> Vec<u32>
        ensures { result.items ≡ self.args }
    {
        self.args
    }

    /// The arguments that it carries, in order.
    pub(crate) fn values(&self) -> &[u32]
        ensures { result.now ≡ self.now.args }
    {
        self.args.as_slice()
    }

    /// The same message.
    pub(crate) fn duplicate(&self, alloc: Global) -> Result<Message, NoMemory>
        ensures { IfOk result (λ m. m ≡ self.now) }
    {
        let mut args = Vec::new(alloc);
        args.extend_from_slice(self.args.as_slice())?;
        Ok(Message {
            task: self.task,
            args,
        })
    }
}

/// A message that waits for its instant, in ticks, and its handle.
#[derive(Drop)]
pub struct Armed {
    pub(crate) instant: u64,
    pub(crate) message: Message,
    pub(crate) handle: u64,
}

impl Model for Armed {
    ghost use Rattle.rt_actions.specs.Content.{Armed};

    ghost Value = { Armed };

    ghost view = { λ a. record { instant = a.instant; message = a.message; handle = a.handle } };
}
