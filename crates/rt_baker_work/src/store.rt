// What resources and queues hold.

ghost use Rattle.std.specs.Prelude.{◌≡◌, ◌≤◌, ◌++◌, OnOk, drop, is_some, length, map};
ghost use Rattle.rt_actions.specs.Action.{effect, Places, Frees, Readies, Starts, Arms, Fires, Cancels, Moves};
ghost use Rattle.rt_actions.specs.Content as content;
ghost use Rattle.rt_actions.specs.Location.{Guarded, Own};
ghost use Rattle.rt_actions.specs.Content.{Number, number, messages, timer_content, delays, nothing_armed, values_with};
ghost use Rattle.rt_actions.specs.Content.{message_of_handle, postponed_message, without_handle};
ghost use Rattle.rt_ids.specs.declared.ids.Section.TheVariants as section;
ghost use Rattle.rt_baker_work.specs.Actions.{action_of};
ghost use Rattle.rt_baker_work.specs.Store.{contents, MayTakeOne};

use crate::action::Action;
use crate::message::{Armed, Message};
use crate::timer::{by_handle, least};
use rt_ids::{NoMemory, ResId, TaskId};
use std::alloc::Global;
use std::marker::Model;

/// What resources and queues hold. Contracts see lists by number. There is room for every number of a byte.
#[derive(Drop)]
pub struct Store {
    shared: Vec<u32>,
    locals: Vec<u32>,
    out: Vec<u32>,
    ready: Vec<Vec<Message>>,
    given: u64,
    moved: u64,
    armed: Vec<Armed>,
}

impl Model for Store {
    ghost use Rattle.std.specs.Prelude.{◌≤◌, length, map};
    ghost use Rattle.rt_baker_work.specs.Store.{Store};

    ghost Value = { Store };

    ghost view = { λ s. record {
      shared = s.shared.items;
      locals = s.locals.items;
      out = s.out.items;
      ready = map (λ q. q.items) s.ready.items;
      timed = record { given = s.given; moved = s.moved; armed = s.armed.items };
    } };

    ghost invariant = { λ s.
        (256 ≤ length s.shared.items) × (256 ≤ length s.locals.items) × (256 ≤ length s.out.items) × (256 ≤ length
        s.ready.items) };
}

/// Drops the first item, where there is one.
pub fn drop_first<T: Drop>(items: &mut Vec<T>)
    ensures { items.new.items ≡ drop 1 items.old.items }
{
    if items.len() > 0 {
        items.remove(0);
    }
}

/// The armed message of a task that has a handle, where there is one, goes last for another instant.
fn postpone(armed: &mut Vec<Armed>, task: TaskId, handle: u32, instant: u64) -> Result<(), NoMemory>
    ensures { OnOk result (armed.new.items ≡ without_handle task handle armed.old.items
        ++ postponed_message instant (message_of_handle
        task handle armed.old.items)) }
{
    if let Some(index) = by_handle(armed, task, handle) {
        let message = armed.remove(index);
        armed.push(Armed {
            instant,
            message: message.message,
            handle: message.handle,
        })?;
    }
    Ok(())
}

impl Store {
    /// What these lists hold, by number, where nothing is armed. Each has room for every number of a byte.
    pub fn new(
        alloc: Global,
        shared: Vec<u32>,
        locals: Vec<u32>,
        out: Vec<u32>,
        ready: Vec<Vec<Message>>,
    ) -> Store
        requires shared { 256 ≤ length shared.items }
        requires locals { 256 ≤ length locals.items }
        requires out { 256 ≤ length out.items }
        requires ready { 256 ≤ length ready.items }
        ensures { result ≡ record {
          shared = shared.items;
          locals = locals.items;
          out = out.items;
          ready = map (λ q. q.items) ready.items;
          timed = nothing_armed;
        } }
    {
        Store {
            shared,
            locals,
            out,
            ready,
            given: 0,
            moved: 0,
            armed: Vec::new(alloc),
        }
    }

    /// The value of a shared resource.
    pub fn shared_value(&self, resource: ResId) -> u32
        ensures { result ≡ number (contents self.now (Guarded (section.Res resource))) }
    {
        self.shared[usize::from(resource.0)]
    }

    /// The value of a local resource.
    pub(crate) fn local(&self, local: u8) -> u32
        ensures { result ≡ number (contents self.now (Own local)) }
    {
        self.locals[usize::from(local)]
    }

    /// How many places of a task are out.
    pub(crate) fn places_out(&self, task: TaskId) -> u32
        ensures { result ≡ number (contents self.now (Guarded (section.Free task))) }
    {
        self.out[usize::from(task.0)]
    }

    /// The ready messages of a level, the oldest first.
    pub(crate) fn ready(&self, level: u8) -> &[Message]
        ensures { result.now ≡ messages (contents self.now (Guarded (section.Ready level))) }
    {
        self.ready[usize::from(level)].as_slice()
    }

    /// The armed messages, in order of their last arming.
    pub fn delays(&self) -> &[Armed]
        ensures { result.now ≡ delays (contents self.now (Guarded section.Timer)) }
    {
        self.armed.as_slice()
    }

    /// The handle that was given last, and 0 before the first.
    pub(crate) fn last_handle(&self) -> u64
        ensures { result ≡ (timer_content (contents self.now (Guarded section.Timer))).given }
    {
        self.given
    }

    /// Whether some armed message of a task has a handle.
    pub(crate) fn is_armed_as(&self, task: TaskId, handle: u32) -> bool
        ensures { result
            ≡ is_some (message_of_handle task handle (delays (contents self.now (Guarded section.Timer)))) }
    {
        by_handle(&self.armed, task, handle).is_some()
    }

    /// A shared resource has another value.
    pub(crate) fn set_shared(&mut self, resource: ResId, value: u32)
        ensures { contents self.new ≡ values_with (contents self.old) (Guarded (section.Res resource)) (Number value) }
    {
        self.shared[usize::from(resource.0)] = value;
    }

    /// A local resource has another value.
    pub fn set_local(&mut self, local: u8, value: u32)
        ensures { contents self.new ≡ values_with (contents self.old) (Own local) (Number value) }
    {
        self.locals[usize::from(local)] = value;
    }

    /// A place of a task is taken.
    pub(crate) fn place_one(&mut self, task: TaskId)
        requires { MayTakeOne self.old }
        ensures { contents self.new ≡ effect (Places task) (contents self.old) }
    {
        let index = usize::from(task.0);
        let out = self.out[index];
        self.out[index] = out + 1;
    }

    /// A place of a task is given back.
    pub(crate) fn free_one(&mut self, task: TaskId)
        ensures { contents self.new ≡ effect (Frees task) (contents self.old) }
    {
        let index = usize::from(task.0);
        let out = self.out[index];
        self.out[index] = out.saturating_sub(1);
    }

    /// A message becomes ready, the last of its level.
    pub(crate) fn make_ready(&mut self, level: u8, message: Message) -> Result<(), NoMemory>
        ensures { OnOk result (contents self.new ≡ effect (Readies level message) (contents self.old)) }
    {
        self.ready[usize::from(level)].push(message)?;
        Ok(())
    }

    /// The oldest message of a level is taken.
    pub(crate) fn start(&mut self, level: u8)
        ensures { (m : content.Message) → contents self.new ≡ effect (Starts level m) (contents self.old) }
    {
        drop_first(&mut self.ready[usize::from(level)]);
    }

    /// A message is armed, with the next handle.
    pub(crate) fn arm(&mut self, instant: u64, message: Message) -> Result<(), NoMemory>
        requires { MayTakeOne self.old }
        ensures { OnOk result (contents self.new ≡ effect (Arms instant message) (contents self.old)) }
    {
        let handle = self.given + 1;
        self.armed.push(Armed {
            instant,
            message,
            handle,
        })?;
        self.given = handle;
        Ok(())
    }

    /// The least armed message is taken.
    pub(crate) fn fire(&mut self)
        ensures { (m : content.Message) → contents self.new ≡ effect (Fires m) (contents self.old) }
    {
        if let Some(index) = least(&self.armed) {
            self.armed.remove(index);
        }
    }

    /// The armed message of a task that has a handle is taken back.
    pub(crate) fn cancel(&mut self, task: TaskId, handle: u32)
        ensures { contents self.new ≡ effect (Cancels task handle) (contents self.old) }
    {
        if let Some(index) = by_handle(&self.armed, task, handle) {
            self.armed.remove(index);
        }
    }

    /// The armed message of a task that has a handle waits for another instant, after all others.
    pub(crate) fn put_off(
        &mut self,
        task: TaskId,
        handle: u32,
        instant: u64,
    ) -> Result<(), NoMemory>
        requires { MayTakeOne self.old }
        ensures { OnOk result (contents self.new ≡ effect (Moves task handle instant) (contents self.old)) }
    {
        let moved = self.moved + 1;
        postpone(&mut self.armed, task, handle, instant)?;
        self.moved = moved;
        Ok(())
    }

    /// What an action changes in queues; it changes nothing else here.
    pub fn effect(&mut self, action: Action) -> Result<(), NoMemory>
        requires { MayTakeOne self.old }
        ensures { OnOk result (contents self.new ≡ effect (action_of action) (contents self.old)) }
    {
        match action {
            Action::Enter(_section, _cost) => Ok(()),
            Action::Leave(_section) => Ok(()),
            Action::Emit(_value) => Ok(()),
            Action::Post(_irq) => Ok(()),
            Action::Place(task) => {
                self.place_one(task);
                Ok(())
            }
            Action::Full(_task) => Ok(()),
            Action::Ready(level, message) => {
                self.make_ready(level, message)?;
                Ok(())
            }
            Action::Start(level, _message) => {
                self.start(level);
                Ok(())
            }
            Action::Free(task) => {
                self.free_one(task);
                Ok(())
            }
            Action::Arm(instant, message) => {
                self.arm(instant, message)?;
                Ok(())
            }
            Action::Fire(_message) => {
                self.fire();
                Ok(())
            }
            Action::Cancel(task, handle) => {
                self.cancel(task, handle);
                Ok(())
            }
            Action::Move(task, handle, instant) => {
                self.put_off(task, handle, instant)?;
                Ok(())
            }
            Action::SetAlarm => Ok(()),
            Action::End(_task) => Ok(()),
        }
    }
}
