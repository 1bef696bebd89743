// The stack bound.

ghost use Rattle.std.specs.Prelude.{◌≡◌, ◌+◌, ◌*◌, ◌==◌, map, if◌then◌else◌};
ghost use Rattle.rt_app.specs.View.{task_of, app_of};
ghost use Rattle.rt_ids.specs.Exception.{entry_words};
ghost use Rattle.rt_ids.specs.Lists.{greatest, is_some_and};
ghost use Rattle.rt_app.specs.Stack as stack;
ghost use Rattle.rt_frames.specs.Inside.Flags.{flags_with, HasFlags, timer_numbers};
ghost use Rattle.rt_frames.specs.Inside.Saturated.{saturated_number};
ghost use Rattle.rt_frames.specs.Inside.Needs.{task_need, need_at};

use crate::flags::{self, Flags};
use crate::frame::{frame_words, thread_words};
use rt_app::costs::{DISPATCHER_WORDS, PRIORITIES, TIMER_WORDS};
use rt_app::{App, Mono, Task};
use rt_ids::entry_words;

/// Flags the priorities of tasks.
fn flag_priorities(flags: &mut Flags, tasks: &[Task])
    ensures { flags.new ≡ flags_with (map (λ t. t.priority) (map task_of tasks.now)) flags.old }
{
    for task in tasks {
        flags::flag(flags, task.priority);
    }
}

/// Flags the priority of the monotonic, where there is one.
fn flag_timer(flags: &mut Flags, mono: &Option<Mono>)
    ensures { flags.new ≡ flags_with (timer_numbers mono.now) flags.old }
{
    match mono {
        None => {}
        Some(mono) => flags::flag(flags, mono.priority),
    }
}

/// Flags the priorities that have a handler.
pub(crate) fn handler_flags(app: &App) -> Flags
    ensures { HasFlags result (stack.has_handler (app_of app.now)) }
{
    let mut handlers = flags::none();
    flag_priorities(&mut handlers, &app.tasks);
    flag_timer(&mut handlers, &app.mono);
    handlers
}

/// The words of the handler that runs a task, up to the greatest number of 32 bits.
fn task_need(task: &Task) -> u32
    ensures { result ≡ saturated_number (task_need (task_of task.now)) }
{
    let words = frame_words(task.args, &task.body);
    if task.is_software() {
        words.saturating_add(DISPATCHER_WORDS)
    } else {
        words
    }
}

/// The same, where the task has this priority, and else none.
fn need_at(task: &Task, priority: u8) -> u32
    ensures { result ≡ saturated_number (need_at priority (task_of task.now)) }
{
    if task.priority == priority {
        task_need(task)
    } else {
        0
    }
}

/// The greatest need of the tasks of this priority, in words, up to the greatest number of 32 bits.
fn tasks_need(tasks: &[Task], priority: u8) -> u32
    ensures { result ≡ saturated_number (greatest (map (need_at priority) (map task_of tasks.now))) }
{
    let mut most: u32 = 0;
    for task in tasks {
        most = most.max(need_at(task, priority));
    }
    most
}

/// The words of the timer handler, where it has this priority.
fn timer_need(mono: &Option<Mono>, priority: u8) -> u32
    ensures { result ≡ (if is_some_and (λ m. m.priority == priority) mono.now then TIMER_WORDS else 0) }
{
    match mono {
        None => 0,
        Some(mono) => {
            if mono.priority == priority {
                TIMER_WORDS
            } else {
                0
            }
        }
    }
}

/// The greatest need of the handlers of this priority, in words, up to the greatest number of 32 bits.
fn need(app: &App, priority: u8) -> u32
    ensures { result ≡ saturated_number (stack.need (app_of app.now) priority) }
{
    tasks_need(&app.tasks, priority).max(timer_need(&app.mono, priority))
}

/// The bytes of a priority, up to the greatest number of 32 bits.
fn priority_bytes(app: &App, priority: u8, has_handler: bool) -> u32
    ensures { let all = app_of app.now in
        result ≡ saturated_number (if has_handler then 4 * (entry_words all.fpu + stack.need all priority) else 0) }
{
    if has_handler {
        entry_words(app.fpu)
            .saturating_add(need(app, priority))
            .saturating_mul(4)
    } else {
        0
    }
}

/// Bytes of the stack at the deepest, up to the greatest number of 32 bits.
pub(crate) fn stack_bytes(app: &App, handlers: &Flags) -> u32
    requires { HasFlags handlers.now (stack.has_handler (app_of app.now)) }
    ensures { result ≡ saturated_number (stack.stack_bytes (app_of app.now)) }
{
    let mut bytes = thread_words(app).saturating_mul(4);
    for priority in 0..PRIORITIES {
        let own = priority_bytes(app, priority as u8, handlers[usize::from(priority)]);
        bytes = bytes.saturating_add(own);
    }
    bytes
}
