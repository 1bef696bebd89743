// The interrupts that are requested, one for each priority.

ghost use Rattle.std.specs.Prelude.{◌≡◌, ◌&&◌, ◌==◌, true, map, find, IfOk};
ghost use Rattle.rt_ids.specs.Lists.{greatest, then_from};
ghost use Rattle.rt_app.specs.View.{task_of, app_of};
ghost use Rattle.rt_app.specs.Accepted.{IsAccepted};
ghost use Rattle.rt_app.specs.Frame.{frame_words};
ghost use Rattle.rt_app.specs.Handlers.{irq_number};
ghost use Rattle.rt_app.specs.Plan as plan;
ghost use Rattle.rt_app.specs.Stack as stack;
ghost use Rattle.rt_app.specs.Forms.{has_deepest_script};
ghost use Rattle.rt_reach.specs.Priorities as spec;

use rt_app::costs::PRIORITIES;
use rt_app::{App, Task};
use rt_frames::body_frames;
use rt_ids::{Irq, NoMemory};
use std::alloc::Global;

/// Where the frames of tasks begin among those of bodies: behind `init` and `idle`.
const FIRST_TASK: usize = 2;

/// Whether it is a hardware task of this priority.
fn is_bound_at(task: &Task, priority: u8) -> bool
    ensures { result ≡ stack.is_bound_at priority (task_of task.now) }
{
    !task.is_software() && task.priority == priority
}

/// The greatest frame of the hardware tasks of a priority, in words.
fn greatest_frame(app: &App, frames: &[u32], priority: u8) -> u32
    requires { frames.now ≡ plan.frames (app_of app.now) }
    ensures { result ≡ greatest (stack.frames_of (stack.is_bound_at priority) (app_of app.now)) }
{
    let mut most: u32 = 0;
    for (number, task) in app.tasks.iter().enumerate() {
        if is_bound_at(task, priority) {
            most = most.max(frames[FIRST_TASK + number]);
        }
    }
    most
}

/// The interrupt that the first hardware task of a priority binds whose frame has so many words, by its index in the
/// order of declaration.
fn index_bound(app: &App, frames: &[u32], priority: u8, words: u32) -> Option<u8>
    requires { frames.now ≡ plan.frames (app_of app.now) }
    ensures { result ≡ then_from
        (find (λ t. stack.is_bound_at priority t && (frame_words t.args t.body == words)) (app_of app.now).tasks)
        (λ t. t.binds) }
{
    for (number, task) in app.tasks.iter().enumerate() {
        if is_bound_at(task, priority) && frames[FIRST_TASK + number] == words {
            return task.binds;
        }
    }
    None
}

/// The number of the interrupt at an index in the order of declaration.
fn number_at(app: &App, index: u8) -> Option<Irq>
    ensures { result ≡ irq_number (app_of app.now) index }
{
    app.irqs
        .get(usize::from(index))
        .map(|declared| declared.number)
}

/// The number of the interrupt that the hardware task of greatest frame of a priority binds, the first declared of
/// equal ones.
fn deepest_irq(app: &App, frames: &[u32], priority: u8) -> Option<Irq>
    requires accepted { IsAccepted (app_of app.now) }
    requires form { has_deepest_script (app_of app.now) ≡ true }
    requires frames { frames.now ≡ plan.frames (app_of app.now) }
    ensures { result ≡ spec.deepest_irq (app_of app.now) priority }
{
    let words = greatest_frame(app, frames, priority);
    let index = index_bound(app, frames, priority, words)?;
    number_at(app, index)
}

/// The numbers of these interrupts, one for each priority that has a handler, rising.
pub(crate) fn deepest_irqs(alloc: Global, app: &App) -> Result<Vec<Irq>, NoMemory>
    requires accepted { IsAccepted (app_of app.now) }
    requires form { has_deepest_script (app_of app.now) ≡ true }
    ensures { IfOk result (λ irqs. irqs.items ≡ spec.deepest_irqs (app_of app.now)) }
{
    let frames = body_frames(alloc, app)?;
    let mut irqs = Vec::new(alloc);
    for priority in 0..PRIORITIES {
        if let Some(irq) = deepest_irq(app, &frames, priority as u8) {
            irqs.push(irq)?;
        }
    }
    Ok(irqs)
}
