// The frames of all bodies, in words.

ghost use Rattle.std.specs.Prelude.{◌≡◌, IfOk};
ghost use Rattle.rt_app.specs.View.{app_of};
ghost use Rattle.rt_app.specs.Limits.{KeepsLimits};
ghost use Rattle.rt_app.specs.Plan as plan;

use crate::frame::{frame_words, thread_frame};
use rt_app::App;
use rt_ids::NoMemory;
use std::alloc::Global;

/// The words of the frames of `init`, `idle` and the tasks in order, with 0 for an `init` or `idle` that is not
/// declared.
pub fn body_frames(alloc: Global, app: &App) -> Result<Vec<u32>, NoMemory>
    requires limits { KeepsLimits (app_of app.now) }
    ensures { IfOk result (λ frames. frames.items ≡ plan.frames (app_of app.now)) }
{
    let mut frames = Vec::new(alloc);
    frames.push(thread_frame(&app.init))?;
    frames.push(thread_frame(&app.idle))?;
    for task in &app.tasks {
        frames.push(frame_words(task.args, &task.body))?;
    }
    Ok(frames)
}
