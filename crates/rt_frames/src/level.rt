// The levels of software tasks.

ghost use Rattle.std.specs.Prelude.{◌≡◌, ◌<◌, ◌∷◌, [], map, length, count_by};
ghost use Rattle.std.specs.List.{list_any, AllByRecursion};
ghost use Rattle.rt_app.specs.View.{task_of, app_of};
ghost use Rattle.rt_app.specs.Level as level;
ghost use Rattle.rt_frames.specs.Inside.Flags.{flags_with, HasFlags, level_numbers};

use crate::flags::{self, Flags, NUMBERS};
use rt_app::{App, Task};

/// How many software tasks have this priority.
pub fn tasks_of_level(tasks: &[Task], priority: u8) -> usize
    ensures { result ≡ count_by (level.is_of_level priority) (map task_of tasks.now) }
{
    let mut count: usize = 0;
    for task in tasks {
        count += usize::from(task.is_of_level(priority));
    }
    count
}

/// How many software tasks there are.
pub(crate) fn software_count(tasks: &[Task]) -> usize
    ensures { result ≡ count_by level.is_software (map task_of tasks.now) }
{
    let mut count: usize = 0;
    for task in tasks {
        count += usize::from(task.is_software());
    }
    count
}

/// Flags the priority of a task, where it is a software task.
fn flag_level(flags: &mut Flags, task: &Task)
    ensures { flags.new ≡ flags_with (level_numbers (task_of task.now ∷ [])) flags.old }
{
    if task.is_software() {
        flags::flag(flags, task.priority);
    }
}

/// Flags the priorities of software tasks.
fn flag_levels(flags: &mut Flags, tasks: &[Task])
    ensures { flags.new ≡ flags_with (level_numbers (map task_of tasks.now)) flags.old }
{
    for task in tasks {
        flag_level(flags, task);
    }
}

/// Flags the levels of software tasks.
pub(crate) fn level_flags(app: &App) -> Flags
    ensures flags { HasFlags result (λ p. list_any (level.is_of_level p) (app_of app.now).tasks) }
    ensures all { AllByRecursion (λ p. p < NUMBERS) (level_numbers (app_of app.now).tasks) }
{
    let mut levels = flags::none();
    flag_levels(&mut levels, &app.tasks);
    levels
}

/// The number of distinct priorities of software tasks.
pub fn level_count(app: &App) -> usize
    ensures { result ≡ length (level.levels (app_of app.now)) }
{
    flags::count(&level_flags(app))
}
