// How many messages each level may have ready at once.

ghost use Rattle.std.specs.Prelude.{◌≡◌, ◌+◌, ◌^◌, ◌<◌, ◌≤◌, length, map, slice_index};
ghost use Rattle.rt_ids.specs.declared.limits.TheConstants.{TASKS};
ghost use Rattle.rt_app.specs.View.{task_of};
ghost use Rattle.rt_layout.specs.Inside.Rooms.{with_capacity, HasRooms};

use rt_app::Task;
use rt_app::costs::PRIORITIES;

/// By priority, how many messages of the software tasks of that priority may be ready at once.
pub(crate) type Rooms = [u32; PRIORITIES as usize];

/// Adds the capacity of a task to its level, where it is a software task.
fn add_capacity(rooms: &mut Rooms, task: &Task)
    requires room { slice_index rooms.old task.now.priority + 2 ^ 8 < 2 ^ 32 }
    ensures rooms { rooms.new ≡ with_capacity rooms.old (task_of task.now) }
    ensures few { task.now.capacity < 2 ^ 8 }
{
    let capacity = u32::from(task.capacity);
    if task.is_software() {
        rooms[usize::from(task.priority)] += capacity;
    }
}

/// The rooms of the levels of these tasks.
pub(crate) fn rooms(tasks: &[Task]) -> Rooms
    requires few { length tasks.now ≤ TASKS }
    ensures { HasRooms (map task_of tasks.now) result }
{
    let mut rooms = [0; PRIORITIES as usize];
    for task in tasks {
        add_capacity(&mut rooms, task);
    }
    rooms
}
