// The cells of queues.

ghost use Rattle.std.specs.Prelude.{◌≡◌, ◌∷◌, ◌++◌, [], codes, flat_map, IfOk, OnOk};
ghost use Rattle.std.specs.List.{range_with_len};
ghost use Rattle.rt_app.specs.View.{task_of};
ghost use Rattle.rt_layout.specs.Inside.Rows.{zero_rows, place_rows, free_rows, ready_rows};
ghost use Rattle.rt_layout.specs.Inside.Rows as rows;

use crate::row::{push_cell, push_numbered};
use rt_app::Task;
use rt_ids::{CellRow, NoMemory, push_bytes, push_number};
use std::alloc::Global;

/// Appends so many cells that hold 0, whose names end in numbers from 0 on.
fn push_zeros(
    alloc: Global,
    cells: &mut Vec<CellRow>,
    front: &[u8],
    count: u32,
) -> Result<(), NoMemory>
    ensures { OnOk result (cells.new.items ≡ cells.old.items ++ zero_rows front.now count) }
{
    for number in 0..count {
        push_numbered(alloc, cells, front, number, 0)?;
    }
    Ok(())
}

/// Appends the cells of so many free places, each of which holds its number.
fn push_places(
    alloc: Global,
    cells: &mut Vec<CellRow>,
    front: &[u8],
    count: u32,
) -> Result<(), NoMemory>
    ensures { OnOk result (cells.new.items ≡ cells.old.items ++ place_rows front.now count) }
{
    for place in 0..count {
        push_numbered(alloc, cells, front, place, place)?;
    }
    Ok(())
}

/// Appends a cell whose name has these two parts.
fn push_named(
    alloc: Global,
    cells: &mut Vec<CellRow>,
    front: &[u8],
    end: &[u8],
    first: u32,
) -> Result<(), NoMemory>
    ensures { OnOk result (cells.new.items ≡ cells.old.items ++ rows.row (front.now ++ end.now) first ∷ []) }
{
    let mut name = Vec::from_slice(alloc, front)?;
    push_bytes(&mut name, end)?;
    push_cell(alloc, cells, &name, first)
}

/// The beginning of the names of a task's cells: a word and the task's name.
fn task_front(alloc: Global, word: &[u8], task: &Task) -> Result<Vec<u8>, NoMemory>
    ensures { IfOk result (λ front. front.items ≡ word.now ++ task.now.name ++ codes ".") }
{
    let mut front = Vec::from_slice(alloc, word)?;
    push_bytes(&mut front, task.name.bytes())?;
    push_bytes(&mut front, b".")?;
    Ok(front)
}

/// Appends the free places of a task.
pub(crate) fn push_free(
    alloc: Global,
    cells: &mut Vec<CellRow>,
    task: &Task,
) -> Result<(), NoMemory>
    ensures { OnOk result (cells.new.items ≡ cells.old.items ++ free_rows (task_of task.now)) }
{
    let front = task_front(alloc, b"free.", task)?;
    let capacity = u32::from(task.capacity);
    push_named(alloc, cells, &front, b"count", capacity)?;
    push_places(alloc, cells, &front, capacity)
}

/// Appends the arguments of a place of a task.
fn push_input(
    alloc: Global,
    cells: &mut Vec<CellRow>,
    task: &Task,
    place: u8,
) -> Result<(), NoMemory>
    ensures { OnOk result (cells.new.items ≡ cells.old.items ++ rows.input_rows (task_of task.now) place) }
{
    let mut front = task_front(alloc, b"input.", task)?;
    push_number(&mut front, u32::from(place))?;
    push_bytes(&mut front, b".")?;
    push_zeros(alloc, cells, &front, u32::from(task.args))
}

/// Appends the arguments of the places of a task.
pub(crate) fn push_inputs(
    alloc: Global,
    cells: &mut Vec<CellRow>,
    task: &Task,
) -> Result<(), NoMemory>
    ensures { let t = task_of task.now in
        OnOk result (cells.new.items ≡ cells.old.items ++ flat_map (rows.input_rows t) (range_with_len 0 t.capacity)) }
{
    for place in 0..task.capacity {
        push_input(alloc, cells, task, place)?;
    }
    Ok(())
}

/// The beginning of the names of a ready queue's cells.
fn ready_front(alloc: Global, level: u8) -> Result<Vec<u8>, NoMemory>
    ensures { IfOk result (λ front. front.items ≡ rows.ready_front level) }
{
    let mut front = Vec::from_slice(alloc, b"ready.")?;
    push_number(&mut front, u32::from(level))?;
    push_bytes(&mut front, b".")?;
    Ok(front)
}

/// Appends a ready queue with room for so many messages.
pub(crate) fn push_ready(
    alloc: Global,
    cells: &mut Vec<CellRow>,
    level: u8,
    room: u32,
) -> Result<(), NoMemory>
    ensures { OnOk result (cells.new.items ≡ cells.old.items ++ ready_rows level room) }
{
    let mut front = ready_front(alloc, level)?;
    push_named(alloc, cells, &front, b"head", 0)?;
    push_named(alloc, cells, &front, b"count", 0)?;
    push_bytes(&mut front, b"at.")?;
    push_zeros(alloc, cells, &front, room)
}

/// Appends the counts of the timer queue: armed messages, armings so far with reschedules, and handles given.
fn push_counts(alloc: Global, cells: &mut Vec<CellRow>) -> Result<(), NoMemory>
    ensures { OnOk result (cells.new.items ≡ cells.old.items ++ rows.timer_counts) }
{
    push_cell(alloc, cells, b"timer.count", 0)?;
    push_cell(alloc, cells, b"timer.armings", 0)?;
    push_cell(alloc, cells, b"timer.given", 0)?;
    Ok(())
}

/// Appends the timer queue with room for so many messages.
pub(crate) fn push_timer(alloc: Global, cells: &mut Vec<CellRow>, room: u32) -> Result<(), NoMemory>
    ensures { OnOk result (cells.new.items ≡ cells.old.items ++ rows.timer_rows room) }
{
    push_counts(alloc, cells)?;
    push_zeros(alloc, cells, b"timer.at.", room)?;
    push_zeros(alloc, cells, b"timer.arming.", room)?;
    push_zeros(alloc, cells, b"timer.handle.", room)?;
    push_zeros(alloc, cells, b"timer.heap.", room)?;
    Ok(())
}
