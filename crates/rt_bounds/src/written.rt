// Lines that write slots: by slots, and those of one slot as they stand in the code.

ghost use Rattle.std.specs.Prelude.{◌+◌, IfOk, OnOk, length};
ghost use Rattle.rt_points.specs.Limits.{IsWithinLimits};
ghost use Rattle.rt_bounds.specs.Inside.Writtens as spec;

use crate::holding::written_slot;
use rt_code::Image;
use rt_ids::NoMemory;
use rt_judge::exits::line_at;
use std::alloc::Global;

/// A line that writes a slot.
#[derive(Clone, Copy)]
pub struct Written {
    pub slot: u32,
    pub address: u32,
}

/// One more line, if it writes a slot.
fn push_written(rows: &mut Vec<Written>, image: &Image, address: u32) -> Result<(), NoMemory>
    ensures { OnOk result (spec.AreWrittenBelow image.now address rows.old.items
        → spec.AreWrittenBelow image.now (address + 1) rows.new.items) }
{
    match line_at(image, address) {
        Some(line) => match written_slot(&line.0) {
            Some(slot) => {
                rows.push(Written { slot, address })?;
                Ok(())
            }
            None => Ok(()),
        },
        None => Ok(()),
    }
}

/// The lines of an image that write slots, in the order of the code.
fn lines_that_write(alloc: Global, image: &Image) -> Result<Vec<Written>, NoMemory>
    requires { IsWithinLimits image.now }
    ensures { IfOk result (λ rows. spec.AreWrittenBelow image.now (length image.now.code) rows.items) }
{
    let mut rows = Vec::new(alloc);
    for address in 0..image.code.len() as u32 {
        push_written(&mut rows, image, address)?;
    }
    Ok(rows)
}

/// The lines of an image that write slots, by slots.
pub fn all_written(alloc: Global, image: &Image) -> Result<Vec<Written>, NoMemory>
    requires { IsWithinLimits image.now }
    ensures { IfOk result (λ rows. spec.AreAllWritten image.now rows.items) }
{
    let mut rows = lines_that_write(alloc, image)?;
    rows.sort_by_key(|row| row.slot)?;
    Ok(rows)
}
