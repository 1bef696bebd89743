// The text of bounds.

ghost use Rattle.std.specs.Prelude.{◌≡◌, [], ◌∷◌, ◌++◌, flat_map, IfOk, OnOk};
ghost use Rattle.rt_lines.specs.Table.{spaced_text};
ghost use Rattle.rt_bounds.specs.Text as spec;

use crate::bound::{Bounds, HandlerBound, SectionBound, WaitBound};
use crate::longest::Longest;
use rt_code::Image;
use rt_ids::{NoMemory, push_bytes};
use rt_listing::{push_count, push_section, push_spaced};
use rt_points::Owner;
use std::alloc::Global;

/// Appends a bound, and the end of the line.
fn push_longest(out: &mut Vec<u8>, longest: Longest) -> Result<(), NoMemory>
    ensures { OnOk result (out.new.items ≡ out.old.items ++ spaced_text (spec.longest_words longest) ++ 10 ∷ []) }
{
    match longest {
        Longest::Steps(steps) => push_spaced(out, steps)?,
        Longest::Loop(address) => {
            push_bytes(out, b" -")?;
            push_spaced(out, address)?;
        }
    }
    push_bytes(out, b"\n")
}

/// Appends how long a priority may be held off, and the end of the line.
fn push_wait(out: &mut Vec<u8>, longest: Option<Longest>) -> Result<(), NoMemory>
    ensures { OnOk result (out.new.items ≡ out.old.items ++ spaced_text (spec.wait_words longest) ++ 10 ∷ []) }
{
    match longest {
        Some(longest) => push_longest(out, longest),
        None => push_bytes(out, b" 0\n"),
    }
}

/// Appends the name of the row at an index.
fn push_row_name(out: &mut Vec<u8>, image: &Image, index: usize) -> Result<(), NoMemory>
    ensures { OnOk result (out.new.items ≡ out.old.items ++ spec.row_name image.now index) }
{
    match image.irqs.get(index) {
        Some(row) => push_bytes(out, row.name.bytes()),
        None => Ok(()),
    }
}

/// Appends whose code runs.
fn push_owner(out: &mut Vec<u8>, image: &Image, owner: Owner) -> Result<(), NoMemory>
    ensures { OnOk result (out.new.items ≡ out.old.items ++ spaced_text (spec.owner_words image.now owner)) }
{
    match owner {
        Owner::Starting => push_bytes(out, b" init"),
        Owner::Thread => push_bytes(out, b" thread"),
        Owner::Handling(index) => {
            push_bytes(out, b" handler ")?;
            push_row_name(out, image, index)
        }
    }
}

/// Appends the line of a handler.
fn push_handler(out: &mut Vec<u8>, image: &Image, row: &HandlerBound) -> Result<(), NoMemory>
    ensures { OnOk result (out.new.items ≡ out.old.items ++ spec.handler_line image.now row.now) }
{
    push_bytes(out, b"handler ")?;
    push_row_name(out, image, row.index)?;
    push_longest(out, row.longest)
}

/// Appends the line of a section.
fn push_section_line(out: &mut Vec<u8>, image: &Image, row: &SectionBound) -> Result<(), NoMemory>
    ensures { OnOk result (out.new.items ≡ out.old.items ++ spec.section_line image.now row.now) }
{
    push_bytes(out, b"section")?;
    push_owner(out, image, row.owner)?;
    push_bytes(out, b" ")?;
    push_section(out, row.section, &image.names)?;
    push_longest(out, row.longest)
}

/// Appends the line of a priority.
fn push_wait_line(out: &mut Vec<u8>, row: &WaitBound) -> Result<(), NoMemory>
    ensures { OnOk result (out.new.items ≡ out.old.items ++ spec.wait_line row.now) }
{
    push_bytes(out, b"wait")?;
    push_spaced(out, u32::from(row.priority.0))?;
    push_wait(out, row.longest)
}

/// Appends the lines of handlers.
fn push_handlers(out: &mut Vec<u8>, image: &Image, rows: &[HandlerBound]) -> Result<(), NoMemory>
    ensures { OnOk result (out.new.items ≡ out.old.items ++ flat_map (spec.handler_line image.now) rows.now) }
{
    for row in rows {
        push_handler(out, image, row)?;
    }
    Ok(())
}

/// Appends the lines of sections.
fn push_sections(out: &mut Vec<u8>, image: &Image, rows: &[SectionBound]) -> Result<(), NoMemory>
    ensures { OnOk result (out.new.items ≡ out.old.items ++ flat_map (spec.section_line image.now) rows.now) }
{
    for row in rows {
        push_section_line(out, image, row)?;
    }
    Ok(())
}

/// Appends the lines of priorities.
fn push_waits(out: &mut Vec<u8>, rows: &[WaitBound]) -> Result<(), NoMemory>
    ensures { OnOk result (out.new.items ≡ out.old.items ++ flat_map spec.wait_line rows.now) }
{
    for row in rows {
        push_wait_line(out, row)?;
    }
    Ok(())
}

/// The text of bounds: a line for `init`, for each handler, each section, each priority, and the stack.
pub fn bounds_text(alloc: Global, image: &Image, bounds: &Bounds) -> Result<Vec<u8>, NoMemory>
    ensures { IfOk result (λ out. out.items ≡ spec.bounds_text image.now bounds.now) }
{
    let mut out = Vec::new(alloc);
    push_bytes(&mut out, b"init")?;
    push_longest(&mut out, bounds.init)?;
    push_handlers(&mut out, image, &bounds.handlers)?;
    push_sections(&mut out, image, &bounds.sections)?;
    push_waits(&mut out, &bounds.waits)?;
    push_bytes(&mut out, b"stack")?;
    push_count(&mut out, bounds.stack as usize)?;
    push_bytes(&mut out, b"\n")?;
    Ok(out)
}
