// Writes the lines of response times.

ghost use Rattle.std.specs.Prelude.{◌≡◌, [], ◌∷◌, ◌++◌, IfOk, OnOk};
ghost use Rattle.rt_lines.specs.Table.{spaced_text};
ghost use Rattle.rt_image_times.specs.Report as spec;

use crate::response::{Response, TimeBound};
use rt_ids::{NoMemory, push_bytes};
use rt_listing::push_spaced;
use std::alloc::Global;

/// Appends a response time, or `-` and why there is none, and the end of the line.
fn push_response(out: &mut Vec<u8>, response: Response) -> Result<(), NoMemory>
    ensures { OnOk result (out.new.items ≡ out.old.items ++ spaced_text (spec.response_words response) ++ 10 ∷ []) }
{
    match response {
        Response::Steps(steps) => push_spaced(out, steps)?,
        Response::Loop(address) => {
            push_bytes(out, b" -")?;
            push_spaced(out, address)?;
        }
        Response::Over => push_bytes(out, b" -")?,
    }
    push_bytes(out, b"\n")
}

/// Appends the line of a priority.
fn push_time(out: &mut Vec<u8>, row: &TimeBound) -> Result<(), NoMemory>
    ensures { OnOk result (out.new.items ≡ out.old.items ++ spec.time_line row.now) }
{
    push_bytes(out, b"time")?;
    push_spaced(out, u32::from(row.priority.0))?;
    push_response(out, row.response)
}

/// The response times as text: a line for each priority.
pub fn times_text(alloc: Global, rows: &[TimeBound]) -> Result<Vec<u8>, NoMemory>
    ensures { IfOk result (λ out. out.items ≡ spec.times_text rows.now) }
{
    let mut out = Vec::new(alloc);
    for row in rows {
        push_time(&mut out, row)?;
    }
    Ok(out)
}
