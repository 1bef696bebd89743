// Writes the lines of `times`.

ghost use Rattle.std.specs.Prelude.{◌≡◌, ◌++◌, IfOk, OnOk};
ghost use Rattle.rt_rta.specs.Report as spec;

use crate::response::ResponseTime;
use rt_ids::{NoMemory, push_bytes, push_number};
use std::alloc::Global;

/// The response times as text: a line `time LEVEL STEPS` for each priority, with `-` where it has none.
pub fn report(alloc: Global, rows: &[ResponseTime]) -> Result<Vec<u8>, NoMemory>
    ensures { IfOk result (λ text. text.items ≡ spec.report rows.now) }
{
    let mut out = Vec::new(alloc);
    for row in rows {
        push_line(&mut out, *row)?;
    }
    Ok(out)
}

/// Appends the line of a priority.
#[tactic(auto, unfolding(crate::specs::Report::line))]
fn push_line(out: &mut Vec<u8>, row: ResponseTime) -> Result<(), NoMemory>
    ensures { OnOk result (out.new.items ≡ out.old.items ++ spec.line row) }
{
    push_bytes(out, b"time ")?;
    push_number(out, u32::from(row.priority))?;
    push_bytes(out, b" ")?;
    push_steps(out, row.steps)?;
    push_bytes(out, b"\n")
}

/// Appends the core steps of a priority, or `-`.
fn push_steps(out: &mut Vec<u8>, steps: Option<u32>) -> Result<(), NoMemory>
    ensures { OnOk result (out.new.items ≡ out.old.items ++ spec.steps_text steps) }
{
    match steps {
        None => push_bytes(out, b"-"),
        Some(steps) => push_number(out, steps),
    }
}
