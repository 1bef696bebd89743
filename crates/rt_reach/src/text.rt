// Writes the lines of the script.

ghost use Rattle.std.specs.Prelude.{◌≡◌, ◌++◌, flat_map, OnOk};
ghost use Rattle.rt_lines.specs.Parts.{line_with_feed};
ghost use Rattle.rt_ids.specs.Naming as naming;
ghost use Rattle.rt_reach.specs.Spelled as spec;

use rt_ids::{Irq, Names, NoMemory, push_bytes, push_number};

/// The name of the first declared interrupt of this number.
fn irq_name(names: &Names, irq: Irq) -> &[u8]
    ensures { result.now ≡ naming.irq_name names.now irq }
{
    names.irq_name(irq).unwrap_or(b"")
}

/// Appends the line that requests an interrupt.
fn push_pend(text: &mut Vec<u8>, names: &Names, irq: Irq) -> Result<(), NoMemory>
    ensures { OnOk result (text.new.items ≡ text.old.items ++ line_with_feed (spec.pend_line names.now irq)) }
{
    push_bytes(text, b"pend ")?;
    push_bytes(text, irq_name(names, irq))?;
    push_bytes(text, b"\n")
}

/// Appends the line of so many core steps.
fn push_steps(text: &mut Vec<u8>, steps: u32) -> Result<(), NoMemory>
    ensures { OnOk result (text.new.items ≡ text.old.items ++ line_with_feed (spec.step_line steps)) }
{
    push_bytes(text, b"step ")?;
    push_number(text, steps)?;
    push_bytes(text, b"\n")
}

/// Appends the two lines of a priority: an interrupt is requested, and so many core steps follow.
fn push_priority(text: &mut Vec<u8>, names: &Names, steps: u32, irq: Irq) -> Result<(), NoMemory>
    ensures { OnOk result (text.new.items ≡ text.old.items ++ spec.priority_text names.now steps irq) }
{
    push_pend(text, names, irq)?;
    push_steps(text, steps)
}

/// Appends the lines of the priorities above the first, each with one core step.
fn push_others(text: &mut Vec<u8>, names: &Names, irqs: &[Irq]) -> Result<(), NoMemory>
    ensures { OnOk result
        (text.new.items ≡ text.old.items ++ flat_map (spec.priority_text names.now 1) irqs.now) }
{
    for irq in irqs {
        push_priority(text, names, 1, *irq)?;
    }
    Ok(())
}

/// Appends the lines of all priorities, with so many core steps behind the first request.
pub(crate) fn push_script(
    text: &mut Vec<u8>,
    names: &Names,
    steps: u32,
    first: Irq,
    others: &[Irq],
) -> Result<(), NoMemory>
    ensures { OnOk result (text.new.items ≡ text.old.items
        ++ (spec.priority_text names.now steps first ++ flat_map (spec.priority_text names.now 1) others.now)) }
{
    push_priority(text, names, steps, first)?;
    push_others(text, names, others)
}
