// The lines of `cycles`.

ghost use Rattle.std.specs.Prelude.{◌≡◌, ◌++◌, ◌∷◌, ◌<◌, ◌^◌, ◌*◌, [], codes, flat_map, max, Some, IfOk, OnOk};
ghost use Rattle.rt_app.specs.View.{app_of};
ghost use Rattle.rt_ids.specs.Lists.{or_zero};
ghost use Rattle.rt_listing.specs.Words.{op_word as op_word_of};
ghost use Rattle.rt_cycles.specs.Report as spec;
ghost use Rattle.rt_report.specs.Report.{body_name as name_of};

use crate::kind::{OPS, word_of};
use crate::line::push_line;
use crate::sums::{instr_cycles, step_cycles, take_cycles, tick_cycles};
use itoa::Buffer;
use rt_app::{App, BodyBound, Bounds, Wait};
use rt_code::Image;
use rt_ids::{BodyId, NoMemory, Op};
use rt_listing::op_word;
use std::alloc::Global;

/// The word of a line of cycles.
const CYCLES: &[u8] = b"cycles";

/// What an image of an application costs on a Cortex-M4, in cycles, a line each: `cycles KIND N` for each kind of its
/// instructions, for `take`, `tick` and `step`; and `cost BODY N` and `wait PRIORITY N` of these bounds, each step at
/// most.
pub fn report(alloc: Global, app: &App, image: &Image, bounds: &Bounds) -> Result<Vec<u8>, NoMemory>
    ensures { IfOk result (λ text. text.items ≡ spec.report image.now (app_of app.now) bounds.now) }
{
    let step = step_cycles(alloc, image)?;
    let mut out = Vec::new(alloc);
    push_kinds(alloc, &mut out, image)?;
    push_line(&mut out, CYCLES, b"take", take_cycles(alloc, image)?)?;
    push_line(&mut out, CYCLES, b"tick", tick_cycles(alloc, image)?)?;
    push_line(&mut out, CYCLES, b"step", step)?;
    push_costs(&mut out, app, step, &bounds.bodies)?;
    push_waits(&mut out, step, &bounds.waits)?;
    Ok(out)
}

/// Appends the lines of the kinds of instructions.
fn push_kinds(alloc: Global, out: &mut Vec<u8>, image: &Image) -> Result<(), NoMemory>
    ensures { OnOk result (out.new.items ≡ out.old.items ++ flat_map (spec.kind_line image.now) spec.kinds) }
{
    push_word_kinds(alloc, out, image)?;
    push_way_kinds(alloc, out, image)?;
    push_outer_kinds(alloc, out, image)?;
    push_mask_kinds(alloc, out, image)?;
    push_operations(alloc, out, image, &OPS)
}

/// Appends the lines of instructions that move words.
fn push_word_kinds(alloc: Global, out: &mut Vec<u8>, image: &Image) -> Result<(), NoMemory>
    ensures { OnOk result (out.new.items ≡ out.old.items ++ flat_map (spec.kind_line image.now)
        (codes "set" ∷ codes "copy" ∷ codes "load" ∷ codes "store" ∷ codes "loadat" ∷ codes "storeat" ∷ [])) }
{
    push_kind(alloc, out, image, b"set")?;
    push_kind(alloc, out, image, b"copy")?;
    push_kind(alloc, out, image, b"load")?;
    push_kind(alloc, out, image, b"store")?;
    push_kind(alloc, out, image, b"loadat")?;
    push_kind(alloc, out, image, b"storeat")
}

/// Appends the lines of instructions that go elsewhere in the code.
fn push_way_kinds(alloc: Global, out: &mut Vec<u8>, image: &Image) -> Result<(), NoMemory>
    ensures { OnOk result (out.new.items ≡ out.old.items ++ flat_map (spec.kind_line image.now)
        (codes "jump" ∷ codes "jumpz" ∷ codes "call" ∷ codes "back" ∷ codes "ret" ∷ [])) }
{
    push_kind(alloc, out, image, b"jump")?;
    push_kind(alloc, out, image, b"jumpz")?;
    push_kind(alloc, out, image, b"call")?;
    push_kind(alloc, out, image, b"back")?;
    push_kind(alloc, out, image, b"ret")
}

/// Appends the lines of instructions that tell the outside something, ask the clock, or raise a priority.
fn push_outer_kinds(alloc: Global, out: &mut Vec<u8>, image: &Image) -> Result<(), NoMemory>
    ensures { OnOk result (out.new.items ≡ out.old.items ++ flat_map (spec.kind_line image.now)
        (codes "emit" ∷ codes "post" ∷ codes "clock" ∷ codes "alarm" ∷ codes "noalarm" ∷ codes "raise" ∷ [])) }
{
    push_kind(alloc, out, image, b"emit")?;
    push_kind(alloc, out, image, b"post")?;
    push_kind(alloc, out, image, b"clock")?;
    push_kind(alloc, out, image, b"alarm")?;
    push_kind(alloc, out, image, b"noalarm")?;
    push_kind(alloc, out, image, b"raise")
}

/// Appends the lines of instructions on masks, and of the last ones.
fn push_mask_kinds(alloc: Global, out: &mut Vec<u8>, image: &Image) -> Result<(), NoMemory>
    ensures { OnOk result (out.new.items ≡ out.old.items ++ flat_map (spec.kind_line image.now)
        (codes "restore" ∷ codes "mask" ∷ codes "unmask" ∷ codes "mark" ∷ codes "serve" ∷ codes "wait" ∷ [])) }
{
    push_kind(alloc, out, image, b"restore")?;
    push_kind(alloc, out, image, b"mask")?;
    push_kind(alloc, out, image, b"unmask")?;
    push_kind(alloc, out, image, b"mark")?;
    push_kind(alloc, out, image, b"serve")?;
    push_kind(alloc, out, image, b"wait")
}

/// Appends the lines of operations.
fn push_operations(
    alloc: Global,
    out: &mut Vec<u8>,
    image: &Image,
    ops: &[Op],
) -> Result<(), NoMemory>
    ensures { OnOk result (out.new.items
        ≡ out.old.items ++ flat_map (λ o. spec.kind_line image.now (op_word_of o)) ops.now) }
{
    for op in ops {
        push_operation(alloc, out, image, *op)?;
    }
    Ok(())
}

/// Appends the line of an operation.
fn push_operation(alloc: Global, out: &mut Vec<u8>, image: &Image, op: Op) -> Result<(), NoMemory>
    ensures { OnOk result (out.new.items ≡ out.old.items ++ spec.kind_line image.now (op_word_of op)) }
{
    push_kind(alloc, out, image, op_word(op))
}

/// Appends the line of a kind of instructions, where the image has it.
fn push_kind(alloc: Global, out: &mut Vec<u8>, image: &Image, kind: &[u8]) -> Result<(), NoMemory>
    ensures { OnOk result (out.new.items ≡ out.old.items ++ spec.kind_line image.now kind.now) }
{
    match worst(alloc, image, kind)? {
        Some(number) => push_line(out, CYCLES, kind, number),
        None => Ok(()),
    }
}

/// The cycles of the instructions of a kind, at most; none where the image has none.
fn worst(alloc: Global, image: &Image, kind: &[u8]) -> Result<Option<u128>, NoMemory>
    ensures { IfOk result (λ found. found ≡ spec.most (spec.kind_cycles image.now kind.now 0 image.now.code)) }
{
    let mut found = None;
    for (address, line) in image.code.iter().enumerate() {
        if word_of(line.0) == kind {
            found = later(found, instr_cycles(alloc, image, address, line.0)?);
        }
    }
    Ok(found)
}

/// The greater one of what was found so far and one more.
fn later(found: Option<u128>, more: u128) -> Option<u128>
    ensures { result ≡ Some (max more (or_zero found)) }
{
    Some(found.unwrap_or(0).max(more))
}

/// The name of a body.
fn body_name(app: &App, body: BodyId) -> &[u8]
    ensures { result.now ≡ name_of (app_of app.now).tasks body }
{
    match body {
        BodyId::Init => b"init",
        BodyId::Idle => b"idle",
        BodyId::Task(number) => match app.task(number) {
            Some(task) => task.name.bytes(),
            None => b"",
        },
    }
}

/// The cycles of so many steps.
fn times(steps: u32, step: u128) -> u128
    requires { step < 2 ^ 69 }
    ensures { result ≡ steps * step }
{
    u128::from(steps) * step
}

/// Appends the costs of bodies, with so many cycles for each step.
fn push_costs(
    out: &mut Vec<u8>,
    app: &App,
    step: u128,
    bodies: &[BodyBound],
) -> Result<(), NoMemory>
    requires { step < 2 ^ 69 }
    ensures { OnOk result (out.new.items
        ≡ out.old.items ++ flat_map (spec.cost_line step (app_of app.now).tasks) bodies.now) }
{
    for bound in bodies {
        let name = body_name(app, bound.body);
        push_line(out, b"cost", name, times(bound.cost, step))?;
    }
    Ok(())
}

/// Appends the waiting bounds, with so many cycles for each step.
fn push_waits(out: &mut Vec<u8>, step: u128, waits: &[Wait]) -> Result<(), NoMemory>
    requires { step < 2 ^ 69 }
    ensures { OnOk result (out.new.items ≡ out.old.items ++ flat_map (spec.wait_line step) waits.now) }
{
    for wait in waits {
        let mut buffer = Buffer::new();
        let priority = buffer.format(wait.priority).as_bytes();
        push_line(out, b"wait", priority, times(wait.steps, step))?;
    }
    Ok(())
}
