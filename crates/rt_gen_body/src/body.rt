// Generates the code of a whole body.

ghost use Rattle.std.specs.Prelude.{◌≡◌, ◌+◌, ◌^◌, ◌≤◌, ◌∷◌, [], map, length, take, drop, slice_get};
ghost use Rattle.rt_ids.specs.Lists.{is_some_and};
ghost use Rattle.rt_app.specs.Level.{is_software};
ghost use Rattle.std.specs.Prelude.{IfOk, OnOk, OnErr};
ghost use Rattle.std.specs.List.{AllByRecursion};
ghost use Rattle.rt_app.specs.Accepted.{IsAccepted};
ghost use Rattle.rt_app.specs.Bodies.{body_at, member_at};
ghost use Rattle.rt_app.specs.BodyCost.{size_measure, cost_of};
ghost use Rattle.rt_app.specs.Limits.{KeepsBodyLimits};
ghost use Rattle.rt_app.specs.Names.{names_of};
ghost use Rattle.rt_app.specs.Plan.{IsPlan};
ghost use Rattle.rt_app.specs.View.{app_of, body_of};
ghost use Rattle.rt_frames.specs.Inside.Reached.{IsBlockReached};
ghost use Rattle.rt_gen_queue.specs.Line.{IsNameable};
ghost use Rattle.rt_gen_queue.specs.Guards.{guard_of_ceiling};
ghost use Rattle.rt_gen_body.specs.Bodies.{IsBodyOf, BodyStands};
ghost use Rattle.rt_gen_body.specs.Form.{end_line, HasForm};
ghost use Rattle.rt_gen_body.specs.BodyCode.{guards_of, body_blocks, body_code};
ghost use Rattle.rt_gen_queue.specs.Making.{next_address, Appends};
ghost use Rattle.rt_gen_body.specs.Inside.Generating.{slots_code};

use crate::generator::Generator;
use rt_app::{App, Body, Plan};
use rt_code::{Instr, Line, Note};
use rt_frames::{ArmedRows, Slots};
use rt_gen_queue::{Guard, Lines, next_entry};
use rt_ids::limits::ARGUMENTS;
use rt_ids::{BodyId, NoMemory, TaskId};
use std::alloc::Global;

/// How the sections of each resource mask, by their ceilings.
fn guards(alloc: Global, bits: u8, ceilings: &[u8]) -> Result<Vec<Guard>, NoMemory>
    requires few_bits { 3 ≤ bits }
    requires many_bits { bits ≤ 7 }
    requires greatest { AllByRecursion (λ c. c ≤ 2 ^ bits) ceilings.now }
    ensures { IfOk result (λ guards. guards.items ≡ map (guard_of_ceiling bits) ceilings.now) }
{
    let mut guards = Vec::new(alloc);
    for ceiling in ceilings {
        guards.push(Guard::of(bits, *ceiling))?;
    }
    Ok(guards)
}

/// What all bodies are generated with: the plan, the messages that may be armed, and how the sections of each resource
/// mask.
#[derive(Clone, Copy)]
struct BodyContext<'a> {
    plan: &'a Plan<'a>,
    rows: &'a ArmedRows<'a>,
    guards: &'a [Guard],
}

/// The preemption threshold of `init`, which holds off all.
fn all_priorities(bits: u8) -> u8
    requires { bits ≤ 7 }
    ensures { result ≡ 2 ^ bits }
{
    1 << bits
}

/// The lines of a body's blocks, which runs at a preemption threshold and with so many arguments.
fn blocks(
    alloc: Global,
    source: &BodyContext<'_>,
    threshold: u8,
    args: u8,
    body: &Body,
    lines: &mut Lines,
) -> Result<(), NoMemory>
    requires accepted { IsAccepted (app_of source.now.plan.now.app.now) }
    requires planned { IsPlan source.now.plan.now }
    requires rows { source.now.rows.now ≡ source.now.plan.now.app.now }
    requires few { args ≤ ARGUMENTS }
    requires limits { KeepsBodyLimits (body_of body.now) }
    requires guards { source.now.guards.now ≡ guards_of (app_of source.now.plan.now.app.now) }
    requires reached { IsBlockReached (app_of source.now.plan.now.app.now) (body_of body.now).block }
    ensures { OnOk result (Appends lines.old lines.new
        (slots_code (app_of source.now.plan.now.app.now) source.now.guards.now args threshold
        (body_of body.now) (next_address lines.old))) }
{
    let plan = source.plan;
    let slots = Slots::of(args, body);
    let locals = plan.app.shared.len() as u16;
    let generator = Generator {
        alloc,
        plan,
        rows: source.rows,
        guards: source.guards,
        locals,
        expressions: slots.expressions,
        spawns: slots.spawns,
    };
    generator.block(threshold, slots.masks, &body.block, lines)
}

/// The lines of a body's blocks, none where it is not declared.
fn append_blocks(
    alloc: Global,
    plan: &Plan<'_>,
    rows: &ArmedRows<'_>,
    guards: &[Guard],
    id: BodyId,
    lines: &mut Lines,
) -> Result<(), NoMemory>
    requires accepted { IsAccepted (app_of plan.now.app.now) }
    requires planned { IsPlan plan.now }
    requires rows { rows.now ≡ plan.now.app.now }
    requires guards { guards.now ≡ guards_of (app_of plan.now.app.now) }
    ensures { OnOk result (Appends lines.old lines.new
        (body_blocks (app_of plan.now.app.now) (member_at (app_of plan.now.app.now) id) (next_address lines.old))) }
{
    let app = plan.app;
    let source = BodyContext { plan, rows, guards };
    match id {
        BodyId::Init => match &app.init {
            Some(body) => blocks(alloc, &source, all_priorities(app.bits), 0, body, lines),
            None => Ok(()),
        },
        BodyId::Idle => match &app.idle {
            Some(body) => blocks(alloc, &source, 0, 0, body, lines),
            None => Ok(()),
        },
        BodyId::Task(number) => match app.task(number) {
            Some(task) => {
                let (threshold, args) = (task.priority, task.args);
                blocks(alloc, &source, threshold, args, &task.body, lines)
            }
            None => Ok(()),
        },
    }
}

/// Whether dispatchers call the task.
pub(crate) fn is_called(app: &App, number: TaskId) -> bool
    ensures { result ≡ is_some_and is_software (slice_get (app_of app.now).tasks number) }
{
    match app.task(number) {
        Some(task) => task.is_software(),
        None => false,
    }
}

/// The last line of a body that begins at an address.
fn end(app: &App, id: &BodyId, entry: u32, lines: &mut Lines) -> Result<(), NoMemory>
    ensures { OnOk result (Appends lines.old lines.new (end_line (app_of app.now) id.now entry ∷ [])) }
{
    match id {
        BodyId::Init => lines.push_noted(Instr::Serve, Note::End(*id)),
        BodyId::Idle => lines.push_noted(Instr::Jump(entry), Note::End(*id)),
        BodyId::Task(number) => {
            if is_called(app, *number) {
                lines.push_noted(Instr::Back, Note::End(*id))
            } else {
                lines.push(Instr::Ret)
            }
        }
    }
}

/// All lines of a body.
fn generate(
    alloc: Global,
    plan: &Plan<'_>,
    rows: &ArmedRows<'_>,
    id: BodyId,
    lines: &mut Lines,
) -> Result<(), NoMemory>
    requires accepted { IsAccepted (app_of plan.now.app.now) }
    requires planned { IsPlan plan.now }
    requires rows { rows.now ≡ plan.now.app.now }
    ensures { OnOk result (Appends lines.old lines.new
        (body_code (app_of plan.now.app.now) id (next_address lines.old))) }
{
    let guards = guards(alloc, plan.app.bits, &plan.ceil.shared)?;
    let entry = lines.next_address()?;
    append_blocks(alloc, plan, rows, &guards, id, lines)?;
    end(plan.app, &id, entry, lines)
}

/// Appends the code of a body of an application to code, and answers the address where it begins. Its lines are
/// determined by the application and that address; they name only what the application declares, and there are no more
/// of them than the rule on sizes counts for the body: one for `init` or `idle` where it is not declared. The last one
/// is the body's end. The code is correct there, whatever is appended later: `init` leads to what comes after it,
/// `idle` back to its first instruction, a task that is bound to an interrupt returns, and one that dispatchers call
/// goes back. An error leaves the code as it was.
pub fn gen_body(
    alloc: Global,
    plan: &Plan<'_>,
    rows: &ArmedRows<'_>,
    id: BodyId,
    code: &mut Vec<Line>,
) -> Result<u32, NoMemory>
    requires accepted { IsAccepted (app_of plan.now.app.now) }
    requires planned { IsPlan plan.now }
    requires rows { rows.now ≡ plan.now.app.now }
    requires of_app { IsBodyOf (app_of plan.now.app.now) id }
    ensures entry { IfOk result (λ entry. entry ≡ length code.old.items) }
    ensures kept { IfOk result (λ entry. take entry code.new.items ≡ code.old.items) }
    ensures lines { IfOk result (λ entry. drop entry code.new.items ≡ body_code (app_of plan.now.app.now) id entry) }
    ensures names { IfOk result (λ entry. AllByRecursion (IsNameable (names_of (app_of plan.now.app.now)))
        (drop entry code.new.items)) }
    ensures form { IfOk result (λ entry. HasForm (app_of plan.now.app.now) id entry (drop entry code.new.items)) }
    ensures size { OnOk result (length code.new.items ≤ length code.old.items
        + cost_of (size_measure (app_of plan.now.app.now)) (body_at (app_of plan.now.app.now) id)) }
    ensures stands { IfOk result (λ entry. BodyStands (app_of plan.now.app.now) id code.new.items entry) }
    ensures left { OnErr result (code.new.items ≡ code.old.items) }
{
    let entry = next_entry(code)?;
    let mut lines = Lines::new(alloc, entry);
    generate(alloc, plan, rows, id, &mut lines)?;
    code.extend_from_slice(lines.as_slice())?;
    Ok(entry)
}
