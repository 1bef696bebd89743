// The lines of instructions and notes.

ghost use Rattle.std.specs.Prelude.{◌≡◌, ◌∷◌, ◌++◌, flat_map, OnOk, Some};
ghost use Rattle.rt_ids.specs.Naming.{section_name};
ghost use Rattle.rt_ids.specs.Naming as name;
ghost use Rattle.rt_lines.specs.Table.{spaced_text};
ghost use Rattle.rt_lines.specs.Numbers.{Is32Bits};
ghost use Rattle.rt_lines.specs.Operand.{HasLevel};
ghost use Rattle.rt_listing.specs.Words.{spaced_number, instr_words, note_words, noted_words};
ghost use Rattle.rt_listing.specs.Words as word;
ghost use Rattle.rt_listing.specs.Numbers.{IsShort, AreShort, AreWords, NamesLevel};
ghost use Rattle.rt_listing.specs.Numbers.{instr_numbers, section_numbers, note_numbers};

use crate::names::{body_name, irq_name, resource_name, task_name};
use itoa::Buffer;
use rt_code::{Instr, Note};
use rt_ids::{Irq, Names, NoMemory, Op, Section, TaskId, push_bytes, push_number};

/// Appends a space and a number.
pub fn push_spaced(out: &mut Vec<u8>, number: u32) -> Result<(), NoMemory>
    ensures text { OnOk result (out.new.items ≡ out.old.items ++ spaced_number number) }
    ensures short { IsShort number }
    ensures word { Is32Bits number }
{
    push_bytes(out, b" ")?;
    push_number(out, number)
}

/// Appends a space and a count.
pub fn push_count(out: &mut Vec<u8>, count: usize) -> Result<(), NoMemory>
    ensures { OnOk result (out.new.items ≡ out.old.items ++ spaced_number count) }
{
    let mut buffer = Buffer::new();
    push_bytes(out, b" ")?;
    push_bytes(out, buffer.format(count).as_bytes())
}

/// The word of a binary operation.
pub fn op_word(op: Op) -> &'static [u8]
    ensures { result.now ≡ word.op_word op }
{
    match op {
        Op::Add => b"add",
        Op::Sub => b"sub",
        Op::Mul => b"mul",
        Op::Div => b"div",
        Op::Rem => b"rem",
        Op::And => b"and",
        Op::Or => b"or",
        Op::Xor => b"xor",
        Op::Shl => b"shl",
        Op::Shr => b"shr",
        Op::Eq => b"eq",
        Op::Ne => b"ne",
        Op::Lt => b"lt",
        Op::Le => b"le",
        Op::Gt => b"gt",
        Op::Ge => b"ge",
    }
}

/// Appends a space, a word and its operands.
fn push_operands(out: &mut Vec<u8>, word: &[u8], operands: &[u32]) -> Result<(), NoMemory>
    ensures text { OnOk result (out.new.items ≡ out.old.items ++ 32 ∷ word.now ++ flat_map spaced_number operands.now) }
    ensures short { AreShort operands.now }
    ensures words { AreWords operands.now }
{
    push_bytes(out, b" ")?;
    push_bytes(out, word)?;
    for operand in operands {
        push_spaced(out, *operand)?;
    }
    Ok(())
}

/// Appends an instruction.
pub fn push_instr(out: &mut Vec<u8>, instr: Instr, names: &Names) -> Result<(), NoMemory>
    ensures text { OnOk result (out.new.items ≡ out.old.items ++ spaced_text (instr_words names.now instr)) }
    ensures short { AreShort (instr_numbers instr) }
    ensures words { AreWords (instr_numbers instr) }
{
    match instr {
        Instr::Set(slot, value) => push_operands(out, b"set", &[slot, value]),
        Instr::Copy(to, from) => push_operands(out, b"copy", &[to, from]),
        Instr::Calc(op, to, a, b) => push_operands(out, op_word(op), &[to, a, b]),
        Instr::Load(to, cell) => push_operands(out, b"load", &[to, cell]),
        Instr::Store(cell, from) => push_operands(out, b"store", &[cell, from]),
        Instr::LoadAt(to, cell, index) => push_operands(out, b"loadat", &[to, cell, index]),
        Instr::StoreAt(cell, index, from) => push_operands(out, b"storeat", &[cell, index, from]),
        Instr::Jump(address) => push_operands(out, b"jump", &[address]),
        Instr::JumpZ(slot, address) => push_operands(out, b"jumpz", &[slot, address]),
        Instr::Emit(slot) => push_operands(out, b"emit", &[slot]),
        Instr::Post(irq) => push_with_irq(out, b"post", &[], irq, names),
        Instr::Clock(to) => push_operands(out, b"clock", &[to]),
        Instr::Alarm(instant, irq) => push_with_irq(out, b"alarm", &[instant], irq, names),
        Instr::NoAlarm => push_bytes(out, b" noalarm"),
        Instr::Raise(to, value) => push_operands(out, b"raise", &[to, value]),
        Instr::Restore(slot) => push_operands(out, b"restore", &[slot]),
        Instr::Mask(to) => push_operands(out, b"mask", &[to]),
        Instr::Unmask(slot) => push_operands(out, b"unmask", &[slot]),
        Instr::Mark => push_bytes(out, b" mark"),
        Instr::Serve => push_bytes(out, b" serve"),
        Instr::Wait => push_bytes(out, b" wait"),
        Instr::Call(row, slot) => push_operands(out, b"call", &[row, slot]),
        Instr::Back => push_bytes(out, b" back"),
        Instr::Ret => push_bytes(out, b" ret"),
    }
}

/// Appends a space, a word, its operands, and an interrupt.
fn push_with_irq(
    out: &mut Vec<u8>,
    word: &[u8],
    operands: &[u32],
    irq: Irq,
    names: &Names,
) -> Result<(), NoMemory>
    ensures text { OnOk result (out.new.items
        ≡ out.old.items ++ 32 ∷ word.now ++ flat_map spaced_number operands.now ++ 32 ∷ name.irq_name names.now irq) }
    ensures short { AreShort operands.now }
    ensures words { AreWords operands.now }
{
    push_operands(out, word, operands)?;
    push_bytes(out, b" ")?;
    push_bytes(out, irq_name(names, irq))
}

/// Appends what a section guards.
pub fn push_section(out: &mut Vec<u8>, section: Section, names: &Names) -> Result<(), NoMemory>
    ensures text { OnOk result (out.new.items ≡ out.old.items ++ section_name names.now section) }
    ensures short { AreShort (section_numbers section) }
    ensures level { HasLevel section }
{
    match section {
        Section::Res(resource) => push_bytes(out, resource_name(names, resource)),
        Section::Free(task) => push_task(out, b"free.", task, names),
        Section::Ready(level) => {
            push_bytes(out, b"ready.")?;
            push_number(out, u32::from(level.0))
        }
        Section::Timer => push_bytes(out, b"timer.0"),
    }
}

/// Appends bytes and the name of a task.
fn push_task(out: &mut Vec<u8>, word: &[u8], task: TaskId, names: &Names) -> Result<(), NoMemory>
    ensures { OnOk result (out.new.items ≡ out.old.items ++ word.now ++ name.task_name names.now task) }
{
    push_bytes(out, word)?;
    push_bytes(out, task_name(names, task))
}

/// Appends bytes, the name of a task and a slot.
fn push_slot(
    out: &mut Vec<u8>,
    word: &[u8],
    task: TaskId,
    slot: u32,
    names: &Names,
) -> Result<(), NoMemory>
    ensures text { OnOk result (out.new.items
        ≡ out.old.items ++ word.now ++ name.task_name names.now task ++ spaced_number slot) }
    ensures short { IsShort slot }
{
    push_task(out, word, task, names)?;
    push_spaced(out, slot)
}

/// Appends the words of a note.
fn push_note_words(out: &mut Vec<u8>, note: Note, names: &Names) -> Result<(), NoMemory>
    ensures text { OnOk result (out.new.items ≡ out.old.items ++ spaced_text (note_words names.now note)) }
    ensures short { AreShort (note_numbers (Some note)) }
    ensures level { NamesLevel (Some note) }
{
    match note {
        Note::Enter(section) => {
            push_bytes(out, b" enter ")?;
            push_section(out, section, names)
        }
        Note::Leave(section) => {
            push_bytes(out, b" leave ")?;
            push_section(out, section, names)
        }
        Note::Placed(task) => push_task(out, b" ok ", task, names),
        Note::Full(task) => push_task(out, b" full ", task, names),
        Note::Ready(task) => push_task(out, b" ready ", task, names),
        Note::Start(task, slot) => push_slot(out, b" start ", task, slot, names),
        Note::Free(task) => push_task(out, b" free ", task, names),
        Note::Arm(task, slot) => push_slot(out, b" arm ", task, slot, names),
        Note::Fire(task) => push_task(out, b" fire ", task, names),
        Note::Cancel(task, slot) => push_slot(out, b" cancel ", task, slot, names),
        Note::Move(task, slot, from) => {
            push_slot(out, b" move ", task, slot, names)?;
            push_spaced(out, from)
        }
        Note::End(body) => {
            push_bytes(out, b" end ")?;
            push_bytes(out, body_name(names, body))
        }
    }
}

/// Appends an instruction's note, where it has one.
pub fn push_note(out: &mut Vec<u8>, note: Option<Note>, names: &Names) -> Result<(), NoMemory>
    ensures text { OnOk result (out.new.items ≡ out.old.items ++ spaced_text (noted_words names.now note)) }
    ensures short { AreShort (note_numbers note) }
    ensures level { NamesLevel note }
{
    match note {
        Some(note) => {
            push_bytes(out, b" ;")?;
            push_note_words(out, note, names)
        }
        None => Ok(()),
    }
}
