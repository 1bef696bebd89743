// Writes items as lines.

ghost use Rattle.std.specs.Prelude.{◌≡◌, ◌≤◌, ◌<◌, ◌+◌, ◌∷◌, ◌++◌, length, map, take, decimal};
ghost use Rattle.rt_ids.specs.Naming.{irq_name, task_name, section_name, body_name, IsDeclared, IsTask, IsBody};
ghost use Rattle.rt_lines.specs.Operand.{IsSection};
ghost use Rattle.rt_lines.specs.Table.{spaced_text};
ghost use Rattle.rt_trace.specs.Lined.{HasLine, HasOperands};
ghost use Rattle.rt_trace.specs.Text as spec;
ghost use Rattle.rt_trace.specs.Words.{first};

use crate::buffer::LINE_BYTES;
use crate::item::{Item, What};
use crate::names::{irq_name, resource_name, task_name};
use arrayvec::ArrayVec;
use itoa::write_digits;
use rt_ids::{BodyId, Irq, Names, Section, TaskId};

/// The line of an item, with its line feed. It is never longer than `LINE_BYTES` bytes.
pub fn line(item: &Item, names: &Names) -> ArrayVec<u8, 160>
    requires { HasLine names.now item.now }
    ensures { result.items ≡ spec.text names.now item.now }
{
    let mut bytes = [0; LINE_BYTES];
    let end = put_line(&mut bytes, 0, item, names);
    let mut line = ArrayVec::new();
    let _all = line.try_extend_from_slice(&bytes[..end]);
    line
}

// Each function below writes from an index of a text on, and says where that ends: what stands in front of the index
// stays, and behind it stands what was written.

/// Writes the line of an item, with its line feed.
pub(crate) fn put_line(out: &mut [u8], at: usize, item: &Item, names: &Names) -> usize
    requires line { HasLine names.now item.now }
    requires room { at + LINE_BYTES ≤ length out.old }
    ensures written { take result out.new ≡ take at out.old ++ spec.text names.now item.now }
    ensures end { result ≤ at + LINE_BYTES }
{
    let at = put_number(out, at, item.step as u32);
    let at = put_first(out, at, &item.what);
    let at = put_operands(out, at, &item.what, names);
    put(out, at, b"\n")
}

/// Writes the last line of a trace, the number of its core steps.
pub(crate) fn put_total(out: &mut [u8], at: usize, total: u32) -> usize
    requires { at + LINE_BYTES ≤ length out.old }
    ensures written { take result out.new ≡ take at out.old ++ spec.total_text total }
    ensures end { result ≤ at + LINE_BYTES }
{
    let at = put(out, at, b"total ");
    let at = put_number(out, at, total);
    put(out, at, b"\n")
}

/// Writes bytes.
#[inline(always)]
fn put(out: &mut [u8], at: usize, bytes: &[u8]) -> usize
    requires { at + length bytes.now ≤ length out.old }
    ensures written { take result out.new ≡ take at out.old ++ bytes.now }
    ensures end { result ≡ at + length bytes.now }
{
    let end = at + bytes.len();
    out[at..end].copy_from_slice(bytes);
    end
}

/// Writes a number in decimal.
fn put_number(out: &mut [u8], at: usize, number: u32) -> usize
    requires { at + 10 ≤ length out.old }
    ensures written { take result out.new ≡ take at out.old ++ decimal number }
    ensures end { result ≤ at + 10 }
{
    let end = at + digit_count(number);
    let _start = write_digits(u64::from(number), out, end);
    end
}

/// How many digits a number has in decimal.
fn digit_count(number: u32) -> usize
    ensures count { result ≡ length (decimal number) }
    ensures few { result ≤ 10 }
{
    match number {
        0..=9 => 1,
        10..=99 => 2,
        100..=999 => 3,
        1_000..=9_999 => 4,
        10_000..=99_999 => 5,
        100_000..=999_999 => 6,
        1_000_000..=9_999_999 => 7,
        10_000_000..=99_999_999 => 8,
        100_000_000..=999_999_999 => 9,
        _ => 10,
    }
}

/// Writes a space and a word.
#[inline(always)]
fn put_word(out: &mut [u8], at: usize, word: &[u8]) -> usize
    requires { at + length word.now < length out.old }
    ensures written { take result out.new ≡ take at out.old ++ 32 ∷ word.now }
    ensures end { result ≡ at + length word.now + 1 }
{
    out[at] = b' ';
    put(out, at + 1, word)
}

/// Writes a space and the word that stands behind the step number.
#[inline(always)]
fn put_first(out: &mut [u8], at: usize, what: &What) -> usize
    requires { at + 7 ≤ length out.old }
    ensures written { take result out.new ≡ take at out.old ++ 32 ∷ first what.now }
    ensures end { result ≤ at + 7 }
{
    match what {
        What::Pend(_) => put(out, at, b" pend"),
        What::Tick => put(out, at, b" tick"),
        What::Alarm => put(out, at, b" alarm"),
        What::AlarmSet => put(out, at, b" set"),
        What::Take(_, _) => put(out, at, b" take"),
        What::Ret(_) => put(out, at, b" ret"),
        What::Enter(_) => put(out, at, b" enter"),
        What::Leave(_, _) => put(out, at, b" leave"),
        What::Emit(_) => put(out, at, b" emit"),
        What::Placed(_) => put(out, at, b" ok"),
        What::Full(_) => put(out, at, b" full"),
        What::Ready(_) => put(out, at, b" ready"),
        What::Start(_, _) => put(out, at, b" start"),
        What::Free(_) => put(out, at, b" free"),
        What::Post(_) => put(out, at, b" post"),
        What::Clock(_) => put(out, at, b" clock"),
        What::Arm(_, _) => put(out, at, b" arm"),
        What::Fire(_) => put(out, at, b" fire"),
        What::Cancel(_, _) => put(out, at, b" cancel"),
        What::Move(_, _, _) => put(out, at, b" move"),
        What::End(_) => put(out, at, b" end"),
        What::Trap(_) => put(out, at, b" trap"),
    }
}

/// Writes a space and a number.
fn put_value(out: &mut [u8], at: usize, value: u32) -> usize
    requires { at + 11 ≤ length out.old }
    ensures written { take result out.new ≡ take at out.old ++ 32 ∷ decimal value }
    ensures end { result ≤ at + 11 }
{
    out[at] = b' ';
    put_number(out, at + 1, value)
}

/// Writes a space and the name of an interrupt.
fn put_irq(out: &mut [u8], at: usize, irq: Irq, names: &Names) -> usize
    requires declared { IsDeclared names.now irq }
    requires room { at + 33 ≤ length out.old }
    ensures written { take result out.new ≡ take at out.old ++ 32 ∷ irq_name names.now irq }
    ensures end { result ≤ at + 33 }
{
    put_word(out, at, irq_name(names, irq))
}

/// Writes a space and the name of a task.
fn put_task(out: &mut [u8], at: usize, task: TaskId, names: &Names) -> usize
    requires declared { IsTask names.now task }
    requires room { at + 33 ≤ length out.old }
    ensures written { take result out.new ≡ take at out.old ++ 32 ∷ task_name names.now task }
    ensures end { result ≤ at + 33 }
{
    put_word(out, at, task_name(names, task))
}

/// Writes a space and the name of a section.
fn put_section(out: &mut [u8], at: usize, section: Section, names: &Names) -> usize
    requires declared { IsSection names.now section }
    requires room { at + 38 ≤ length out.old }
    ensures written { take result out.new ≡ take at out.old ++ 32 ∷ section_name names.now section }
    ensures end { result ≤ at + 38 }
{
    match section {
        Section::Res(resource) => put_word(out, at, resource_name(names, resource)),
        Section::Free(task) => {
            let at = put(out, at, b" free.");
            put(out, at, task_name(names, task))
        }
        Section::Ready(level) => {
            let at = put(out, at, b" ready.");
            put_number(out, at, u32::from(level.0))
        }
        Section::Timer => put(out, at, b" timer.0"),
    }
}

/// Writes a space and the name of a body.
fn put_body(out: &mut [u8], at: usize, body: BodyId, names: &Names) -> usize
    requires declared { IsBody names.now body }
    requires room { at + 33 ≤ length out.old }
    ensures written { take result out.new ≡ take at out.old ++ 32 ∷ body_name names.now body }
    ensures end { result ≤ at + 33 }
{
    match body {
        BodyId::Init => put(out, at, b" init"),
        BodyId::Idle => put(out, at, b" idle"),
        BodyId::Task(task) => put_task(out, at, task, names),
    }
}

/// Writes at most four values, with a space in front of each.
fn put_values(out: &mut [u8], at: usize, values: &[u32]) -> usize
    requires few { length values.now ≤ 4 }
    requires room { at + 44 ≤ length out.old }
    ensures written { take result out.new ≡ take at out.old ++ spaced_text (map decimal values.now) }
    ensures end { result ≤ at + 44 }
{
    let mut end = at;
    for value in values {
        end = put_value(out, end, *value);
    }
    end
}

/// Writes the words behind the first.
fn put_operands(out: &mut [u8], at: usize, what: &What, names: &Names) -> usize
    requires lined { HasOperands names.now what.now }
    requires room { at + 80 ≤ length out.old }
    ensures written { take result out.new ≡ take at out.old ++ spaced_text (spec.operand_words names.now what.now) }
    ensures end { result ≤ at + 80 }
{
    match what {
        What::Tick | What::Alarm | What::AlarmSet => at,
        What::Pend(irq) | What::Ret(irq) | What::Post(irq) => put_irq(out, at, *irq, names),
        What::Take(irq, depth) => {
            let at = put_irq(out, at, *irq, names);
            put_value(out, at, *depth)
        }
        What::Enter(section) => put_section(out, at, *section, names),
        What::Leave(section, None) => put_section(out, at, *section, names),
        What::Leave(section, Some(value)) => {
            let at = put_section(out, at, *section, names);
            put_value(out, at, *value)
        }
        What::Emit(value) | What::Clock(value) => put_value(out, at, *value),
        What::Placed(task)
        | What::Full(task)
        | What::Ready(task)
        | What::Free(task)
        | What::Fire(task) => put_task(out, at, *task, names),
        What::Start(task, args) => {
            let at = put_task(out, at, *task, names);
            put_values(out, at, args.values())
        }
        What::Arm(task, value) | What::Cancel(task, value) => {
            let at = put_task(out, at, *task, names);
            put_value(out, at, *value)
        }
        What::Move(task, handle, instant) => {
            let at = put_task(out, at, *task, names);
            let at = put_value(out, at, *handle);
            put_value(out, at, *instant)
        }
        What::End(body) => put_body(out, at, *body, names),
        What::Trap(reason) => put_value(out, at, u32::from(*reason)),
    }
}
