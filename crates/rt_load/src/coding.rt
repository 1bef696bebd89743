// Reads an instruction.

ghost use Rattle.std.specs.Prelude.{◌≡◌, ◌++◌, find, map, bytes_eq};
ghost use Rattle.rt_lines.specs.Operand.{FirstIrqName, read_at};
ghost use Rattle.rt_lines.specs.Parts.{words_of};
ghost use Rattle.rt_lines.specs.Table.{Number32, none_at, one_at, said_at, three_at, two_at};
ghost use Rattle.rt_listing.specs.Words as word;
ghost use Rattle.rt_load.specs.Inside.Noting.{words_at};
ghost use Rattle.rt_load.specs.Inside.Operand.{in_front};

use crate::operand::next_operand;
use rt_code::Instr;
use rt_ids::{Irq, Names, Op};
use rt_lines::{Wrong, both, read_first_irq, read_number};
use rt_listing::op_word;

// The words of each function below are those in front of a semicolon.

/// An instruction, where no word is left.
fn alone(instr: Instr, words: Option<&[u8]>) -> Result<Instr, Wrong>
    ensures { result ≡ none_at instr (in_front (words_of words.entry)) }
{
    if next_operand(words).is_none() {
        Ok(instr)
    } else {
        Err(Wrong::Form)
    }
}

/// The only number that is left.
fn one(names: &Names, words: Option<&[u8]>) -> Result<u32, Wrong>
    ensures { result ≡ one_at (read_at Number32) names.now (in_front (words_of words.entry)) }
{
    match next_operand(words) {
        Some((word, rest)) if next_operand(rest).is_none() => read_number(word),
        _ => Err(Wrong::Form),
    }
}

/// The only interrupt that is left.
fn one_irq(names: &Names, words: Option<&[u8]>) -> Result<Irq, Wrong>
    ensures { result ≡ one_at (read_at FirstIrqName) names.now (in_front (words_of words.entry)) }
{
    match next_operand(words) {
        Some((word, rest)) if next_operand(rest).is_none() => read_first_irq(names, word),
        _ => Err(Wrong::Form),
    }
}

/// The only two numbers that are left.
fn two(names: &Names, words: Option<&[u8]>) -> Result<(u32, u32), Wrong>
    ensures { result ≡ two_at (read_at Number32) (read_at Number32) names.now (in_front (words_of words.entry)) }
{
    match next_operand(words) {
        Some((first, rest)) => both(read_number(first), one(names, rest)),
        None => Err(Wrong::Form),
    }
}

/// The only number and the only interrupt that are left.
fn number_and_irq(names: &Names, words: Option<&[u8]>) -> Result<(u32, Irq), Wrong>
    ensures { result ≡ two_at (read_at Number32) (read_at FirstIrqName) names.now (in_front (words_of words.entry)) }
{
    match next_operand(words) {
        Some((first, rest)) => both(read_number(first), one_irq(names, rest)),
        None => Err(Wrong::Form),
    }
}

/// The only three numbers that are left.
fn three(names: &Names, words: Option<&[u8]>) -> Result<(u32, (u32, u32)), Wrong>
    ensures { result ≡ three_at (read_at Number32) (read_at Number32) (read_at Number32) names.now
        (in_front (words_of words.entry)) }
{
    match next_operand(words) {
        Some((first, rest)) => both(read_number(first), two(names, rest)),
        None => Err(Wrong::Form),
    }
}

/// The instruction of words.
pub fn read_instr(names: &Names, words: Option<&[u8]>) -> Result<Instr, Wrong>
    ensures { result ≡ words_at word.instr_rows names.now (in_front (words_of words.entry)) }
{
    match next_operand(words) {
        Some((first, words)) => read_on_slots(names, first, words),
        None => Err(Wrong::Form),
    }
}

/// The instruction of a first word and the words behind it: on slots and cells, or one that goes elsewhere in the code.
fn read_on_slots(names: &Names, first: &[u8], words: Option<&[u8]>) -> Result<Instr, Wrong>
    ensures { result ≡ said_at word.instr_rows names.now first.now (in_front (words_of words.entry)) }
{
    if first == b"set".as_slice() {
        two(names, words).map(|(to, value)| Instr::Set(to, value))
    } else if first == b"copy".as_slice() {
        two(names, words).map(|(to, from)| Instr::Copy(to, from))
    } else if first == b"load".as_slice() {
        two(names, words).map(|(to, cell)| Instr::Load(to, cell))
    } else if first == b"store".as_slice() {
        two(names, words).map(|(cell, from)| Instr::Store(cell, from))
    } else if first == b"loadat".as_slice() {
        three(names, words).map(|(to, (cell, index))| Instr::LoadAt(to, cell, index))
    } else if first == b"storeat".as_slice() {
        three(names, words).map(|(cell, (index, from))| Instr::StoreAt(cell, index, from))
    } else if first == b"jump".as_slice() {
        one(names, words).map(Instr::Jump)
    } else if first == b"jumpz".as_slice() {
        two(names, words).map(|(slot, address)| Instr::JumpZ(slot, address))
    } else if first == b"call".as_slice() {
        two(names, words).map(|(row, slot)| Instr::Call(row, slot))
    } else if first == b"back".as_slice() {
        alone(Instr::Back, words)
    } else if first == b"ret".as_slice() {
        alone(Instr::Ret, words)
    } else {
        read_on_core(names, first, words)
    }
}

/// The same on interrupts, their masks and the clock, or one that only gives an item.
fn read_on_core(names: &Names, first: &[u8], words: Option<&[u8]>) -> Result<Instr, Wrong>
    ensures { result ≡ said_at (word.core_rows ++ map word.op_row word.ops) names.now first.now
        (in_front (words_of words.entry)) }
{
    if first == b"emit".as_slice() {
        one(names, words).map(Instr::Emit)
    } else if first == b"post".as_slice() {
        one_irq(names, words).map(Instr::Post)
    } else if first == b"clock".as_slice() {
        one(names, words).map(Instr::Clock)
    } else if first == b"alarm".as_slice() {
        number_and_irq(names, words).map(|(slot, irq)| Instr::Alarm(slot, irq))
    } else if first == b"noalarm".as_slice() {
        alone(Instr::NoAlarm, words)
    } else if first == b"raise".as_slice() {
        two(names, words).map(|(to, value)| Instr::Raise(to, value))
    } else if first == b"restore".as_slice() {
        one(names, words).map(Instr::Restore)
    } else if first == b"mask".as_slice() {
        one(names, words).map(Instr::Mask)
    } else if first == b"unmask".as_slice() {
        one(names, words).map(Instr::Unmask)
    } else if first == b"mark".as_slice() {
        alone(Instr::Mark, words)
    } else if first == b"serve".as_slice() {
        alone(Instr::Serve, words)
    } else if first == b"wait".as_slice() {
        alone(Instr::Wait, words)
    } else {
        read_op(names, first, words)
    }
}

/// The same of the word of an operation.
fn read_op(names: &Names, first: &[u8], words: Option<&[u8]>) -> Result<Instr, Wrong>
    ensures { result ≡ said_at (map word.op_row word.ops) names.now first.now (in_front (words_of words.entry)) }
{
    match op_named(first) {
        Some(op) => three(names, words).map(|(to, (a, b))| Instr::Calc(op, to, a, b)),
        None => Err(Wrong::Form),
    }
}

/// The operation of a word.
fn op_named(first: &[u8]) -> Option<Op>
    ensures { result ≡ find (λ o. bytes_eq first.now (word.op_word o)) word.ops }
{
    let ops = [
        Op::Add,
        Op::Sub,
        Op::Mul,
        Op::Div,
        Op::Rem,
        Op::And,
        Op::Or,
        Op::Xor,
        Op::Shl,
        Op::Shr,
        Op::Eq,
        Op::Ne,
        Op::Lt,
        Op::Le,
        Op::Gt,
        Op::Ge,
    ];
    op_among(&ops, first)
}

/// The first of these that has this word.
fn op_among(ops: &[Op], first: &[u8]) -> Option<Op>
    ensures { result ≡ find (λ o. bytes_eq first.now (word.op_word o)) ops.now }
{
    for op in ops {
        if first == op_word(*op) {
            return Some(*op);
        }
    }
    None
}
