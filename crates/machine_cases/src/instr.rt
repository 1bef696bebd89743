// Reads instructions and notes.

use crate::names::{body, irq, section, task};
use rt_code::{Instr, Note};
use rt_ids::{Names, Op, TaskId};

/// The number that a word is.
pub fn number(word: &str) -> Option<u32> {
    word.parse::<u32>().ok()
}

/// The operation of a word, where it is one.
fn operation(word: &str) -> Option<Op> {
    Some(match word {
        "add" => Op::Add,
        "sub" => Op::Sub,
        "mul" => Op::Mul,
        "div" => Op::Div,
        "rem" => Op::Rem,
        "and" => Op::And,
        "or" => Op::Or,
        "xor" => Op::Xor,
        "shl" => Op::Shl,
        "shr" => Op::Shr,
        _ => return comparison(word),
    })
}

/// The comparison of a word, where it is one.
fn comparison(word: &str) -> Option<Op> {
    Some(match word {
        "eq" => Op::Eq,
        "ne" => Op::Ne,
        "lt" => Op::Lt,
        "le" => Op::Le,
        "gt" => Op::Gt,
        "ge" => Op::Ge,
        _ => return None,
    })
}

/// An instruction of a word alone.
fn plain(word: &str) -> Option<Instr> {
    Some(match word {
        "noalarm" => Instr::NoAlarm,
        "mark" => Instr::Mark,
        "serve" => Instr::Serve,
        "wait" => Instr::Wait,
        "back" => Instr::Back,
        "ret" => Instr::Ret,
        _ => return None,
    })
}

/// An instruction of a word and a number.
fn of_one(word: &str, a: u32) -> Option<Instr> {
    Some(match word {
        "jump" => Instr::Jump(a),
        "emit" => Instr::Emit(a),
        "clock" => Instr::Clock(a),
        "restore" => Instr::Restore(a),
        "mask" => Instr::Mask(a),
        "unmask" => Instr::Unmask(a),
        _ => return None,
    })
}

/// An instruction of a word and two numbers.
fn of_two(word: &str, a: u32, b: u32) -> Option<Instr> {
    Some(match word {
        "set" => Instr::Set(a, b),
        "copy" => Instr::Copy(a, b),
        "load" => Instr::Load(a, b),
        "store" => Instr::Store(a, b),
        "jumpz" => Instr::JumpZ(a, b),
        "raise" => Instr::Raise(a, b),
        "call" => Instr::Call(a, b),
        _ => return None,
    })
}

/// An instruction of a word and three numbers.
fn of_three(word: &str, a: u32, b: u32, c: u32) -> Option<Instr> {
    Some(match word {
        "loadat" => Instr::LoadAt(a, b, c),
        "storeat" => Instr::StoreAt(a, b, c),
        _ => Instr::Calc(operation(word)?, a, b, c),
    })
}

/// An instruction of a word and another, the name of an interrupt or a number.
fn of_word(names: &Names, word: &str, a: &str) -> Option<Instr> {
    if word == "post" {
        Some(Instr::Post(irq(names, a)?))
    } else {
        of_one(word, number(a)?)
    }
}

/// An instruction of a word, a number and another word, the name of an interrupt or a number.
fn of_words(names: &Names, word: &str, a: u32, b: &str) -> Option<Instr> {
    if word == "alarm" {
        Some(Instr::Alarm(a, irq(names, b)?))
    } else {
        of_two(word, a, number(b)?)
    }
}

/// An instruction of a word and what stands behind it.
pub fn instr(names: &Names, word: &str, operands: &[&str]) -> Option<Instr> {
    match operands {
        [] => plain(word),
        [a] => of_word(names, word, a),
        [a, b] => of_words(names, word, number(a)?, b),
        [a, b, c] => of_three(word, number(a)?, number(b)?, number(c)?),
        _ => None,
    }
}

/// A note of a task.
fn task_note(word: &str, task: TaskId) -> Option<Note> {
    Some(match word {
        "ok" => Note::Placed(task),
        "full" => Note::Full(task),
        "ready" => Note::Ready(task),
        "free" => Note::Free(task),
        "fire" => Note::Fire(task),
        _ => return None,
    })
}

/// A note of a task and a number.
fn numbered_note(word: &str, task: TaskId, number: u32) -> Option<Note> {
    match word {
        "start" => Some(Note::Start(task, number)),
        "arm" => Some(Note::Arm(task, number)),
        "cancel" => Some(Note::Cancel(task, number)),
        _ => None,
    }
}

/// A note of what is named.
fn named_note(names: &Names, word: &str, name: &str) -> Option<Note> {
    match word {
        "enter" => Some(Note::Enter(section(names, name)?)),
        "leave" => Some(Note::Leave(section(names, name)?)),
        "end" => Some(Note::End(body(names, name)?)),
        _ => task_note(word, task(names, name)?),
    }
}

/// A note of a word and what stands behind it.
pub fn note(names: &Names, word: &str, operands: &[&str]) -> Option<Note> {
    match operands {
        [name] => named_note(names, word, name),
        [name, slot] => numbered_note(word, task(names, name)?, number(slot)?),
        [name, slot, from] if word == "move" => Some(Note::Move(
            task(names, name)?,
            number(slot)?,
            number(from)?,
        )),
        _ => None,
    }
}
