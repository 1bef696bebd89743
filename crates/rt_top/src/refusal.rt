// The lines that refuse an application.

ghost use Rattle.std.specs.Prelude.{◌≡◌, ◌++◌, OnOk, IfOk};
ghost use Rattle.rt_top.specs.Refusal.{limit_word, rule_words, refusal_words, refusal_line};

use rt_ids::{Fault, Limit, NoMemory, Refusal, Rule, push_bytes, push_number};
use std::alloc::Global;

/// The line that refuses an application text.
pub(crate) fn refusal_line(alloc: Global, fault: Fault) -> Result<Vec<u8>, NoMemory>
    ensures { IfOk result (λ line. line.items ≡ refusal_line fault) }
{
    let mut line = Vec::new(alloc);
    push_number(&mut line, fault.place.line)?;
    push_bytes(&mut line, b":")?;
    push_number(&mut line, fault.place.col)?;
    push_bytes(&mut line, b" ")?;
    push_words(&mut line, fault.refusal)?;
    push_bytes(&mut line, b"\n")?;
    Ok(line)
}

/// Appends the number of a refusal, and its words.
fn push_words(out: &mut Vec<u8>, refusal: Refusal) -> Result<(), NoMemory>
    ensures { OnOk result (out.new.items ≡ out.old.items ++ refusal_words refusal) }
{
    match refusal {
        Refusal::TooLong => push_bytes(out, b"E01 text too long"),
        Refusal::Foreign => push_bytes(out, b"E02 foreign byte"),
        Refusal::Syntax => push_bytes(out, b"E03 syntax"),
        Refusal::Limit(limit) => {
            push_bytes(out, b"E04 limit ")?;
            push_bytes(out, limit_word(limit).as_bytes())
        }
        Refusal::Rule(rule) => push_bytes(out, rule_words(rule).as_bytes()),
    }
}

/// The number of the refusal by a rule, and its words.
fn rule_words(rule: Rule) -> &'static str
    ensures { result.now ≡ rule_words rule }
{
    match rule {
        Rule::UnknownName => "E05 unknown name",
        Rule::DeclaredTwice => "E06 name declared twice",
        Rule::PriorityOutOfRange => "E07 priority out of range",
        Rule::InterruptUsedTwice => "E08 interrupt used twice",
        Rule::TooFewDispatchers => "E09 too few dispatchers",
        Rule::LocalInTwoTasks => "E10 local in two tasks",
        Rule::OutsideLock => "E11 resource outside a lock",
        Rule::LockedInsideItself => "E12 locked inside itself",
        Rule::SharedAndExclusive => "E13 shared and exclusive",
        Rule::LockFreeAtTwoPriorities => "E14 lock_free at two priorities",
        Rule::NotSoftware => "E15 not a software task",
        Rule::NoMonotonic => "E16 no monotonic",
        Rule::TooLongBody => "E17 too long a body",
        Rule::NotWritable => "E18 not writable",
    }
}

/// The word for a limit.
fn limit_word(limit: Limit) -> &'static str
    ensures { result.now ≡ limit_word limit }
{
    match limit {
        Limit::Tasks => "tasks",
        Limit::Shared => "shared",
        Limit::Locals => "locals",
        Limit::Interrupts => "interrupts",
        Limit::Interrupt => "interrupt",
        Limit::Bits => "bits",
        Limit::Arguments => "arguments",
        Limit::Capacity => "capacity",
        Limit::Name => "name",
        Limit::Number => "number",
        Limit::Nesting => "nesting",
        Limit::Parentheses => "parentheses",
        Limit::Depth => "depth",
        Limit::Statements => "statements",
        Limit::Turns => "turns",
    }
}
