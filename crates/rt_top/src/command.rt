// The commands, and the words that name them.

ghost use Rattle.std.specs.Prelude.{◌≡◌, ◌-◌, ◌^◌, ℕ, IfSome, IfNone};
ghost use Rattle.rt_top.specs.Words.{texts, NamesCommand, IsNumber};
ghost use Rattle.rt_top.specs.Defined.{IsCommand};
ghost use Rattle.rt_top.specs.Rtic.{rtic_program};
ghost use Rattle.rt_top.specs.Inside.Meant.{command_word};
ghost use Rattle.rt_top.specs.declared.command.Command.TheVariants as command;

use crate::number::number_in;

/// The most runs of one `soak`.
const MOST_RUNS: u64 = 10_000;
/// The most workers of one `soak`.
const MOST_WORKERS: u64 = 64;
/// The most hardware tasks of one `demo`.
const MOST_DEMO_TASKS: u64 = 48;

/// A command, with its numbers.
#[derive(Clone, Copy, PartialEq, Eq)]
pub(crate) enum Command {
    /// `run APP SCRIPT`
    Run,
    /// `check APP`
    Check,
    /// `fmt APP`
    Fmt,
    /// `build APP`
    Build,
    /// `audit APP TRACE`
    Audit,
    /// `live APP SCRIPT`
    Live,
    /// `soak APP NUMBER COUNT WORKERS`
    Soak {
        number: u64,
        count: u32,
        workers: u8,
    },
    /// `demo N`
    Demo(u8),
    /// `deepest APP`
    Deepest,
    /// `times APP LIMITS`
    Times,
    /// `verify IMAGE`
    Verify,
    /// `pair APP1 APP2 SCRIPT`
    Pair,
}

/// The command that the words name, None where they name none.
pub(crate) fn command_of(words: &[&str]) -> Option<Command>
    ensures some { IfSome result (λ c. NamesCommand (texts words.now) (command_word c)) }
    ensures none { IfNone result (¬ IsCommand rtic_program (texts words.now)) }
{
    match words {
        ["run", _, _] => Some(Command::Run),
        ["check", _] => Some(Command::Check),
        ["fmt", _] => Some(Command::Fmt),
        ["build", _] => Some(Command::Build),
        ["audit", _, _] => Some(Command::Audit),
        ["live", _, _] => Some(Command::Live),
        ["soak", _, number, count, workers] => soak_of(number, count, workers),
        ["demo", tasks] => demo_of(tasks),
        ["deepest", _] => Some(Command::Deepest),
        ["times", _, _] => Some(Command::Times),
        ["verify", _] => Some(Command::Verify),
        ["pair", _, _, _] => Some(Command::Pair),
        _ => None,
    }
}

/// `demo` with its number, where the word spells one.
fn demo_of(tasks: &str) -> Option<Command>
    ensures some { IfSome result (λ c. (n : ℕ) × (c ≡ command.Demo n) × IsNumber 1 48 tasks.now n) }
    ensures none { IfNone result ((n : ℕ) → ¬ IsNumber 1 48 tasks.now n) }
{
    let tasks = number_in(tasks, 1, MOST_DEMO_TASKS)?;
    Some(Command::Demo(tasks as u8))
}

/// `soak` with its numbers, where the words spell them.
fn soak_of(number: &str, count: &str, workers: &str) -> Option<Command>
    ensures some { IfSome result (λ c. (n k w : ℕ) × (c ≡ command.Soak n k w)
        × IsNumber 0 (2 ^ 64 - 1) number.now n × IsNumber 1 10000 count.now k × IsNumber 1 64 workers.now w) }
    ensures none { IfNone result ((n k w : ℕ) → IsNumber 0 (2 ^ 64 - 1) number.now n →
        IsNumber 1 10000 count.now k → IsNumber 1 64 workers.now w → ⊥) }
{
    let number = number_in(number, 0, u64::MAX)?;
    let count = number_in(count, 1, MOST_RUNS)? as u32;
    let workers = number_in(workers, 1, MOST_WORKERS)? as u8;
    Some(Command::Soak {
        number,
        count,
        workers,
    })
}
