// The commands, and the words that name them.

ghost use Rattle.std.specs.Prelude.{IfSome, IfNone};
ghost use Rattle.rt_top.specs.Defined.{IsCommand};
ghost use Rattle.rt_top.specs.Words.{texts};
ghost use Rattle.rt_topx.specs.Rticx.{rticx_program};
ghost use Rattle.rt_topx.specs.Words.{NamesCommand};

/// A command.
#[derive(Clone, Copy, PartialEq, Eq)]
pub enum Command {
    /// `run APP BOARD SCRIPT`
    Run,
    /// `audit APP BOARD TRACE`
    Audit,
    /// `live APP BOARD SCRIPT`
    Live,
    /// `native APP BOARD`
    Native,
    /// `why IMAGE`
    Why,
    /// `cycles APP`
    Cycles,
    /// `bounds IMAGE`
    Bounds,
    /// `bounds IMAGE LIMITS`
    TimedBounds,
    /// `respond APP LIMITS`
    Respond,
}

/// The command that the words name, None where they name none.
pub(crate) fn command_of(words: &[&str]) -> Option<Command>
    ensures some { IfSome result (λ c. NamesCommand (texts words.now) c) }
    ensures none { IfNone result (¬ IsCommand rticx_program (texts words.now)) }
{
    match words {
        ["run", _, _, _] => Some(Command::Run),
        ["audit", _, _, _] => Some(Command::Audit),
        ["live", _, _, _] => Some(Command::Live),
        ["native", _, _] => Some(Command::Native),
        ["why", _] => Some(Command::Why),
        ["cycles", _] => Some(Command::Cycles),
        ["bounds", _] => Some(Command::Bounds),
        ["bounds", _, _] => Some(Command::TimedBounds),
        ["respond", _, _] => Some(Command::Respond),
        _ => None,
    }
}
