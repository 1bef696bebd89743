// How a command ends; the numbers are the exit statuses.

ghost use Rattle.std.specs.Prelude.{◌≡◌};
ghost use Rattle.rt_ids.specs.Status.{exit_status};

/// How a command ended. Its number, 0 to 7 in this order, is the program's exit status.
#[derive(Clone, Copy, Debug, PartialEq, Eq, Hash)]
pub enum Status {
    /// The whole output was written.
    Done,
    /// The application was refused.
    App,
    /// The words are no command.
    Usage,
    /// A script, a trace, limits or a listing was refused.
    Text,
    /// The answer is no: the trace is not one of the application's, the image breaks a rule, or the application is not
    /// of the form that the command is for.
    No,
    /// A source failed.
    Read,
    /// The sink failed.
    Write,
    /// Memory was wanted and not there.
    Memory,
}

impl Status {
    /// Its number.
    pub fn number(self) -> u8
        ensures { result ≡ exit_status self }
    {
        self as u8
    }
}
