// What is wrong with a line of a board.

/// What is wrong with a line that does not name an input. Of several the first here is told.
#[derive(Clone, Copy)]
pub enum Cause {
    /// The line is of no form.
    BadLine,
    /// No task has the name.
    UnknownTask,
    /// The task binds no interrupt.
    SoftwareTask,
    /// No local resource has the name.
    UnknownLocal,
    /// The task does not list the local resource.
    LocalOfAnother,
    /// A line before names the local resource.
    NamedTwice,
}
