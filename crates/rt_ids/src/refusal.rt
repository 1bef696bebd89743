// Why an application text is refused, and where.

use crate::limit::Limit;
use crate::place::Place;
use crate::rule::Rule;

/// What is wrong with an application text.
#[derive(Clone, Copy, PartialEq, Eq)]
pub enum Refusal {
    /// The text has more than 262,144 bytes.
    TooLong,
    /// A byte that no token begins with.
    Foreign,
    /// With this token the text is no beginning of an application, or it ends too early.
    Syntax,
    Limit(Limit),
    /// A rule is broken that binds texts of the grammar within their limits.
    Rule(Rule),
}

/// A refusal of an application text, and where it stands.
#[derive(Clone, Copy, PartialEq, Eq)]
pub struct Fault {
    pub place: Place,
    pub refusal: Refusal,
}

/// Why an application was not taken.
#[derive(Clone, Copy, PartialEq, Eq, Drop)]
pub enum Refused {
    At(Fault),
    NoMemory,
}
