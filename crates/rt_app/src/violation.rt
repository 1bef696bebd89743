// A rule that is broken, and the offset of its place.

use rt_ids::Rule;

/// A rule that an application breaks, and where.
#[derive(Clone, Copy, PartialEq, Eq)]
pub struct Violation {
    /// The bytes of the text before the place.
    pub at: u32,
    pub rule: Rule,
}
