// Baker's machine on one application, with what it knows beforehand.

use rt_app::Ceilings;
use rt_baker_work::{Code, Handler};

/// What serves an interrupt, at which priority, and in how many core steps at most.
#[derive(Clone, Copy)]
pub struct Served {
    pub handler: Handler,
    pub priority: u8,
    pub cost: u64,
}

/// Baker's machine on an accepted application whose code is followed.
#[derive(Drop)]
pub struct Machine<'a> {
    /// The application, and what is known of its code beforehand.
    pub code: &'a Code<'a>,
    /// What serves each interrupt, by its number.
    pub served: &'a [Option<Served>],
    /// The ceilings of sections.
    pub ceilings: &'a Ceilings,
}
