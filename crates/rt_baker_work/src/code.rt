// What is known beforehand of an application whose code is followed.

use rt_app::App;
use rt_frames::Measure;
use rt_ids::TaskId;
use std::alloc::Global;

/// What serves an interrupt.
#[derive(Clone, Copy)]
pub enum Handler {
    /// The body of a hardware task.
    Runs(TaskId),
    /// The dispatcher of a level.
    Dispatches(u8),
    /// The timer handler.
    Times,
}

/// An accepted application whose code is followed, and what is known of it beforehand.
#[derive(Drop)]
pub struct Code<'a> {
    /// Where memory is taken from.
    pub alloc: Global,
    /// The application.
    pub app: &'a App,
    /// Core steps of its bodies.
    pub measure: Measure,
    /// The numbers of the dispatchers, by level.
    pub dispatchers: &'a [u16],
    /// Core steps of a section of the armed messages.
    pub timer_section: u32,
    /// Core steps of such a section where a message is found by its handle.
    pub handle_section: u32,
}
