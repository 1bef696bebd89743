// The numbers that `check` prints besides ceilings, as a structure.

use rt_ids::BodyId;
use std::marker::Model;

/// What a body takes.
#[derive(Clone, Copy, PartialEq, Eq)]
pub struct BodyBound {
    pub body: BodyId,
    /// Words of its frame.
    pub frame: u32,
    /// Core steps of a run of it, at most.
    pub cost: u32,
}

/// How long a job of a priority waits for lower ones.
#[derive(Clone, Copy, PartialEq, Eq)]
pub struct Wait {
    pub priority: u8,
    /// Core steps, at most.
    pub steps: u32,
}

/// The numbers that hold of every run of an application.
#[derive(Drop)]
pub struct Bounds {
    /// Of each declared body: `init`, `idle` and the tasks in order.
    pub bodies: Vec<BodyBound>,
    /// Of each priority that has a handler, rising.
    pub waits: Vec<Wait>,
    /// Words of the thread's frame.
    pub thread_words: u32,
    /// Bytes of the stack.
    pub stack_bytes: u32,
}

impl Model for Bounds {
    ghost use Rattle.rt_app.specs.Bounds.{Bounds};

    ghost Value = { Bounds };

    ghost view = { λ b. record {
      bodies = b.bodies.items;
      waits = b.waits.items;
      thread_words = b.thread_words;
      stack_bytes = b.stack_bytes;
    } };
}
