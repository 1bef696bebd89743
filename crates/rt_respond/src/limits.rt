// Limits on requests and ticks, and deadlines.

ghost use Rattle.std.specs.Prelude.{◌≡◌, Some, OnOk, OnErr};
ghost use Rattle.rt_respond.specs.Limits as spec;

use crate::line::Line;
use rt_ids::{Irq, NoMemory, TaskId};
use rt_rta::Limit;
use std::alloc::Global;
use std::marker::Model;

/// How long a software task that is sent after a delay waits at least.
#[derive(Clone, Copy)]
pub struct Delay {
    pub task: TaskId,
    /// The least delay, in ticks.
    pub ticks: u32,
}

/// When a task is to be done at the latest.
#[derive(Clone, Copy)]
pub struct Deadline {
    pub task: TaskId,
    /// Core steps from the request on.
    pub steps: u32,
}

/// What a text of limits says. Contracts see a record of it.
pub struct Limits {
    every: Vec<Limit>,
    tick: Option<u32>,
    delays: Vec<Delay>,
    deadlines: Vec<Deadline>,
}

impl Model for Limits {
    ghost use Rattle.rt_respond.specs.Limits.{Limits};

    ghost Value = { Limits };

    ghost view = { λ limits. record {
      every = limits.every.items;
      tick = limits.tick;
      delays = limits.delays.items;
      deadlines = limits.deadlines.items;
    } };
}

impl Drop for Limits {
    fn drop(self) {
        let Limits {
            every: _,
            tick: _,
            delays: _,
            deadlines: _,
        } = self;
    }
}

impl Limits {
    /// No limits.
    pub fn new(alloc: Global) -> Limits
        ensures { result ≡ spec.no_limits }
    {
        Limits {
            every: Vec::new(alloc),
            tick: None,
            delays: Vec::new(alloc),
            deadlines: Vec::new(alloc),
        }
    }

    /// How often interrupts are requested at most, in order; one that is not named is never requested.
    pub fn every(&self) -> &[Limit]
        ensures { result.now ≡ self.now.every }
    {
        self.every.as_slice()
    }

    /// The least core steps between two ticks, where they are limited; else no tick comes.
    pub fn tick(&self) -> Option<u32>
        ensures { result ≡ self.now.tick }
    {
        self.tick
    }

    /// The deadlines, in order.
    pub fn deadlines(&self) -> &[Deadline]
        ensures { result.now ≡ self.now.deadlines }
    {
        self.deadlines.as_slice()
    }

    /// The least distance between requests of an interrupt of this number, in core steps, where it has a limit.
    pub fn every_of(&self, irq: Irq) -> Option<u32>
        ensures { result ≡ spec.every_of self.now irq }
    {
        let row = self.every.iter().find(|limit| limit.irq == irq);
        row.map(|limit| limit.every)
    }

    /// The least delay of a task, in ticks, where it has a limit.
    pub fn delay_of(&self, task: TaskId) -> Option<u32>
        ensures { result ≡ spec.delay_of self.now task }
    {
        let row = self.delays.iter().find(|delay| delay.task == task);
        row.map(|delay| delay.ticks)
    }

    /// The deadline of a task, in core steps, where it has one.
    pub fn deadline_of(&self, task: TaskId) -> Option<u32>
        ensures { result ≡ spec.deadline_of self.now task }
    {
        let row = self.deadlines.iter().find(|deadline| deadline.task == task);
        row.map(|deadline| deadline.steps)
    }

    /// With what a line says.
    pub(crate) fn add(&mut self, line: Line) -> Result<(), NoMemory>
        ensures added { OnOk result (self.new ≡ spec.with_line self.old line) }
        ensures unchanged { OnErr result (self.new ≡ self.old) }
    {
        match line {
            Line::Every(limit) => self.every.push(limit)?,
            Line::Tick(steps) => self.tick = Some(steps),
            Line::Delay(delay) => self.delays.push(delay)?,
            Line::Deadline(deadline) => self.deadlines.push(deadline)?,
        }
        Ok(())
    }
}
