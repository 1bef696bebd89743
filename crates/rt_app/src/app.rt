// An application with its names resolved: what it declares.

ghost use Rattle.std.specs.Prelude.{◌≡◌, slice_get};
ghost use Rattle.std.specs.Option.{option_copied};
ghost use Rattle.rt_app.specs.Level.{is_software, is_of_level};
ghost use Rattle.rt_app.specs.View.{task_of};

use crate::body::Body;
use rt_ids::{Irq, Name, TaskId};

/// A declared interrupt.
#[derive(Drop)]
pub struct IrqDecl {
    pub name: Name,
    pub number: Irq,
    /// The offset of the name.
    pub at: u32,
    /// The offset of the number.
    pub number_at: u32,
}

/// An interrupt that serves messages of software tasks.
#[derive(Clone, Copy)]
pub struct Dispatcher {
    /// The interrupt, by its index in the order of declaration.
    pub irq: u8,
    /// The offset of its name.
    pub at: u32,
}

/// The monotonic: its interrupt, and its priority.
#[derive(Clone, Copy)]
pub struct Mono {
    /// The interrupt, by its index in the order of declaration.
    pub irq: u8,
    /// Its logical priority; one above 255 stands as 255.
    pub priority: u8,
    /// The offset of the interrupt's name.
    pub at: u32,
    /// The offset of the priority.
    pub priority_at: u32,
}

/// A shared resource and its first value.
#[derive(Drop)]
pub struct Shared {
    pub name: Name,
    pub first: u32,
    pub lock_free: bool,
}

/// A local resource and its first value.
#[derive(Drop)]
pub struct Local {
    pub name: Name,
    pub first: u32,
}

/// A task. One that binds an interrupt is a hardware task, any other a software task.
pub struct Task {
    pub name: Name,
    /// The offset of the name.
    pub at: u32,
    /// The interrupt that it binds, by its index in the order of declaration.
    pub binds: Option<u8>,
    /// The offset of that interrupt's name, and 0 where it binds none.
    pub binds_at: u32,
    /// Its logical priority: 1 where none is written, and 255 for one above 255.
    pub priority: u8,
    /// The offset of the priority, and 0 where none is written.
    pub priority_at: u32,
    /// How many of its messages may be out at once: 1 where it is not written.
    pub capacity: u8,
    /// Whether a capacity is written.
    pub has_capacity: bool,
    /// How many arguments it takes.
    pub args: u8,
    pub body: Body,
}

impl Drop for Task {
    fn drop(self) {
        let Task {
            name: _,
            at: _,
            binds: _,
            binds_at: _,
            priority: _,
            priority_at: _,
            capacity: _,
            has_capacity: _,
            args: _,
            body: _,
        } = self;
    }
}

impl Task {
    /// Whether it is a software task.
    pub fn is_software(&self) -> bool
        ensures { result ≡ is_software (task_of self.now) }
    {
        self.binds.is_none()
    }

    /// Whether it is a software task of this level.
    pub fn is_of_level(&self, level: u8) -> bool
        ensures { result ≡ is_of_level level (task_of self.now) }
    {
        self.is_software() && self.priority == level
    }
}

/// An application with its names resolved: an interrupt, a task or a resource is its index in the order of
/// declaration, and a name that is not declared is 255. It carries the offset of each name and number at which a rule
/// can be found broken.
pub struct App {
    /// Implemented priority bits.
    pub bits: u8,
    /// Whether the core has the floating-point extension.
    pub fpu: bool,
    pub irqs: Vec<IrqDecl>,
    pub dispatchers: Vec<Dispatcher>,
    pub mono: Option<Mono>,
    pub shared: Vec<Shared>,
    pub locals: Vec<Local>,
    pub init: Option<Body>,
    pub idle: Option<Body>,
    pub tasks: Vec<Task>,
    /// The offset of the application's name.
    pub name_at: u32,
}

impl Drop for App {
    fn drop(self) {
        let App {
            bits: _,
            fpu: _,
            irqs: _,
            dispatchers: _,
            mono: _,
            shared: _,
            locals: _,
            init: _,
            idle: _,
            tasks: _,
            name_at: _,
        } = self;
    }
}

impl App {
    /// A task, and None where there is none of this number.
    pub fn task(&self, task: TaskId) -> Option<&Task>
        ensures { option_copied result ≡ slice_get self.now.tasks.items task }
    {
        self.tasks.get(usize::from(task.0))
    }
}
