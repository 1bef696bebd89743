// An image with tables by number, so that a core looks for nothing.

ghost use Rattle.std.specs.Prelude.{◌≡◌, IfOk, slice_get};
ghost use Rattle.rt_code.specs.Cells.{resource_cell};
ghost use Rattle.rt_code.specs.Tables.{handler_of, argument_count};

use crate::{copy, tables};
use rt_code::{BodyRow, Handler, Image, Line};
use rt_ids::{Irq, NoMemory, ResId, TaskId};
use std::alloc::Global;
use std::marker::Model;

/// An image with tables by number, so that nothing is looked for while it runs. Contracts see the image.
pub struct Program {
    image: Image,
    /// By interrupt number.
    handlers: Vec<Option<Handler>>,
    /// By resource, the number of its cell.
    resources: Vec<Option<usize>>,
    /// By task.
    arguments: Vec<u8>,
}

impl Model for Program {
    ghost use Rattle.rt_code.specs.Image.{Image};

    ghost Value = { Image };

    ghost use Rattle.rt_image_tables.specs.Inside.Made.{HasTables};

    ghost view = { λ p. p.image };

    ghost invariant = { HasTables };
}

impl Drop for Program {
    fn drop(self) {
        let Program {
            image: _,
            handlers: _,
            resources: _,
            arguments: _,
        } = self;
    }
}

impl Program {
    /// Makes the tables of an image.
    pub fn new(alloc: Global, image: Image) -> Result<Program, NoMemory>
        ensures { IfOk result (λ program. program ≡ image) }
    {
        let handlers = tables::handlers(alloc, &image.irqs)?;
        let resources = tables::named_cells(alloc, &image.cells, &image.names)?;
        let arguments = tables::argument_counts(alloc, &image.bodies)?;
        Ok(Program {
            image,
            handlers,
            resources,
            arguments,
        })
    }

    /// The image.
    pub fn image(&self) -> &Image
        ensures { result.now ≡ self.now }
    {
        &self.image
    }

    /// How an interrupt is served, and None where it is not enabled.
    pub fn handler(&self, irq: Irq) -> Option<Handler>
        ensures { result ≡ handler_of self.now irq }
    {
        *self.handlers.get(usize::from(irq.get()))?
    }

    /// The cell of a resource, and None where there is none of its name.
    pub fn resource_cell(&self, resource: ResId) -> Option<usize>
        ensures { result ≡ resource_cell self.now resource }
    {
        *self.resources.get(usize::from(resource.0))?
    }

    /// How many arguments the body of a task takes, and 0 where the task has none.
    pub fn argument_count(&self, task: TaskId) -> u8
        ensures { result ≡ argument_count self.now task }
    {
        self.arguments
            .get(usize::from(task.0))
            .copied()
            .unwrap_or(0)
    }

    /// The instruction at a code address, with its note.
    pub fn line(&self, address: u32) -> Option<Line>
        ensures { result ≡ slice_get self.now.code address }
    {
        self.image.code.get(address as usize).copied()
    }

    /// The body of a row.
    pub fn body(&self, row: u32) -> Option<BodyRow>
        ensures { result ≡ slice_get self.now.bodies row }
    {
        self.image.bodies.get(row as usize).copied()
    }

    /// An image that is the same.
    pub fn copy_of_image(&self, alloc: Global) -> Result<Image, NoMemory>
        ensures { IfOk result (λ image. image ≡ self.now) }
    {
        copy::image(alloc, &self.image)
    }
}
