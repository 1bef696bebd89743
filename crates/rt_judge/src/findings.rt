// What was found at the points so far.

ghost use Rattle.std.specs.Prelude.{◌≡◌, ◌++◌, ◌∷◌, [], IfOk, OnOk, List, Some, slice_get};
ghost use Rattle.rt_points.specs.Point.{Point};
ghost use Rattle.rt_judge.specs.Inside.Points.{point};
ghost use Rattle.rt_judge.specs.Inside.Finds as spec;

use crate::entering::Sections;
use crate::exits::line_at;
use crate::notes::is_noted_well;
use crate::operands::is_operable;
use crate::touching::Cells;
use rt_code::{Image, Line};
use rt_ids::NoMemory;
use rt_points::{Opened, Owner};
use std::alloc::Global;

/// What was found at the points of an image that were looked at.
#[derive(Drop)]
pub struct Findings {
    /// Each has an instruction.
    pub addresses: bool,
    /// Each instruction may be used, has its slots and its cell, and ends a job only where it may, with nothing open.
    pub operands: bool,
    /// Each note and each mask is right.
    pub notes: bool,
    pub sections: Sections,
    pub cells: Cells,
}

impl Findings {
    /// Of no points.
    pub fn new(alloc: Global, image: &Image) -> Result<Findings, NoMemory>
        ensures { IfOk result (spec.Finds image.now []) }
    {
        let cells = Cells::new(alloc, image.cells.len())?;
        Ok(Findings {
            addresses: true,
            operands: true,
            notes: true,
            sections: Sections::new(alloc, image.code.len())?,
            cells,
        })
    }

    /// One more point, at which a line stands.
    fn take_line(
        &mut self,
        alloc: Global,
        image: &Image,
        owner: Owner,
        address: u32,
        line: &Line,
        opened: &[Opened],
    ) -> Result<(), NoMemory>
        ensures { OnOk result ((ps : List Point)
            → slice_get image.now.code address ≡ Some line.now
            → spec.Finds image.now ps self.old
            → spec.Finds image.now (ps ++ point address owner opened.now ∷ []) self.new) }
    {
        let is_operable = is_operable(image, owner, opened, &line.0);
        let is_noted_well = is_noted_well(image, owner, opened, &line.0, &line.1);
        self.operands &= is_operable;
        self.notes &= is_noted_well;
        self.sections.take(image, owner, address, line, opened)?;
        self.cells.take(alloc, image, owner, line, opened)
    }

    /// One more point.
    pub fn take_point(
        &mut self,
        alloc: Global,
        image: &Image,
        owner: Owner,
        address: u32,
        opened: &[Opened],
    ) -> Result<(), NoMemory>
        ensures { OnOk result ((ps : List Point)
            → spec.Finds image.now ps self.old
            → spec.Finds image.now (ps ++ point address owner opened.now ∷ []) self.new) }
    {
        match line_at(image, address) {
            Some(line) => self.take_line(alloc, image, owner, address, &line, opened),
            None => {
                self.addresses = false;
                Ok(())
            }
        }
    }
}
