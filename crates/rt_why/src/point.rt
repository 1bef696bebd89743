// A point of an image, with the sections that are open there.

ghost use Rattle.std.specs.Prelude.{◌≡◌, IfOk};
ghost use Rattle.rt_judge.specs.Inside.Points.{point};

use rt_ids::NoMemory;
use rt_points::{Opened, Owner};
use std::alloc::Global;
use std::marker::Model;

/// A point of an image. Contracts see the point of the definitions.
#[derive(Drop)]
pub struct Point {
    /// The address of its instruction, or an address past the code.
    pub address: u32,
    /// Whose code runs there.
    pub owner: Owner,
    /// The open sections, innermost first.
    pub inside: Vec<Opened>,
}

impl Model for Point {
    ghost use Rattle.rt_points.specs.Point.{Point};

    ghost Value = { Point };

    ghost view = { λ point. record {
      address = point.address;
      owner = point.owner;
      inside = point.inside.items;
    } };
}

impl Point {
    /// The point at an address, with these sections open.
    pub fn new(
        alloc: Global,
        owner: Owner,
        address: u32,
        opened: &[Opened],
    ) -> Result<Point, NoMemory>
        ensures { IfOk result (λ made. made ≡ point address owner opened.now) }
    {
        Ok(Point {
            address,
            owner,
            inside: Vec::from_slice(alloc, opened)?,
        })
    }
}
