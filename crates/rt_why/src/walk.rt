// Follows the code of one owner until a point is found that is looked for.

ghost use Rattle.std.specs.Prelude.{◌≡◌, IfOk};
ghost use Rattle.rt_points.specs.Limits.{IsWithinLimits};
ghost use Rattle.rt_judge.specs.Inside.Nestings.{Stands};
ghost use Rattle.rt_judge.specs.Inside.Points.{point};
ghost use Rattle.rt_judge.specs.Inside.Visits.{spot_in, spots_of, AreSound};
ghost use Rattle.rt_judge.specs.Inside.Walks.{ArePoints, IsSoundWalk};
ghost use Rattle.rt_why.specs.Inside.Searches as spec;

use crate::point::Point;
use crate::wanted::{Wanted, is_wanted};
use crate::witness::Witness;
use rt_code::Image;
use rt_ids::NoMemory;
use rt_judge::nesting::Nesting;
use rt_judge::table::NestingTable;
use rt_judge::walk::{Visit, Visits, Walk};
use rt_points::{MOST_OPEN, Owner};
use std::alloc::Global;

/// What a visit is to a walk.
#[derive(Clone, Copy)]
pub enum Encounter {
    /// The walk has not come to this address.
    New,
    /// It has come to this address, with the same sections open.
    Known,
    /// Too many sections are open.
    Deep,
    /// It has come to this address with these sections open, which are others.
    Apart(Nesting),
}

/// How a walk ends.
#[derive(Drop)]
pub enum Course {
    /// It has come to all points of its owner, and none is looked for; another owner goes on from these visits.
    Ended(Visits),
    /// At a point that is looked for.
    Found(Point),
    /// Where the first rule is broken.
    Split(Witness),
}

/// What a visit is to a walk.
fn meet(walk: &Walk, visit: Visit) -> Encounter
    requires sound { IsSoundWalk walk.now }
    requires stands { Stands walk.now.nestings.opened.items visit.nesting }
    ensures { spec.Meets walk.now (spot_in walk.now.nestings.opened.items visit) result }
{
    if walk.nestings.open_sections(visit.nesting).len() > MOST_OPEN {
        return Encounter::Deep;
    }
    match walk.table.find(visit.address) {
        None => Encounter::New,
        Some(known) => {
            if walk.nestings.are_same(known, visit.nesting) {
                Encounter::Known
            } else {
                Encounter::Apart(known)
            }
        }
    }
}

/// The point of a visit.
fn point_of(
    alloc: Global,
    walk: &Walk,
    owner: Owner,
    address: u32,
    nesting: Nesting,
) -> Result<Point, NoMemory>
    requires { Stands walk.now.nestings.opened.items nesting }
    ensures { IfOk result (λ made. made
        ≡ point address owner (spec.inside_of walk.now.nestings.opened.items nesting)) }
{
    Point::new(alloc, owner, address, walk.nestings.open_sections(nesting))
}

/// The witness of two ways to an address.
fn ways(
    alloc: Global,
    walk: &Walk,
    owner: Owner,
    visit: Visit,
    known: Nesting,
) -> Result<Witness, NoMemory>
    requires known { Stands walk.now.nestings.opened.items known }
    requires visit { Stands walk.now.nestings.opened.items visit.nesting }
    ensures { IfOk result (λ witness. let opened = walk.now.nestings.opened.items in witness
        ≡ Witness.Ways (point visit.address owner (spec.inside_of opened known))
        (point visit.address owner (spec.inside_of opened visit.nesting))) }
{
    let one = point_of(alloc, walk, owner, visit.address, known)?;
    let other = point_of(alloc, walk, owner, visit.address, visit.nesting)?;
    Ok(Witness::Ways(one, other))
}

/// Walks from these visits to a point that is looked for, or to all points that the owner comes to.
pub fn walk_from(
    alloc: Global,
    image: &Image,
    owner: Owner,
    starts: Visits,
    wanted: &Wanted,
) -> Result<Course, NoMemory>
    requires limits { IsWithinLimits image.now }
    requires sound { AreSound starts }
    requires points { ArePoints image.now owner (spots_of starts) }
    ensures { IfOk result (spec.EndsAs image.now owner (spots_of starts) wanted.now) }
{
    let mut walk = Walk {
        nestings: starts.nestings,
        table: NestingTable::new(alloc, image.code.len())?,
        waiting: starts.list,
        behind: Vec::new(alloc),
    };
    while let Some(visit) = walk.waiting.pop() {
        match meet(&walk, visit) {
            Encounter::New => {
                let opened = walk.nestings.open_sections(visit.nesting);
                if is_wanted(image, owner, visit.address, opened, wanted) {
                    return Ok(Course::Found(Point::new(alloc, owner, visit.address, opened)?));
                }
                walk.take_in(image, owner, visit)?;
            }
            Encounter::Known => {}
            Encounter::Deep => {
                let here = point_of(alloc, &walk, owner, visit.address, visit.nesting)?;
                return Ok(Course::Split(Witness::Depth(here)));
            }
            Encounter::Apart(known) => {
                return Ok(Course::Split(ways(alloc, &walk, owner, visit, known)?));
            }
        }
    }
    Ok(Course::Ended(Visits {
        nestings: walk.nestings,
        list: walk.behind,
    }))
}
