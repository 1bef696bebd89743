// All points of one owner of a checked image: what is open at each address that it comes to.

ghost use Rattle.std.specs.Prelude.{◌≡◌, IfOk, MatchBool, None, Some, option_map, length};
ghost use Rattle.rt_judge.specs.Inside.Tables.{found};
ghost use Rattle.rt_judge.specs.declared.nesting.Nesting.{Nesting as NestingView};
ghost use Rattle.rt_points.specs.Limits.{IsWithinLimits};
ghost use Rattle.rt_points.specs.Rules.{NestsInOneWay};
ghost use Rattle.rt_judge.specs.Inside.Visits.{spots_of, AreSound};
ghost use Rattle.rt_judge.specs.Inside.Walks.{ArePoints, IsSoundWalk, reached_by};
ghost use Rattle.rt_bounds.specs.Inside.Ground as spec;

use rt_code::Image;
use rt_ids::NoMemory;
use rt_judge::nesting::Nesting;
use rt_judge::table::NestingTable;
use rt_judge::walk::{Visit, Visits, Walk};
use rt_points::Owner;
use std::alloc::Global;

/// Whether a walk has not come to the address of a visit.
fn is_new(walk: &Walk, visit: Visit) -> bool
    ensures { MatchBool result (found walk.now.table visit.address ≡ None)
        ((known : NestingView) × (found walk.now.table visit.address ≡ Some known)) }
{
    match walk.table.find(visit.address) {
        Some(_) => false,
        None => true,
    }
}

/// Walks from these visits to all points that an owner comes to.
pub fn walk_from(
    alloc: Global,
    image: &Image,
    owner: Owner,
    starts: Visits,
) -> Result<Walk, NoMemory>
    requires limits { IsWithinLimits image.now }
    requires nests { NestsInOneWay image.now }
    requires sound { AreSound starts }
    requires points { ArePoints image.now owner (spots_of starts) }
    ensures { IfOk result (spec.IsGround image.now owner (spots_of starts)) }
{
    let mut walk = Walk {
        nestings: starts.nestings,
        table: NestingTable::new(alloc, image.code.len())?,
        waiting: starts.list,
        behind: Vec::new(alloc),
    };
    while let Some(visit) = walk.waiting.pop() {
        if is_new(&walk, visit) {
            walk.take_in(image, owner, visit)?;
        }
    }
    Ok(walk)
}

/// How many sections are open at an address, where a walk came to it.
pub fn depth_at(walk: &Walk, address: u32) -> Option<usize>
    requires { IsSoundWalk walk.now }
    ensures { result ≡ option_map length (reached_by walk.now address) }
{
    match walk.table.find(address) {
        Some(nesting) => Some(walk.nestings.open_sections(nesting).len()),
        None => None,
    }
}

/// How many sections are open where the most are.
pub fn most_open(walk: &Walk) -> usize
    requires { IsSoundWalk walk.now }
    ensures { spec.IsMostOpen walk.now result }
{
    let mut most = 0;
    for row in &walk.table.rows {
        most = most.max(depth_of(row));
    }
    most
}

/// How many sections a nesting has, where there is one.
fn depth_of(row: &Option<Nesting>) -> usize
    ensures { result ≡ spec.depth_of row.now }
{
    match *row {
        Some(nesting) => nesting.end.saturating_sub(nesting.start),
        None => 0,
    }
}
