// Looks for a point of an image, owner by owner: `init`, the thread behind it, then the handlers in the order of rows.

ghost use Rattle.std.specs.Prelude.{[], ◌∷◌, IfOk, ⊤};
ghost use Rattle.rt_points.specs.Leading.{IsPoint, starts_at};
ghost use Rattle.rt_points.specs.Limits.{IsWithinLimits};
ghost use Rattle.rt_points.specs.Point.{Point as PointOf};
ghost use Rattle.rt_points.specs.Rules.{NestsInOneWay};
ghost use Rattle.rt_judge.specs.Inside.Looks as look;
ghost use Rattle.rt_judge.specs.Inside.Visits.{spots_of, AreSound};
ghost use Rattle.rt_judge.specs.Inside.Walks.{ArePoints};
ghost use Rattle.rt_why.specs.Inside.Searches as spec;
ghost use Rattle.rt_why.specs.Inside.Wanted.{IsWanted, IsUnwanted};

use crate::point::Point;
use crate::walk::{Course, walk_from};
use crate::wanted::Wanted;
use crate::witness::Witness;
use rt_code::Image;
use rt_ids::NoMemory;
use rt_judge::execution_priority::handler_at;
use rt_judge::verdict::start;
use rt_judge::walk::Visits;
use rt_points::Owner;
use std::alloc::Global;

/// What a search finds.
#[derive(Drop)]
pub enum Outcome {
    /// No point is looked for, and the first rule is kept, by these owners.
    Nothing,
    /// A point that is looked for.
    Found(Point),
    /// A witness that the first rule is broken.
    Split(Witness),
}

/// Looks for a point of the thread, from where `init` ends.
fn search_behind(
    alloc: Global,
    image: &Image,
    behind: Visits,
    wanted: &Wanted,
) -> Result<Outcome, NoMemory>
    requires limits { IsWithinLimits image.now }
    requires sound { AreSound behind }
    requires points { ArePoints image.now Owner.Thread (spots_of behind) }
    ensures { IfOk result (spec.SearchesFrom image.now Owner.Thread (spots_of behind) wanted.now) }
{
    match walk_from(alloc, image, Owner::Thread, behind, wanted)? {
        Course::Ended(_) => Ok(Outcome::Nothing),
        Course::Found(point) => Ok(Outcome::Found(point)),
        Course::Split(witness) => Ok(Outcome::Split(witness)),
    }
}

/// Looks for a point of `init` or the thread.
fn search_thread(alloc: Global, image: &Image, wanted: &Wanted) -> Result<Outcome, NoMemory>
    requires { IsWithinLimits image.now }
    ensures { IfOk result (spec.Searches image.now look.IsThread wanted.now) }
{
    let starts = start(alloc, 0)?;
    match walk_from(alloc, image, Owner::Starting, starts, wanted)? {
        Course::Ended(behind) => search_behind(alloc, image, behind, wanted),
        Course::Found(point) => Ok(Outcome::Found(point)),
        Course::Split(witness) => Ok(Outcome::Split(witness)),
    }
}

/// Looks for a point of a handler, from its entry.
fn search_from_entry(
    alloc: Global,
    image: &Image,
    index: usize,
    entry: u32,
    wanted: &Wanted,
) -> Result<Outcome, NoMemory>
    requires limits { IsWithinLimits image.now }
    requires point { IsPoint image.now (starts_at entry (Owner.Handling index)) }
    ensures { IfOk result (spec.SearchesFrom image.now (Owner.Handling index)
        (record { address = entry; inside = [] } ∷ []) wanted.now) }
{
    let starts = start(alloc, entry)?;
    match walk_from(alloc, image, Owner::Handling(index), starts, wanted)? {
        Course::Ended(_) => Ok(Outcome::Nothing),
        Course::Found(point) => Ok(Outcome::Found(point)),
        Course::Split(witness) => Ok(Outcome::Split(witness)),
    }
}

/// Looks for a point of a handler, where it is enabled.
fn search_handler(
    alloc: Global,
    image: &Image,
    index: usize,
    wanted: &Wanted,
) -> Result<Outcome, NoMemory>
    requires { IsWithinLimits image.now }
    ensures { IfOk result (spec.Searches image.now (look.IsOf index) wanted.now) }
{
    match handler_at(image, index) {
        Some(handler) => search_from_entry(alloc, image, index, handler.entry, wanted),
        None => Ok(Outcome::Nothing),
    }
}

/// Looks for a point of an image.
pub fn search(alloc: Global, image: &Image, wanted: &Wanted) -> Result<Outcome, NoMemory>
    requires { IsWithinLimits image.now }
    ensures { IfOk result (spec.SearchesAll image.now wanted.now) }
{
    match search_thread(alloc, image, wanted)? {
        Outcome::Nothing => {}
        found => return Ok(found),
    }
    for index in 0..image.irqs.len() {
        match search_handler(alloc, image, index, wanted)? {
            Outcome::Nothing => {}
            found => return Ok(found),
        }
    }
    Ok(Outcome::Nothing)
}

/// Looks for a point of one owner; `init` and the thread behind it are one.
pub fn search_owner(
    alloc: Global,
    image: &Image,
    owner: Owner,
    wanted: &Wanted,
) -> Result<Outcome, NoMemory>
    requires { IsWithinLimits image.now }
    ensures { IfOk result (spec.Finds image.now wanted.now ⊤) }
{
    match owner {
        Owner::Starting | Owner::Thread => search_thread(alloc, image, wanted),
        Owner::Handling(index) => search_handler(alloc, image, index, wanted),
    }
}

/// The point that is looked for, where there is one.
pub fn point_wanted(alloc: Global, image: &Image, wanted: &Wanted) -> Result<Point, NoMemory>
    requires limits { IsWithinLimits image.now }
    requires nests { NestsInOneWay image.now }
    requires there { ¬ ((p : PointOf) → IsPoint image.now p → IsUnwanted image.now wanted.now p) }
    ensures { IfOk result (λ p. IsPoint image.now p × IsWanted image.now wanted.now p) }
{
    match search(alloc, image, wanted)? {
        Outcome::Found(point) => Ok(point),
        Outcome::Nothing | Outcome::Split(_) => unreachable!(),
    }
}

/// The same, where it is likely that it is this owner's.
pub fn point_near(
    alloc: Global,
    image: &Image,
    owner: Option<Owner>,
    wanted: &Wanted,
) -> Result<Point, NoMemory>
    requires limits { IsWithinLimits image.now }
    requires nests { NestsInOneWay image.now }
    requires there { ¬ ((p : PointOf) → IsPoint image.now p → IsUnwanted image.now wanted.now p) }
    ensures { IfOk result (λ p. IsPoint image.now p × IsWanted image.now wanted.now p) }
{
    if let Some(likely) = owner {
        match search_owner(alloc, image, likely, wanted)? {
            Outcome::Found(point) => return Ok(point),
            Outcome::Nothing | Outcome::Split(_) => {}
        }
    }
    point_wanted(alloc, image, wanted)
}
