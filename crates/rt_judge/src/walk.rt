// Follows the code of one owner through all its points.

ghost use Rattle.std.specs.Prelude.{◌≡◌, ◌<◌, ◌+◌, ◌^◌, not, IfOk, OnOk, MatchOption, Some, None};
ghost use Rattle.rt_code.specs.Image.{Image as ImageView};
ghost use Rattle.rt_points.specs.Limits.{IsWithinLimits};
ghost use Rattle.rt_points.specs.Rules.{NestsInOneWay};
ghost use Rattle.rt_points.specs.declared.point.Owner.{Owner as PointOwner};
ghost use Rattle.rt_judge.specs.Inside.Nestings.{Stands};
ghost use Rattle.rt_judge.specs.Inside.Tables.{found};
ghost use Rattle.rt_judge.specs.Inside.Visits.{spot_in, spots_of, AreSound};
ghost use Rattle.rt_judge.specs.Inside.Walks as spec;
ghost use Rattle.rt_judge.specs.Inside.Looks.{LooksFrom};

use crate::exits::{Exits, ends_init, exits_of, line_at};
use crate::findings::Findings;
use crate::nesting::{Nesting, Nestings};
use crate::table::NestingTable;
use rt_code::{Image, Line};
use rt_ids::NoMemory;
use rt_points::{MOST_OPEN, Owner};
use std::alloc::Global;

/// An address with the sections that are open there.
#[derive(Clone, Copy)]
pub struct Visit {
    pub address: u32,
    pub nesting: Nesting,
}

/// Visits of one owner, with the nestings that they name.
#[derive(Drop)]
pub struct Visits {
    pub nestings: Nestings,
    pub list: Vec<Visit>,
}

/// The walk through an owner's code.
#[derive(Drop)]
pub struct Walk {
    /// The nestings that the table and the visits name.
    pub nestings: Nestings,
    /// The addresses that were come to, each with the sections that are open there.
    pub table: NestingTable,
    /// What is yet to be looked at.
    pub waiting: Vec<Visit>,
    /// Where another owner goes on.
    pub behind: Vec<Visit>,
}

/// What a visit is to the table of a walk.
#[derive(Clone, Copy)]
pub enum Meeting {
    /// The walk has not come to this address.
    New,
    /// It has come to this address, with the same sections open.
    Known,
    /// Other sections are open at this address on another way, or too many are.
    Ambiguous,
}

impl Walk {
    /// What a visit is to the table.
    fn meet(&self, visit: Visit) -> Meeting
        requires sound { spec.IsSoundWalk self.now }
        requires stands { Stands self.now.nestings.opened.items visit.nesting }
        ensures { (img : ImageView) (owner : PointOwner) → spec.Meets img owner (spec.reached_by self.now)
            (spot_in self.now.nestings.opened.items visit) result }
    {
        if self.nestings.open_sections(visit.nesting).len() > MOST_OPEN {
            return Meeting::Ambiguous;
        }
        match self.table.find(visit.address) {
            None => Meeting::New,
            Some(known) => {
                if self.nestings.are_same(known, visit.nesting) {
                    Meeting::Known
                } else {
                    Meeting::Ambiguous
                }
            }
        }
    }

    /// Goes to a visit, where another owner goes on or not.
    fn go(&mut self, is_end: bool, visit: Visit) -> Result<(), NoMemory>
        ensures nestings { self.new.nestings ≡ self.old.nestings }
        ensures table { self.new.table ≡ self.old.table }
        ensures waiting { OnOk result (self.new.waiting.items ≡ spec.more (not is_end) visit self.old.waiting.items) }
        ensures behind { OnOk result (self.new.behind.items ≡ spec.more is_end visit self.old.behind.items) }
    {
        if is_end {
            self.behind.push(visit)?;
        } else {
            self.waiting.push(visit)?;
        }
        Ok(())
    }

    /// Goes from a visit over its line wherever it leads.
    fn follow_line(&mut self, owner: Owner, line: &Line, visit: Visit) -> Result<(), NoMemory>
        requires bound { visit.address + 1 < 2 ^ 32 }
        requires sound { spec.IsSoundWalk self.old }
        requires stands { Stands self.old.nestings.opened.items visit.nesting }
        ensures { OnOk result (let spot = spot_in self.old.nestings.opened.items visit in
            spec.IsFollowed self.old self.new (spec.waits_by (Some line.now) owner spot)
            (spec.behind_by (Some line.now) owner spot)) }
    {
        let is_end = ends_init(&line.0, owner);
        match exits_of(&line.0, visit.address) {
            Exits::Nowhere => Ok(()),
            Exits::One(address) => {
                let nesting = self.nestings.behind(line.0, line.1, visit.nesting)?;
                self.go(is_end, Visit { address, nesting })
            }
            Exits::Two(address, other) => {
                let nesting = self.nestings.behind(line.0, line.1, visit.nesting)?;
                self.go(is_end, Visit { address, nesting })?;
                self.go(
                    is_end,
                    Visit {
                        address: other,
                        nesting,
                    },
                )
            }
        }
    }

    /// Goes wherever a visit leads.
    fn follow(&mut self, image: &Image, owner: Owner, visit: Visit) -> Result<(), NoMemory>
        requires limits { IsWithinLimits image.now }
        requires sound { spec.IsSoundWalk self.old }
        requires stands { Stands self.old.nestings.opened.items visit.nesting }
        ensures { OnOk result (let spot = spot_in self.old.nestings.opened.items visit in
            spec.IsFollowed self.old self.new (spec.waits image.now owner spot)
            (spec.goes_behind image.now owner spot)) }
    {
        match line_at(image, visit.address) {
            Some(line) => self.follow_line(owner, &line, visit),
            None => Ok(()),
        }
    }

    /// Takes in a new visit.
    pub fn take_in(&mut self, image: &Image, owner: Owner, visit: Visit) -> Result<(), NoMemory>
        requires limits { IsWithinLimits image.now }
        requires sound { spec.IsSoundWalk self.old }
        requires stands { Stands self.old.nestings.opened.items visit.nesting }
        requires new { found self.old.table visit.address ≡ None }
        ensures { OnOk result (spec.IsTakenIn image.now owner (spec.reached_by self.old) self.old.table.rows.items
            (spec.waiting_in self.old) (spec.behind_in self.old) self.new
            (spot_in self.old.nestings.opened.items visit)) }
    {
        self.table.put(visit.address, visit.nesting)?;
        self.follow(image, owner, visit)
    }
}

/// The addresses that an owner comes to from these visits, or None where two ways to one of them have other sections
/// open, or too many are.
pub fn walk_from(
    alloc: Global,
    image: &Image,
    findings: &mut Findings,
    owner: Owner,
    starts: Visits,
) -> Result<Option<Visits>, NoMemory>
    requires limits { IsWithinLimits image.now }
    requires sound { AreSound starts }
    requires points { spec.ArePoints image.now owner (spots_of starts) }
    ensures { IfOk result (λ behind. MatchOption behind (¬ NestsInOneWay image.now)
        (LooksFrom image.now owner (spots_of starts) findings.old findings.new)) }
{
    let mut walk = Walk {
        nestings: starts.nestings,
        table: NestingTable::new(alloc, image.code.len())?,
        waiting: starts.list,
        behind: Vec::new(alloc),
    };
    while let Some(visit) = walk.waiting.pop() {
        match walk.meet(visit) {
            Meeting::New => {
                let opened = walk.nestings.open_sections(visit.nesting);
                findings.take_point(alloc, image, owner, visit.address, opened)?;
                walk.take_in(image, owner, visit)?;
            }
            Meeting::Known => {}
            Meeting::Ambiguous => return Ok(None),
        }
    }
    Ok(Some(Visits {
        nestings: walk.nestings,
        list: walk.behind,
    }))
}
