// The longest ways from addresses of one owner, among those where at least so many sections are open.

ghost use Rattle.std.specs.Prelude.{◌≡◌, ◌<◌, ◌+◌, ◌^◌, IfOk, OnOk, length, slice_get, slice_set};
ghost use Rattle.rt_points.specs.Limits.{IsWithinLimits};
ghost use Rattle.rt_points.specs.Checked.{IsChecked};
ghost use Rattle.rt_judge.specs.Inside.Walks.{reached_by, IsSoundWalk};
ghost use Rattle.rt_bounds.specs.Inside.Aheads.{IsAhead};
ghost use Rattle.rt_bounds.specs.Inside.Ground.{IsMapped};
ghost use Rattle.rt_bounds.specs.Inside.Surveys as spec;

use crate::folds::Fold;
use crate::ground::depth_at;
use crate::longest::{Longest, MOST_STEPS};
use rt_code::{Image, Line};
use rt_ids::NoMemory;
use rt_judge::exits::{Exits, ends_init, exits_of, line_at};
use rt_judge::walk::Walk;
use rt_points::Owner;
use std::alloc::Global;

/// What is known of an address.
#[derive(Clone, Copy)]
pub enum Mark {
    /// It was not looked at.
    Unseen,
    /// It is on the trail.
    Open,
    /// The longest way from it has so many steps.
    Steps(u32),
    /// From it a loop is come to, at this address.
    Loop(u32),
}

/// What is known of the ways behind an instruction.
#[derive(Clone, Copy)]
pub enum Look {
    /// This address has to be looked at first.
    Unseen(u32),
    /// The longest has so many steps; 0 where there is none.
    Steps(u32),
    /// A loop is come to, at this address.
    Loop(u32),
}

/// Marks of addresses of one owner, and a trail of addresses each of which leads to the next.
#[derive(Drop)]
pub struct Survey {
    /// How many sections are open at least, at all points but those where ways begin.
    pub depth: usize,
    /// Where ways end, if they end before.
    pub goal: Option<u32>,
    pub marks: Vec<Mark>,
    /// The addresses that were looked at.
    pub seen: Vec<u32>,
    pub trail: Vec<u32>,
}

/// What a mark says of the ways from its address.
fn look_of(mark: Mark, address: u32) -> Look
    ensures { result ≡ spec.look_of mark address }
{
    match mark {
        Mark::Unseen => Look::Unseen(address),
        Mark::Open => Look::Loop(address),
        Mark::Steps(steps) => Look::Steps(steps),
        Mark::Loop(address) => Look::Loop(address),
    }
}

/// What is known of the ways behind an instruction, from what is known of its two exits.
fn both(one: Look, other: Look) -> Look
    ensures { result ≡ spec.both one other }
{
    match one {
        Look::Unseen(address) => Look::Unseen(address),
        Look::Loop(address) => match other {
            Look::Unseen(next) => Look::Unseen(next),
            Look::Loop(_) | Look::Steps(_) => Look::Loop(address),
        },
        Look::Steps(steps) => match other {
            Look::Unseen(next) => Look::Unseen(next),
            Look::Loop(address) => Look::Loop(address),
            Look::Steps(more) => Look::Steps(steps.max(more)),
        },
    }
}

/// So many steps more, the last one of them left aside; too many are told as a loop.
fn passed(look: Look, steps: u32, address: u32) -> Look
    ensures { result ≡ spec.passed look steps address }
{
    match look {
        Look::Unseen(next) => Look::Unseen(next),
        Look::Loop(inner) => Look::Loop(inner),
        Look::Steps(behind) => {
            let all = u64::from(behind) + u64::from(steps);
            if all <= u64::from(MOST_STEPS) {
                Look::Steps(all.saturating_sub(1) as u32)
            } else {
                Look::Loop(address)
            }
        }
    }
}

/// The fold of the loop of which an address is the head.
fn fold_at(folds: &[Option<Fold>], address: u32) -> Option<Fold>
    ensures { result ≡ spec.fold_by (slice_get folds.now address) }
{
    match folds.get(address as usize) {
        Some(fold) => *fold,
        None => None,
    }
}

impl Survey {
    /// Of an owner's code of this length, with nothing looked at.
    pub fn new(alloc: Global, length: usize, depth: usize) -> Result<Survey, NoMemory>
        ensures { IfOk result (spec.IsNewSurvey length depth) }
    {
        Ok(Survey {
            depth,
            goal: None,
            marks: Vec::from_elem(alloc, Mark::Unseen, length)?,
            seen: Vec::new(alloc),
            trail: Vec::new(alloc),
        })
    }

    /// Whether ways end at an address.
    fn is_goal(&self, address: u32) -> bool
        ensures { result ≡ spec.is_goal self.now.goal address }
    {
        match self.goal {
            Some(goal) => goal == address,
            None => false,
        }
    }

    /// What is known of the ways from an address, where enough sections are open.
    fn look_at(&self, walk: &Walk, address: u32) -> Look
        requires sound { IsSoundWalk walk.now }
        ensures { result ≡ spec.look_at (reached_by walk.now) self.now.depth self.now.goal self.now.marks.items
            address }
    {
        if self.is_goal(address) {
            Look::Steps(0)
        } else {
            self.look_where(walk, address)
        }
    }

    /// The same, where ways do not end there.
    fn look_where(&self, walk: &Walk, address: u32) -> Look
        requires sound { IsSoundWalk walk.now }
        ensures { result ≡ spec.look_where self.now.depth self.now.marks.items address
            (reached_by walk.now address) }
    {
        match depth_at(walk, address) {
            Some(depth) if self.depth <= depth => look_of(self.mark(address), address),
            _ => Look::Steps(0),
        }
    }

    /// The mark of an address.
    fn mark(&self, address: u32) -> Mark
        ensures { result ≡ spec.mark_at self.now.marks.items address }
    {
        match self.marks.get(address as usize) {
            Some(mark) => *mark,
            None => Mark::Unseen,
        }
    }

    /// What is known of the ways behind a line at an address.
    fn look_behind(&self, walk: &Walk, owner: Owner, line: &Line, address: u32) -> Look
        requires bound { address + 1 < 2 ^ 32 }
        requires sound { IsSoundWalk walk.now }
        ensures { result ≡ spec.look_behind (reached_by walk.now) self.now.depth self.now.goal self.now.marks.items
            owner line.now address }
    {
        if ends_init(&line.0, owner) {
            return Look::Steps(0);
        }
        match exits_of(&line.0, address) {
            Exits::Nowhere => Look::Steps(0),
            Exits::One(next) => self.look_at(walk, next),
            Exits::Two(next, other) => both(self.look_at(walk, next), self.look_at(walk, other)),
        }
    }

    /// What is known of the ways behind an address, where a loop that begins there is one step of many.
    fn look(
        &self,
        image: &Image,
        walk: &Walk,
        folds: &[Option<Fold>],
        owner: Owner,
        address: u32,
    ) -> Look
        requires limits { IsWithinLimits image.now }
        requires sound { IsSoundWalk walk.now }
        ensures { result ≡ spec.look_from image.now folds.now (reached_by walk.now) self.now.depth self.now.goal
            self.now.marks.items owner address }
    {
        match fold_at(folds, address) {
            Some(fold) => {
                if self.depth <= fold.depth {
                    self.look_over(walk, &fold)
                } else {
                    self.look_on(image, walk, owner, address)
                }
            }
            None => self.look_on(image, walk, owner, address),
        }
    }

    /// What is known of the ways behind the line at an address.
    fn look_on(&self, image: &Image, walk: &Walk, owner: Owner, address: u32) -> Look
        requires limits { IsWithinLimits image.now }
        requires sound { IsSoundWalk walk.now }
        ensures { result ≡ spec.look_by (reached_by walk.now) self.now.depth self.now.goal self.now.marks.items owner
            address (slice_get image.now.code address) }
    {
        match line_at(image, address) {
            Some(line) => self.look_behind(walk, owner, &line, address),
            None => Look::Steps(0),
        }
    }

    /// What is known of the ways behind the head of a folded loop.
    fn look_over(&self, walk: &Walk, fold: &Fold) -> Look
        requires sound { IsSoundWalk walk.now }
        ensures { result ≡ spec.look_over (reached_by walk.now) self.now.depth self.now.goal self.now.marks.items
            fold.now fold.now.longest }
    {
        match fold.longest {
            Longest::Steps(steps) => passed(self.look_at(walk, fold.out), steps, fold.again),
            Longest::Loop(address) => Look::Loop(address),
        }
    }

    /// Puts an address at the end of the trail.
    fn open(&mut self, address: u32) -> Result<(), NoMemory>
        requires { address < length self.old.marks.items }
        ensures { OnOk result (spec.IsOpened self.old self.new address) }
    {
        self.marks[address as usize] = Mark::Open;
        self.seen.push(address)?;
        self.trail.push(address)?;
        Ok(())
    }

    /// Marks an address.
    fn close(&mut self, address: u32, mark: Mark)
        requires { address < length self.old.marks.items }
        ensures depth { self.new.depth ≡ self.old.depth }
        ensures goal { self.new.goal ≡ self.old.goal }
        ensures marks { self.new.marks.items ≡ slice_set self.old.marks.items address mark }
        ensures seen { self.new.seen ≡ self.old.seen }
        ensures trail { self.new.trail ≡ self.old.trail }
    {
        self.marks[address as usize] = mark;
    }

    /// Puts an address back on the trail, and another behind it.
    fn go_on(&mut self, top: u32, next: u32) -> Result<(), NoMemory>
        requires { next < length self.old.marks.items }
        ensures { OnOk result (spec.IsGoneOn self.old self.new top next) }
    {
        self.trail.push(top)?;
        self.open(next)
    }

    /// Looks at all that a way from an address can come to.
    fn survey(
        &mut self,
        image: &Image,
        walk: &Walk,
        folds: &[Option<Fold>],
        owner: Owner,
        start: u32,
    ) -> Result<(), NoMemory>
        requires checked { IsChecked image.now }
        requires limits { IsWithinLimits image.now }
        requires mapped { IsMapped image.now owner walk.now }
        requires surveyed { spec.IsSurveyed image.now owner walk.now self.old }
        requires free { spec.IsOpenTo image.now owner (reached_by walk.now) folds.now self.old.depth self.old.goal
            start }
        requires unseen { spec.mark_at self.old.marks.items start ≡ Mark.Unseen }
        ensures { OnOk result (spec.IsSurveyedFrom image.now owner walk.now self.old self.new start) }
    {
        self.open(start)?;
        while let Some(top) = self.trail.pop() {
            match self.look(image, walk, folds, owner, top) {
                Look::Unseen(next) => self.go_on(top, next)?,
                Look::Steps(steps) => self.close(top, Mark::Steps(steps + 1)),
                Look::Loop(address) => self.close(top, Mark::Loop(address)),
            }
        }
        Ok(())
    }

    /// Ways end at an address from now on, and so many sections are open; what was known is forgotten for lines.
    pub fn begin(&mut self, goal: u32, depth: usize)
        ensures { spec.IsBegun self.old self.new goal depth }
    {
        self.goal = Some(goal);
        self.depth = depth;
    }

    /// Forgets what is known.
    pub fn forget(&mut self)
        requires { spec.IsListed self.old.marks.items self.old.seen.items }
        ensures { spec.IsForgotten self.old self.new }
    {
        while let Some(address) = self.seen.pop() {
            self.close(address, Mark::Unseen);
        }
    }

    /// What was found of an address that was looked at to the end.
    fn found(&self, address: u32) -> Longest
        requires { spec.IsDone (spec.mark_at self.now.marks.items address) }
        ensures { spec.mark_at self.now.marks.items address ≡ spec.mark_of result }
    {
        match self.mark(address) {
            Mark::Steps(steps) => Longest::Steps(steps),
            Mark::Loop(address) => Longest::Loop(address),
            Mark::Unseen | Mark::Open => unreachable!(),
        }
    }

    /// The longest way from an address, or a loop that is come to.
    pub fn longest_from(
        &mut self,
        image: &Image,
        walk: &Walk,
        folds: &[Option<Fold>],
        owner: Owner,
        start: u32,
    ) -> Result<Longest, NoMemory>
        requires checked { IsChecked image.now }
        requires limits { IsWithinLimits image.now }
        requires mapped { IsMapped image.now owner walk.now }
        requires surveyed { spec.IsSurveyed image.now owner walk.now self.old }
        requires free { spec.IsOpenTo image.now owner (reached_by walk.now) folds.now self.old.depth self.old.goal
            start }
        ensures surveyed { OnOk result (spec.IsSurveyed image.now owner walk.now self.new) }
        ensures depth { OnOk result (self.new.depth ≡ self.old.depth) }
        ensures goal { OnOk result (self.new.goal ≡ self.old.goal) }
        ensures longest { IfOk result (IsAhead image.now self.old.depth self.old.goal
            (spec.point_at owner (reached_by walk.now) start)) }
    {
        match self.mark(start) {
            Mark::Unseen => {
                self.survey(image, walk, folds, owner, start)?;
                Ok(self.found(start))
            }
            _ => Ok(self.found(start)),
        }
    }
}
