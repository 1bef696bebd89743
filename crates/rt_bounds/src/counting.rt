// Loops that count: where they are, and how often they turn.

ghost use Rattle.std.specs.Prelude.{◌≡◌, ◌<◌, ◌≤◌, ◌+◌, ◌^◌, ℕ, length, slice_get, MatchBool, MatchOption, Option, Some};
ghost use Rattle.rt_points.specs.Checked.{IsChecked};
ghost use Rattle.rt_points.specs.Limits.{IsWithinLimits};
ghost use Rattle.rt_points.specs.declared.point.Owner.{Owner as OwnerView};
ghost use Rattle.rt_judge.specs.Inside.Tables.{found};
ghost use Rattle.rt_bounds.specs.Inside.Ground.{IsMapped};
ghost use Rattle.rt_bounds.specs.Inside.Inners.{AreInners};
ghost use Rattle.rt_bounds.specs.Inside.Inners as inner;
ghost use Rattle.rt_bounds.specs.Inside.Shapes as shapes;
ghost use Rattle.rt_bounds.specs.Inside.Sources.{AreSources};
ghost use Rattle.rt_code.specs.declared.instr.Instr.TheVariants as instr;
ghost use Rattle.rt_code.specs.declared.instr.Note.{Note as NoteView};
ghost use Rattle.rt_bounds.specs.Counting as def;
ghost use Rattle.rt_bounds.specs.Inside.Writtens as writtens;
ghost use Rattle.rt_code.specs.Image.{Image as ImageView};
ghost use Rattle.rt_bounds.specs.Inside.Countings as spec;
ghost use Rattle.rt_bounds.specs.declared.counting.Comparison.{Comparison as ComparisonView};
ghost use Rattle.rt_bounds.specs.declared.counting.Writers.TheVariants as writers;

use crate::changing::{change_at, is_changed, is_changed_after, is_comparison};
use crate::holding::{held_after, held_at};
use crate::shape::{Exit, Inner, Lines, jump_at, lines_back};
use crate::sources::{Sources, is_only_from};
use crate::turns::turns_of;
use crate::written::Written;
use rt_code::{Image, Instr};
use rt_ids::Op;
use rt_judge::exits::{Exits, exits_of, line_at};
use rt_judge::walk::Walk;
use rt_points::Owner;

/// Where a loop is. Addresses are of one owner's code.
#[derive(Clone, Copy, Debug, PartialEq, Eq)]
pub struct Place {
    /// The line that the jump back leads to.
    pub first: u32,
    /// The jump back.
    pub last: u32,
    /// Where the line before the loop leads to.
    pub head: u32,
    /// The jump that leads out of the loop.
    pub jump: u32,
    /// Where it goes on.
    pub stay: u32,
    /// And where it leads out.
    pub out: u32,
}

/// A loop that counts.
#[derive(Clone, Copy, Debug, PartialEq, Eq)]
pub struct CountingLoop {
    pub place: Place,
    /// How often its jump goes on before it leads out.
    pub turns: u32,
}

/// Whether each turn adds to the counter or subtracts from it.
#[derive(Clone, Copy, Debug, PartialEq, Eq)]
pub enum Direction {
    Rises,
    Falls,
}

/// What the jump of a loop looks at.
#[derive(Clone, Copy, Debug, PartialEq, Eq)]
pub enum Test {
    /// The counter.
    Itself,
    /// Whether the counter compares so with this constant.
    Compared(Op, u32),
    /// Whether this constant compares so with the counter.
    ComparedWith(Op, u32),
}

/// A change of a counter, by what a slot holds.
#[derive(Clone, Copy, Debug, PartialEq, Eq)]
pub struct Change {
    pub direction: Direction,
    pub by: u32,
}

/// A comparison of two slots.
#[derive(Clone, Copy, Debug, PartialEq, Eq)]
pub struct Comparison {
    pub op: Op,
    pub one: u32,
    pub other: u32,
}

/// Which of some lines write a slot.
#[derive(Clone, Copy, Debug, PartialEq, Eq)]
enum Writers {
    Nobody,
    One(u32),
    Several,
}

impl Place {
    /// Whether an address is in the loop.
    fn has(&self, address: u32) -> bool
        ensures { result ≡ spec.has_line self.now address }
    {
        self.first <= address && address <= self.last
    }

    /// Which lines write a slot: of those that write it from the first line on, the ones that the owner comes to.
    fn writers(&self, walk: &Walk, written: &[Written], slot: u32) -> Writers
        requires order { writtens.AreInOrder written.now }
        ensures { (image : ImageView) → writtens.HasWriters image written.now (length image.code)
            → spec.AreWriters image walk.now self.now slot result }
    {
        let first = self.first;
        let from = written.partition_point(|row| {
            row.slot < slot || row.slot == slot && row.address < first
        });
        let mut found = Writers::Nobody;
        for index in from..written.len() {
            let row = written[index];
            if row.slot != slot || self.last < row.address {
                return found;
            }
            if walk.table.find(row.address).is_some() {
                match found {
                    Writers::Nobody => found = Writers::One(row.address),
                    Writers::One(_) | Writers::Several => return Writers::Several,
                }
            }
        }
        found
    }

    /// What a slot holds at an address of the loop, if that is a constant.
    fn constant(
        &self,
        image: &Image,
        walk: &Walk,
        written: &[Written],
        sources: &[Sources],
        address: u32,
        slot: u32,
    ) -> Option<u32>
        requires written { writtens.AreAllWritten image.now written.now }
        requires first { 0 < self.now.first }
        requires last { self.now.last + 1 < 2 ^ 32 }
        ensures { (owner : OwnerView) → IsMapped image.now owner walk.now → AreSources image.now owner sources.now
            → MatchOption result ((value : ℕ) → ¬ def.IsConstant image.now owner self.now address slot value)
            (λ value. def.IsConstant image.now owner self.now address slot value) }
    {
        match held_at(image, sources, address, slot) {
            Some(value) => Some(value),
            None => match self.writers(walk, written, slot) {
                Writers::Nobody => held_after(image, sources, self.first - 1, slot),
                Writers::One(_) => None,
                Writers::Several => None,
            },
        }
    }

    /// The comparison on which the jump is, if it is on one.
    fn comparison(&self, image: &Image, sources: &[Sources], slot: u32) -> Option<Comparison>
        ensures { MatchOption result
            ((compared : ComparisonView) → ¬ spec.IsComparison image.now sources.now self.now slot compared)
            (spec.IsComparison image.now sources.now self.now slot) }
    {
        let jump = self.jump;
        if jump == 0 || !is_only_from(sources, jump - 1, jump) {
            return None;
        }
        match line_at(image, jump - 1) {
            Some((Instr::Calc(op, to, one, other), _)) if to == slot && is_comparison(op) => {
                Some(Comparison { op, one, other })
            }
            _ => None,
        }
    }

    /// Whether the line at an address leads in the loop where the counter was changed as often.
    fn is_once_at(&self, image: &Image, walk: &Walk, change: u32, address: u32) -> bool
        requires { IsWithinLimits image.now }
        ensures { MatchBool result (spec.IsOnceAt image.now walk.now self.now change address)
            (¬ spec.IsOnceAt image.now walk.now self.now change address) }
    {
        match (line_at(image, address), walk.table.find(address)) {
            (Some(line), Some(_)) => {
                let after = is_changed_after(self.jump, change, address);
                match exits_of(&line.0, address) {
                    Exits::Nowhere => true,
                    Exits::One(to) => self.is_so(change, to, after),
                    Exits::Two(to, other) => {
                        self.is_so(change, to, after) && self.is_so(change, other, after)
                    }
                }
            }
            _ => true,
        }
    }

    /// Whether it is so that the counter was changed at an address, or the loop is left.
    fn is_so(&self, change: u32, address: u32, changed: bool) -> bool
        ensures { MatchBool result
            (def.IsInside self.now address → def.is_changed self.now.jump change address ≡ changed)
            (¬ (def.IsInside self.now address → def.is_changed self.now.jump change address ≡ changed)) }
    {
        !self.has(address) || is_changed(self.jump, change, address) == changed
    }

    /// The line that stands for those from an address on: the jump of a loop that begins there and has neither the
    /// change nor the jump of this one, or the line itself.
    fn stride(&self, inners: &[Option<Inner>], change: u32, address: u32) -> Inner
        requires { address ≤ self.now.last }
        ensures { inner.IsAside (spec.lines_of_place self.now) inners.now change self.now.jump address result }
    {
        let lines = Lines {
            first: self.first,
            last: self.last,
        };
        let stride = lines.stride(inners, address);
        let inside = Lines {
            first: address,
            last: stride.last,
        };
        if inside.has(change) || inside.has(self.jump) {
            Inner {
                last: address,
                jump: address,
            }
        } else {
            stride
        }
    }

    /// Whether the counter is changed once in each turn.
    fn is_once(&self, image: &Image, walk: &Walk, inners: &[Option<Inner>], change: u32) -> bool
        requires inners { inner.All (inner.IsStaying image.now walk.now) inners.now }
        requires limits { IsWithinLimits image.now }
        requires last { self.now.last + 1 < 2 ^ 32 }
        ensures { MatchBool result (spec.IsOnce image.now walk.now self.now change)
            (¬ spec.IsOnce image.now walk.now self.now change) }
    {
        let mut address = self.first;
        while address <= self.last {
            let stride = self.stride(inners, change, address);
            if !self.is_once_at(image, walk, change, stride.jump) {
                return false;
            }
            address = stride.last + 1;
        }
        is_changed(self.jump, change, self.head)
    }

    /// How often the loop turns, where this slot is its counter and the jump looks at it so.
    fn turns_by(
        &self,
        image: &Image,
        walk: &Walk,
        written: &[Written],
        sources: &[Sources],
        inners: &[Option<Inner>],
        counter: u32,
        test: Test,
    ) -> Option<u32>
        requires written { writtens.AreAllWritten image.now written.now }
        requires inners { inner.All (inner.IsStaying image.now walk.now) inners.now }
        requires limits { IsWithinLimits image.now }
        requires first { 0 < self.now.first }
        requires last { self.now.last + 1 < 2 ^ 32 }
        requires jump { self.now.jump ≤ self.now.last }
        ensures { (owner : OwnerView) → IsMapped image.now owner walk.now → AreSources image.now owner sources.now
            → def.IsLoop image.now owner self.now → spec.MatchTurns image.now owner self.now counter test result }
    {
        match self.writers(walk, written, counter) {
            Writers::One(at) => self.turns_by_line(
                image, walk, written, sources, inners, counter, test, at,
            ),
            Writers::Nobody => None,
            Writers::Several => None,
        }
    }

    /// The same, where one line alone writes the counter.
    fn turns_by_line(
        &self,
        image: &Image,
        walk: &Walk,
        written: &[Written],
        sources: &[Sources],
        inners: &[Option<Inner>],
        counter: u32,
        test: Test,
        at: u32,
    ) -> Option<u32>
        requires written { writtens.AreAllWritten image.now written.now }
        requires inners { inner.All (inner.IsStaying image.now walk.now) inners.now }
        requires limits { IsWithinLimits image.now }
        requires first { 0 < self.now.first }
        requires last { self.now.last + 1 < 2 ^ 32 }
        requires jump { self.now.jump ≤ self.now.last }
        requires writer { spec.AreWriters image.now walk.now self.now counter (writers.One at) }
        ensures { (owner : OwnerView) → IsMapped image.now owner walk.now → AreSources image.now owner sources.now
            → def.IsLoop image.now owner self.now → spec.MatchTurns image.now owner self.now counter test result }
    {
        match change_at(image, at, counter) {
            Some(change) => {
                if self.is_once(image, walk, inners, at) {
                    self.turns_by_change(image, walk, written, sources, counter, test, at, change)
                } else {
                    None
                }
            }
            None => None,
        }
    }

    /// The same, where that line changes it so, once in each turn.
    fn turns_by_change(
        &self,
        image: &Image,
        walk: &Walk,
        written: &[Written],
        sources: &[Sources],
        counter: u32,
        test: Test,
        at: u32,
        change: Change,
    ) -> Option<u32>
        requires written { writtens.AreAllWritten image.now written.now }
        requires first { 0 < self.now.first }
        requires last { self.now.last + 1 < 2 ^ 32 }
        requires jump { self.now.jump ≤ self.now.last }
        requires writer { spec.AreWriters image.now walk.now self.now counter (writers.One at) }
        requires change { spec.IsChangeAt image.now at counter change }
        requires once { spec.IsOnce image.now walk.now self.now at }
        ensures { (owner : OwnerView) → IsMapped image.now owner walk.now → AreSources image.now owner sources.now
            → def.IsLoop image.now owner self.now → spec.MatchTurns image.now owner self.now counter test result }
    {
        match self.constant(image, walk, written, sources, at, change.by) {
            Some(step) => match held_after(image, sources, self.first - 1, counter) {
                Some(start) => {
                    let jump = self.jump;
                    let is_not_0 = self.stay == jump + 1;
                    turns_of(change.direction, start, step, test, is_not_0)
                }
                None => None,
            },
            None => None,
        }
    }

    /// How often the loop turns by a comparison.
    fn turns_by_comparison(
        &self,
        image: &Image,
        walk: &Walk,
        written: &[Written],
        sources: &[Sources],
        inners: &[Option<Inner>],
        comparison: Comparison,
    ) -> Option<u32>
        requires written { writtens.AreAllWritten image.now written.now }
        requires inners { inner.All (inner.IsStaying image.now walk.now) inners.now }
        requires limits { IsWithinLimits image.now }
        requires first { 0 < self.now.first }
        requires last { self.now.last + 1 < 2 ^ 32 }
        requires jump { self.now.jump ≤ self.now.last }
        requires behind { 0 < self.now.jump }
        ensures { (owner : OwnerView) → IsMapped image.now owner walk.now → AreSources image.now owner sources.now
            → def.IsLoop image.now owner self.now → (slot : ℕ)
            → spec.IsComparison image.now sources.now self.now slot comparison
            → spec.MatchCounts image.now owner self.now slot result }
    {
        match self.constant(
            image,
            walk,
            written,
            sources,
            self.jump - 1,
            comparison.other,
        ) {
            Some(limit) => {
                let test = Test::Compared(comparison.op, limit);
                self.turns_by(image, walk, written, sources, inners, comparison.one, test)
            }
            None => match self.constant(
                image,
                walk,
                written,
                sources,
                self.jump - 1,
                comparison.one,
            ) {
                Some(limit) => {
                    let test = Test::ComparedWith(comparison.op, limit);
                    self.turns_by(
                        image,
                        walk,
                        written,
                        sources,
                        inners,
                        comparison.other,
                        test,
                    )
                }
                None => None,
            },
        }
    }

    /// How often the loop turns by what its jump looks at, which is this slot.
    fn turns_on(
        &self,
        image: &Image,
        walk: &Walk,
        written: &[Written],
        sources: &[Sources],
        inners: &[Option<Inner>],
        slot: u32,
    ) -> Option<u32>
        requires written { writtens.AreAllWritten image.now written.now }
        requires inners { inner.All (inner.IsStaying image.now walk.now) inners.now }
        requires limits { IsWithinLimits image.now }
        requires first { 0 < self.now.first }
        requires last { self.now.last + 1 < 2 ^ 32 }
        requires jump { self.now.jump ≤ self.now.last }
        ensures { (owner : OwnerView) → IsMapped image.now owner walk.now → AreSources image.now owner sources.now
            → def.IsLoop image.now owner self.now → spec.MatchCounts image.now owner self.now slot result }
    {
        match self.comparison(image, sources, slot) {
            Some(comparison) => self.turns_by_comparison(
                image, walk, written, sources, inners, comparison,
            ),
            None => self.turns_by(image, walk, written, sources, inners, slot, Test::Itself),
        }
    }

    /// How often the loop turns, if it counts.
    fn counted(
        &self,
        image: &Image,
        walk: &Walk,
        written: &[Written],
        sources: &[Sources],
        inners: &[Option<Inner>],
    ) -> Option<u32>
        requires written { writtens.AreAllWritten image.now written.now }
        requires inners { inner.All (inner.IsStaying image.now walk.now) inners.now }
        requires limits { IsWithinLimits image.now }
        requires first { 0 < self.now.first }
        requires last { self.now.last + 1 < 2 ^ 32 }
        requires jump { self.now.jump ≤ self.now.last }
        ensures { (owner : OwnerView) → IsMapped image.now owner walk.now → AreSources image.now owner sources.now
            → def.IsLoop image.now owner self.now → (slot to : ℕ) (told : Option NoteView)
            → slice_get image.now.code self.now.jump ≡ Some (instr.JumpZ slot to, told)
            → spec.MatchCounts image.now owner self.now slot result }
    {
        match jump_at(image, self.jump) {
            Some(slot) => self.turns_on(image, walk, written, sources, inners, slot),
            None => None,
        }
    }
}

/// The loop that the line at an address jumps back in, if it counts.
pub fn counting_at(
    image: &Image,
    walk: &Walk,
    written: &[Written],
    owner: Owner,
    sources: &[Sources],
    inners: &[Option<Inner>],
    last: u32,
) -> Option<CountingLoop>
    requires written { writtens.AreAllWritten image.now written.now }
    requires checked { IsChecked image.now }
    requires limits { IsWithinLimits image.now }
    requires mapped { IsMapped image.now owner walk.now }
    requires sources { AreSources image.now owner sources.now }
    requires inners { AreInners image.now owner walk.now sources.now inners.now }
    requires last { last < length image.now.code }
    ensures { spec.MatchLoop image.now owner last result }
{
    match lines_back(image, walk, last) {
        Some(lines) => counting_in(image, walk, written, owner, sources, inners, lines),
        None => None,
    }
}

/// The loop of these lines, if it counts.
fn counting_in(
    image: &Image,
    walk: &Walk,
    written: &[Written],
    owner: Owner,
    sources: &[Sources],
    inners: &[Option<Inner>],
    lines: Lines,
) -> Option<CountingLoop>
    requires written { writtens.AreAllWritten image.now written.now }
    requires checked { IsChecked image.now }
    requires limits { IsWithinLimits image.now }
    requires mapped { IsMapped image.now owner walk.now }
    requires sources { AreSources image.now owner sources.now }
    requires inners { AreInners image.now owner walk.now sources.now inners.now }
    requires last { lines.last < length image.now.code }
    requires back { Some lines
        ≡ shapes.lines_at lines.last (slice_get image.now.code lines.last) (found walk.now.table lines.last) }
    ensures { spec.MatchLoop image.now owner lines.last result }
{
    match lines.head(image, walk, owner) {
        Some(head) => counting_from(image, walk, written, owner, sources, inners, lines, head),
        None => None,
    }
}

/// The loop of these lines, which are come to at this head, if it counts.
fn counting_from(
    image: &Image,
    walk: &Walk,
    written: &[Written],
    owner: Owner,
    sources: &[Sources],
    inners: &[Option<Inner>],
    lines: Lines,
    head: u32,
) -> Option<CountingLoop>
    requires written { writtens.AreAllWritten image.now written.now }
    requires checked { IsChecked image.now }
    requires limits { IsWithinLimits image.now }
    requires mapped { IsMapped image.now owner walk.now }
    requires sources { AreSources image.now owner sources.now }
    requires inners { AreInners image.now owner walk.now sources.now inners.now }
    requires last { lines.last < length image.now.code }
    requires back { Some lines
        ≡ shapes.lines_at lines.last (slice_get image.now.code lines.last) (found walk.now.table lines.last) }
    requires head { Some head ≡ shapes.head_of image.now owner walk.now lines }
    ensures { spec.MatchLoop image.now owner lines.last result }
{
    match lines.exit_of(image, walk, owner, sources, inners, head) {
        Some(exit) => counting_by(
            image, walk, written, owner, sources, inners, lines, head, exit,
        ),
        None => None,
    }
}

/// The loop of these lines, which are come to at this head and left by this exit, if it counts.
fn counting_by(
    image: &Image,
    walk: &Walk,
    written: &[Written],
    owner: Owner,
    sources: &[Sources],
    inners: &[Option<Inner>],
    lines: Lines,
    head: u32,
    exit: Exit,
) -> Option<CountingLoop>
    requires written { writtens.AreAllWritten image.now written.now }
    requires checked { IsChecked image.now }
    requires limits { IsWithinLimits image.now }
    requires mapped { IsMapped image.now owner walk.now }
    requires sources { AreSources image.now owner sources.now }
    requires inners { AreInners image.now owner walk.now sources.now inners.now }
    requires last { lines.last < length image.now.code }
    requires back { Some lines
        ≡ shapes.lines_at lines.last (slice_get image.now.code lines.last) (found walk.now.table lines.last) }
    requires head { Some head ≡ shapes.head_of image.now owner walk.now lines }
    requires shape { shapes.IsShape image.now owner lines head exit }
    ensures { spec.MatchLoop image.now owner lines.last result }
{
    let place = place_of(lines, head, exit);
    match place.counted(image, walk, written, sources, inners) {
        Some(turns) => Some(CountingLoop { place, turns }),
        None => None,
    }
}

/// Where a loop of these lines is.
fn place_of(lines: Lines, head: u32, exit: Exit) -> Place
    ensures { result ≡ spec.place_of lines head exit }
{
    Place {
        first: lines.first,
        last: lines.last,
        head,
        jump: exit.jump,
        stay: exit.stay,
        out: exit.out,
    }
}
