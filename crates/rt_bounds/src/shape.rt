// Lines of a loop: from the line that a jump leads back to up to that jump, with one way in and one way out.

ghost use Rattle.std.specs.Prelude.{◌≡◌, ◌≤◌, ◌<◌, ◌+◌, ◌-◌, ◌^◌, length, slice_get, MatchBool, MatchOption, Some};
ghost use Rattle.rt_points.specs.Checked.{IsChecked};
ghost use Rattle.rt_points.specs.Limits.{IsWithinLimits};
ghost use Rattle.rt_judge.specs.Inside.Exits as exits;
ghost use Rattle.rt_judge.specs.Inside.Tables.{found};
ghost use Rattle.rt_judge.specs.Inside.Walks.{IsSoundWalk};
ghost use Rattle.rt_bounds.specs.Inside.Ground.{IsMapped};
ghost use Rattle.rt_bounds.specs.Inside.Inners as inner;
ghost use Rattle.rt_bounds.specs.Inside.Shapes as spec;
ghost use Rattle.rt_bounds.specs.Inside.Sources.{AreSources};
ghost use Rattle.rt_bounds.specs.declared.shape.Exit.{Exit as ExitView};

use crate::ground::depth_at;
use crate::sources::{Sources, sources_at};
use rt_code::{Image, Instr};
use rt_judge::exits::{Exits, ends_init, exits_of, line_at};
use rt_judge::walk::Walk;
use rt_points::Owner;

/// Lines of code of one owner.
#[derive(Clone, Copy, Debug, PartialEq, Eq)]
pub struct Lines {
    pub first: u32,
    pub last: u32,
}

/// A loop that counts, by the line where it begins.
#[derive(Clone, Copy, Debug, PartialEq, Eq)]
pub struct Inner {
    /// Its last line.
    pub last: u32,
    /// The jump that leads out of it.
    pub jump: u32,
}

/// The way out of lines.
#[derive(Clone, Copy, Debug, PartialEq, Eq)]
pub struct Exit {
    /// The jump that leads out.
    pub jump: u32,
    /// Where it goes on.
    pub stay: u32,
    /// And where it leads out.
    pub out: u32,
}

/// How a line leads out of lines.
#[derive(Clone, Copy, Debug, PartialEq, Eq)]
enum Leaving {
    /// It does not.
    Stays,
    /// It is a jump that goes on or leads out.
    Parts(Exit),
    /// It does nothing else.
    Ends,
}

/// The loop that begins at an address, if one is known.
fn inner_at(inners: &[Option<Inner>], address: u32) -> Option<Inner>
    ensures { MatchOption result (Unit {0}) (λ i. slice_get inners.now address ≡ Some (Some i)) }
{
    match inners.get(address as usize) {
        Some(inner) => *inner,
        None => None,
    }
}

impl Lines {
    /// The line that stands for those from an address on: the jump of a loop that begins there, or the line itself.
    pub fn stride(&self, inners: &[Option<Inner>], address: u32) -> Inner
        requires { address ≤ self.now.last }
        ensures { inner.IsStride self.now inners.now address result }
    {
        match inner_at(inners, address) {
            Some(inner) if self.is_around(inner, address) => inner,
            _ => Inner {
                last: address,
                jump: address,
            },
        }
    }

    /// Whether a loop that begins at an address behind the first line is in the lines.
    fn is_around(&self, inner: Inner, address: u32) -> bool
        ensures { MatchBool result ((self.now.first < address) × (address ≤ inner.jump) × (inner.jump ≤ inner.last)
            × (inner.last ≤ self.now.last)) (Unit {0}) }
    {
        self.first < address
            && address <= inner.jump
            && inner.jump <= inner.last
            && inner.last <= self.last
    }

    /// Whether an address is among them.
    pub fn has(&self, address: u32) -> bool
        ensures { result ≡ spec.has self.now address }
    {
        self.first <= address && address <= self.last
    }

    /// Whether an owner comes to an address in the lines from nowhere else, but to the head from the line before.
    fn is_closed_at(&self, sources: &[Sources], head: u32, address: u32) -> bool
        requires { 0 < self.now.first }
        ensures { result ≡ spec.is_closed_by self.now head address (slice_get sources.now address) }
    {
        match sources_at(sources, address) {
            Some(row) => {
                let first = if address == head {
                    self.first - 1
                } else {
                    self.first
                };
                first <= row.lowest && row.highest <= self.last
            }
            None => false,
        }
    }

    /// Whether an owner comes to the lines from nowhere else, but to the head from the line before.
    fn are_closed(
        &self,
        walk: &Walk,
        sources: &[Sources],
        inners: &[Option<Inner>],
        head: u32,
    ) -> bool
        requires inners { inner.All (inner.IsClosed walk.now sources.now) inners.now }
        requires first { 0 < self.now.first }
        requires last { self.now.last + 1 < 2 ^ 32 }
        ensures { MatchBool result (spec.AllClosed walk.now self.now sources.now head)
            (¬ spec.AllClosed walk.now self.now sources.now head) }
    {
        let mut address = self.first;
        while address <= self.last {
            let stride = self.stride(inners, address);
            if walk.table.find(stride.jump).is_some()
                && !self.is_closed_at(sources, head, stride.jump)
            {
                return false;
            }
            address = stride.last + 1;
        }
        true
    }

    /// How an instruction at an address in the lines leads out of them.
    fn leaving(&self, owner: Owner, instr: &Instr, address: u32) -> Leaving
        requires { address + 1 < 2 ^ 32 }
        ensures { result ≡ spec.leaving_by self.now owner instr.now address }
    {
        if ends_init(instr, owner) {
            return Leaving::Ends;
        }
        match exits_of(instr, address) {
            Exits::Nowhere => Leaving::Ends,
            Exits::One(to) => {
                if self.has(to) {
                    Leaving::Stays
                } else {
                    Leaving::Ends
                }
            }
            Exits::Two(next, to) => self.parting(address, next, to),
        }
    }

    /// How a jump at an address in the lines leads out of them.
    fn parting(&self, jump: u32, next: u32, to: u32) -> Leaving
        ensures { result ≡ spec.leaving_two self.now jump next to }
    {
        match (self.has(next), self.has(to)) {
            (true, true) => Leaving::Stays,
            (true, false) => Leaving::Parts(Exit {
                jump,
                stay: next,
                out: to,
            }),
            (false, true) => Leaving::Parts(Exit {
                jump,
                stay: to,
                out: next,
            }),
            (false, false) => Leaving::Ends,
        }
    }

    /// How the line at an address in the lines leads out of them, if the owner comes there.
    fn leaving_at(&self, image: &Image, walk: &Walk, owner: Owner, address: u32) -> Leaving
        requires { IsWithinLimits image.now }
        ensures { result ≡ spec.leaving image.now owner walk.now self.now address }
    {
        match (line_at(image, address), walk.table.find(address)) {
            (Some(line), Some(_)) => self.leaving(owner, &line.0, address),
            _ => Leaving::Stays,
        }
    }

    /// The one way out of the lines.
    fn exit(
        &self,
        image: &Image,
        walk: &Walk,
        owner: Owner,
        inners: &[Option<Inner>],
    ) -> Option<Exit>
        requires inners { inner.All (inner.IsLeft image.now owner walk.now) inners.now }
        requires limits { IsWithinLimits image.now }
        requires last { self.now.last + 1 < 2 ^ 32 }
        ensures { MatchOption result ((e : ExitView) → ¬ spec.LeavesOnce image.now owner walk.now self.now e)
            (spec.LeavesOnce image.now owner walk.now self.now) }
    {
        let mut found = None;
        let mut address = self.first;
        while address <= self.last {
            let stride = self.stride(inners, address);
            match self.leaving_at(image, walk, owner, stride.jump) {
                Leaving::Stays => {}
                Leaving::Ends => return None,
                Leaving::Parts(exit) => {
                    if found.is_some() {
                        return None;
                    }
                    found = Some(exit);
                }
            }
            address = stride.last + 1;
        }
        found
    }

    /// Whether at least so many sections are open at each of the lines.
    fn keep_open(&self, walk: &Walk, inners: &[Option<Inner>], least: usize) -> bool
        requires inners { inner.All (inner.IsOpenAsAtJump walk.now) inners.now }
        requires sound { IsSoundWalk walk.now }
        requires last { self.now.last + 1 < 2 ^ 32 }
        ensures { MatchBool result (spec.AllOpen walk.now self.now least) (¬ spec.AllOpen walk.now self.now least) }
    {
        let mut address = self.first;
        while address <= self.last {
            let stride = self.stride(inners, address);
            match depth_at(walk, stride.jump) {
                Some(depth) => {
                    if depth < least {
                        return false;
                    }
                }
                None => {}
            }
            address = stride.last + 1;
        }
        true
    }

    /// Whether at least as many sections are open at each of the lines as at this one.
    fn keeps_open(&self, walk: &Walk, inners: &[Option<Inner>], jump: u32) -> bool
        requires inners { inner.All (inner.IsOpenAsAtJump walk.now) inners.now }
        requires sound { IsSoundWalk walk.now }
        requires last { self.now.last + 1 < 2 ^ 32 }
        ensures { MatchBool result (spec.KeepsFrom walk.now self.now jump) (¬ spec.KeepsFrom walk.now self.now jump) }
    {
        match depth_at(walk, jump) {
            Some(depth) => self.keep_open(walk, inners, depth),
            None => false,
        }
    }

    /// Where the line before leads to in the lines.
    pub fn head(&self, image: &Image, walk: &Walk, owner: Owner) -> Option<u32>
        requires { IsWithinLimits image.now }
        ensures { result ≡ spec.head_of image.now owner walk.now self.now }
    {
        if self.first == 0 {
            return None;
        }
        let before = self.first - 1;
        match (line_at(image, before), walk.table.find(before)) {
            (Some(line), Some(_)) => {
                if ends_init(&line.0, owner) {
                    None
                } else {
                    self.head_behind(&line.0, before)
                }
            }
            _ => None,
        }
    }

    /// Where an instruction before leads to in the lines.
    fn head_behind(&self, instr: &Instr, before: u32) -> Option<u32>
        requires { before + 1 < 2 ^ 32 }
        ensures { result ≡ spec.head_among self.now (exits.targets instr.now before) }
    {
        match exits_of(instr, before) {
            Exits::Nowhere => None,
            Exits::One(to) => { if self.has(to) { Some(to) } else { None } }
            Exits::Two(next, to) => {
                if self.has(to) && to != next {
                    None
                } else {
                    Some(next)
                }
            }
        }
    }

    /// The one way out of lines that an owner comes to at the head alone.
    pub fn exit_of(
        &self,
        image: &Image,
        walk: &Walk,
        owner: Owner,
        sources: &[Sources],
        inners: &[Option<Inner>],
        head: u32,
    ) -> Option<Exit>
        requires inners { inner.AreInners image.now owner walk.now sources.now inners.now }
        requires checked { IsChecked image.now }
        requires limits { IsWithinLimits image.now }
        requires mapped { IsMapped image.now owner walk.now }
        requires sources { AreSources image.now owner sources.now }
        requires first { 0 < self.now.first }
        requires last { self.now.last < length image.now.code }
        ensures { MatchOption result ((e : ExitView) → ¬ spec.IsShape image.now owner self.now head e)
            (spec.IsShape image.now owner self.now head) }
    {
        if !self.are_closed(walk, sources, inners, head) {
            return None;
        }
        match self.exit(image, walk, owner, inners) {
            Some(exit) => {
                if self.keeps_open(walk, inners, exit.jump) {
                    Some(exit)
                } else {
                    None
                }
            }
            None => None,
        }
    }
}

/// The lines that the jump at an address leads back over, if it does and the owner comes there.
pub fn lines_back(image: &Image, walk: &Walk, last: u32) -> Option<Lines>
    ensures { result ≡ spec.lines_at last (slice_get image.now.code last) (found walk.now.table last) }
{
    match (line_at(image, last), walk.table.find(last)) {
        (Some(line), Some(_)) => match line.0 {
            Instr::Jump(first) | Instr::JumpZ(_, first) if first <= last => {
                Some(Lines { first, last })
            }
            _ => None,
        },
        _ => None,
    }
}

/// The slot that an instruction looks at to jump, if it does.
fn jump_slot(instr: &Instr) -> Option<u32>
    ensures { result ≡ spec.jump_slot instr.now }
{
    match *instr {
        Instr::JumpZ(slot, _) => Some(slot),
        _ => None,
    }
}

/// And that of the line at an address.
pub fn jump_at(image: &Image, address: u32) -> Option<u32>
    ensures { result ≡ spec.jump_at (slice_get image.now.code address) }
{
    match line_at(image, address) {
        Some(line) => jump_slot(&line.0),
        None => None,
    }
}
