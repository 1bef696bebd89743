// The sections that are open at an address, each kept once.

ghost use Rattle.std.specs.Prelude.{◌≡◌, ◌↔◌, ◌++◌, [], ◌∷◌, List, drop, IfOk, OnOk, IsTrue};
ghost use Rattle.rt_points.specs.declared.point.Opened.{Opened as OpenedView};
ghost use Rattle.rt_points.specs.Leading.{kind_of, inside_after};
ghost use Rattle.rt_actions.specs.Location.{is_same_section};
ghost use Rattle.std.specs.List.{list_any};
ghost use Rattle.rt_judge.specs.Inside.Nestings as spec;

use rt_code::{Instr, Note};
use rt_ids::{NoMemory, Section};
use rt_points::{Opened, SectionKind};
use std::alloc::Global;

/// Where the sections that are open at an address stand in a list of nestings.
#[derive(Clone, Copy, PartialEq, Eq)]
pub struct Nesting {
    pub start: usize,
    pub end: usize,
}

impl Nesting {
    /// Nothing is open.
    pub const NOTHING: Nesting = Nesting { start: 0, end: 0 };

    /// With the innermost section left, where there is one.
    fn without_innermost(self) -> Nesting
        ensures { (opened : List OpenedView) → spec.Stands opened self
            → spec.Stands opened result
            × (spec.inside_of opened result ≡ drop 1 (spec.inside_of opened self)) }
    {
        if self.start < self.end {
            Nesting {
                start: self.start + 1,
                end: self.end,
            }
        } else {
            self
        }
    }
}

/// The nestings of an owner's addresses, one behind the other. In each the innermost section is the first, so that
/// what is open once that is left stands there too.
#[derive(Drop)]
pub struct Nestings {
    pub opened: Vec<Opened>,
}

/// Copies a nesting behind the others.
fn copy_to_end(opened: &mut Vec<Opened>, nesting: Nesting) -> Result<(), NoMemory>
    requires { spec.Stands opened.old.items nesting }
    ensures { OnOk result (opened.new.items ≡ opened.old.items ++ spec.inside_of opened.old.items nesting) }
{
    Ok(opened.extend_from_within(nesting.start..nesting.end)?)
}

impl Nestings {
    /// Of nobody.
    pub fn new(alloc: Global) -> Nestings
        ensures { result.opened.items ≡ [] }
    {
        Nestings {
            opened: Vec::new(alloc),
        }
    }

    /// The open sections of a nesting, innermost first.
    pub fn open_sections(&self, nesting: Nesting) -> &[Opened]
        requires { spec.Stands self.now.opened.items nesting }
        ensures { result.now ≡ spec.inside_of self.now.opened.items nesting }
    {
        &self.opened[nesting.start..nesting.end]
    }

    /// Whether the same sections are open.
    pub fn are_same(&self, one: Nesting, other: Nesting) -> bool
        requires one { spec.Stands self.now.opened.items one }
        requires other { spec.Stands self.now.opened.items other }
        ensures { IsTrue result
            ↔ (spec.inside_of self.now.opened.items one ≡ spec.inside_of self.now.opened.items other) }
    {
        one == other || are_same(self.open_sections(one), self.open_sections(other))
    }

    /// With one more section open.
    fn enter(
        &mut self,
        nesting: Nesting,
        section: Section,
        kind: SectionKind,
    ) -> Result<Nesting, NoMemory>
        requires { spec.Stands self.old.opened.items nesting }
        ensures { IfOk result (λ behind. spec.IsSaid self.old.opened.items self.new.opened.items behind
            (record { section = section; kind = kind } ∷ spec.inside_of self.old.opened.items nesting)) }
    {
        let start = self.opened.len();
        self.opened.push(Opened { section, kind })?;
        copy_to_end(&mut self.opened, nesting)?;
        let end = self.opened.len();
        Ok(Nesting { start, end })
    }

    /// The open sections behind an instruction with a note.
    pub fn behind(
        &mut self,
        instr: Instr,
        note: Option<Note>,
        nesting: Nesting,
    ) -> Result<Nesting, NoMemory>
        requires { spec.Stands self.old.opened.items nesting }
        ensures { IfOk result (λ behind. spec.IsSaid self.old.opened.items self.new.opened.items behind
            (inside_after instr note (spec.inside_of self.old.opened.items nesting))) }
    {
        match note {
            Some(Note::Enter(section)) => self.enter(nesting, section, kind_of(instr)),
            Some(Note::Leave(_)) => Ok(nesting.without_innermost()),
            _ => Ok(nesting),
        }
    }
}

/// How the instruction on which a section is entered holds others off.
pub fn kind_of(instr: Instr) -> SectionKind
    ensures { result ≡ kind_of instr }
{
    match instr {
        Instr::Raise(slot, value) => SectionKind::Raise(slot, value),
        Instr::Mask(slot) => SectionKind::Mask(slot),
        _ => SectionKind::Mark,
    }
}

/// Whether two open sections are the same.
fn is_same_opened(one: &Opened, other: &Opened) -> bool
    ensures { IsTrue result ↔ (one.now ≡ other.now) }
{
    one == other
}

/// Whether the same sections are open.
fn are_same(one: &[Opened], other: &[Opened]) -> bool
    ensures { IsTrue result ↔ (one.now ≡ other.now) }
{
    if one.len() != other.len() {
        return false;
    }
    for (index, opened) in one.iter().enumerate() {
        if !is_same_opened(opened, &other[index]) {
            return false;
        }
    }
    true
}

/// Whether two sections are the same.
pub fn is_same_section(one: Section, other: Section) -> bool
    ensures { result ≡ is_same_section one other }
{
    one == other
}

/// Whether one of these is open on a section.
pub fn is_inside(opened: &[Opened], section: &Section) -> bool
    ensures { result ≡ list_any (λ o. is_same_section o.section section.now) opened.now }
{
    opened.iter().any(|o| is_same_section(o.section, *section))
}
