// Keeps who enters which section.

ghost use Rattle.std.specs.Prelude.{◌≡◌, ◌++◌, ◌∷◌, [], ◌&&◌, IsTrue, IfOk, OnOk, MatchOption, List, Some};
ghost use Rattle.std.specs.Prelude.{slice_get};
ghost use Rattle.std.specs.List.{list_all};
ghost use Rattle.rt_points.specs.Point.{Point};
ghost use Rattle.rt_judge.specs.Inside.Points.{point};
ghost use Rattle.rt_judge.specs.Inside.Entering as spec;

use crate::execution_priority::{execution_priority, lowered_value, outside_value};
use crate::nesting::{is_inside, is_same_section, kind_of};
use rt_code::{Image, Line, Note};
use rt_ids::{NoMemory, Section};
use rt_points::{Opened, Owner};
use std::alloc::Global;

/// Who enters a section.
#[derive(Clone, Copy)]
pub struct Entering {
    pub section: Section,
    /// The greatest priority value that execution has after an entering: the weakest hold.
    pub weakest: u32,
    /// The least priority value of those who enter, `init` aside.
    pub value: Option<u32>,
}

/// Who enters which section, at the points that were looked at.
#[derive(Drop)]
pub struct Sections {
    /// One for each section that is entered.
    pub rows: Vec<Entering>,
    /// By the address of an entering the index at which its row was found: it is tried first the next time.
    places: Vec<usize>,
    /// Nobody enters a section that he is inside.
    pub free: bool,
}

/// The lesser of two values that may not be there.
fn least(one: Option<u32>, other: Option<u32>) -> Option<u32>
    ensures { result ≡ spec.least one other }
{
    match (one, other) {
        (Some(a), Some(b)) => Some(a.min(b)),
        (Some(a), None) => Some(a),
        (None, other) => other,
    }
}

/// The section that a note enters.
pub fn entered_section(note: &Option<Note>) -> Option<Section>
    ensures { MatchOption result (spec.EntersNone note.now) (λ x. note.now ≡ Some (Note.Enter x)) }
{
    match *note {
        Some(Note::Enter(section)) => Some(section),
        _ => None,
    }
}

impl Entering {
    /// Whether each entering holds off everyone who enters.
    pub fn holds_off(&self) -> bool
        ensures { result ≡ spec.holds_off self.now }
    {
        match self.value {
            Some(value) => self.weakest <= value,
            None => true,
        }
    }

    /// One more entering of its section.
    fn add(&mut self, other: &Entering)
        ensures { self.new ≡ spec.with_entering other.now self.old }
    {
        self.weakest = self.weakest.max(other.weakest);
        self.value = least(self.value, other.value);
    }
}

/// Whether the row at an index is of a section.
fn is_row_of(rows: &[Entering], index: usize, section: &Section) -> bool
    ensures { IsTrue result → spec.IsRowOf rows.now section.now index }
{
    match rows.get(index) {
        Some(row) => is_same_section(row.section, *section),
        None => false,
    }
}

/// The index of the row of a section.
fn find_row(rows: &[Entering], section: &Section) -> Option<usize>
    ensures { spec.IsFound rows.now section.now result }
{
    for (index, row) in rows.iter().enumerate() {
        if is_same_section(row.section, *section) {
            return Some(index);
        }
    }
    None
}

/// Whether each of these holds off everyone who enters.
fn all_hold_off(rows: &[Entering]) -> bool
    ensures { result ≡ list_all spec.holds_off rows.now }
{
    rows.iter().all(|row| row.holds_off())
}

impl Sections {
    /// Of no points, for code of this length.
    pub fn new(alloc: Global, length: usize) -> Result<Sections, NoMemory>
        ensures { IfOk result (λ sections. (sections.rows.items ≡ []) × IsTrue sections.free) }
    {
        Ok(Sections {
            rows: Vec::new(alloc),
            places: Vec::from_elem(alloc, 0, length)?,
            free: true,
        })
    }

    /// Whether each section is entered by who is not inside it, and holds off everyone who enters it.
    pub fn hold_off(&self) -> bool
        ensures { result ≡ (self.now.free && list_all spec.holds_off self.now.rows.items) }
    {
        self.free && all_hold_off(&self.rows)
    }

    /// The index of the row of a section that is entered at an address.
    fn row_of(&self, address: u32, section: &Section) -> Option<usize>
        ensures { spec.IsFound self.now.rows.items section.now result }
    {
        let place = match self.places.get(address as usize) {
            Some(place) => *place,
            None => 0,
        };
        if is_row_of(&self.rows, place, section) {
            Some(place)
        } else {
            find_row(&self.rows, section)
        }
    }

    /// Keeps where the row of the section that is entered at an address stands.
    fn keep_place(&mut self, address: u32, place: usize)
        ensures rows { self.new.rows ≡ self.old.rows }
        ensures free { self.new.free ≡ self.old.free }
    {
        if let Some(kept) = self.places.get_mut(address as usize) {
            *kept = place;
        }
    }

    /// One more entering, at an address.
    fn enter(&mut self, address: u32, entering: &Entering) -> Result<(), NoMemory>
        ensures rows { OnOk result (spec.AreApart self.old.rows.items
            → self.new.rows.items ≡ spec.rows_with_entering entering.now self.old.rows.items) }
        ensures free { self.new.free ≡ self.old.free }
    {
        match self.row_of(address, &entering.section) {
            Some(place) => {
                self.rows[place].add(entering);
                self.keep_place(address, place);
                Ok(())
            }
            None => {
                let place = self.rows.len();
                self.rows.push(*entering)?;
                self.keep_place(address, place);
                Ok(())
            }
        }
    }

    /// One more point, at which a section is entered.
    fn take_enter(
        &mut self,
        image: &Image,
        owner: Owner,
        address: u32,
        line: &Line,
        opened: &[Opened],
        section: Section,
    ) -> Result<(), NoMemory>
        requires { line.now.1 ≡ Some (Note.Enter section) }
        ensures { OnOk result ((ps : List Point)
            → slice_get image.now.code address ≡ Some line.now
            → spec.TellsOfSections image.now ps self.old
            → spec.TellsOfSections image.now (ps ++ point address owner opened.now ∷ []) self.new) }
    {
        let is_inside = is_inside(opened, &section);
        let value = execution_priority(image, owner, opened);
        let entering = Entering {
            section,
            weakest: lowered_value(kind_of(line.0), value),
            value: outside_value(image, owner),
        };
        self.free = self.free && !is_inside;
        self.enter(address, &entering)
    }

    /// One more point, at which a line stands.
    pub fn take(
        &mut self,
        image: &Image,
        owner: Owner,
        address: u32,
        line: &Line,
        opened: &[Opened],
    ) -> Result<(), NoMemory>
        ensures { OnOk result ((ps : List Point)
            → slice_get image.now.code address ≡ Some line.now
            → spec.TellsOfSections image.now ps self.old
            → spec.TellsOfSections image.now (ps ++ point address owner opened.now ∷ []) self.new) }
    {
        match entered_section(&line.1) {
            Some(section) => self.take_enter(image, owner, address, line, opened, section),
            None => Ok(()),
        }
    }
}
