// Keeps who touches which cell.

ghost use Rattle.std.specs.Prelude.{◌≡◌, ◌++◌, ◌∷◌, [], ◌<◌, ℕ, IfOk, OnOk, List, Some, None, replicate, slice_get};
ghost use Rattle.std.specs.Prelude.{filter, map, length, IsTrue, true};
ghost use Rattle.std.specs.List.{list_all};
ghost use Rattle.rt_points.specs.Point.{Point};
ghost use Rattle.rt_judge.specs.Inside.Points.{point};
ghost use Rattle.rt_judge.specs.Inside.Touching as spec;

use crate::execution_priority::outside_value;
use crate::nesting::is_same_section;
use crate::operands::{is_store, touched_cell};
use rt_code::{Image, Line};
use rt_ids::{NoMemory, Section};
use rt_points::{Opened, Owner};
use std::alloc::Global;

/// Who touches a cell, `init` aside.
#[derive(Drop)]
pub struct Touching {
    /// Someone stores it.
    pub stored: bool,
    /// The priority value of one who touches it.
    pub value: u32,
    /// Someone who touches it has another value.
    pub differ: bool,
    /// The sections that are open wherever it is touched.
    pub sections: Vec<Section>,
}

/// A touch of a cell.
#[derive(Clone, Copy)]
pub struct Touch {
    pub cell: usize,
    pub stored: bool,
    /// The priority value of who touches it.
    pub value: u32,
}

/// Who touches which cell, at the points that were looked at.
#[derive(Drop)]
pub struct Cells {
    pub rows: Vec<Option<Touching>>,
}

/// What is open.
fn sections_of(alloc: Global, opened: &[Opened]) -> Result<Vec<Section>, NoMemory>
    ensures { IfOk result (λ all. all.items ≡ map (λ o. o.section) opened.now) }
{
    Ok(opened.iter().map(|o| o.section).collect(alloc)?)
}

/// Whether a section is one of these.
fn is_among(sections: &[Section], section: &Section) -> bool
    ensures { result ≡ spec.is_among sections.now section.now }
{
    sections.iter().any(|one| is_same_section(*one, *section))
}

/// The same. Most often it is the one at this index, which is the faster test.
fn is_among_at(sections: &[Section], index: usize, section: &Section) -> bool
    ensures { result ≡ spec.is_among sections.now section.now }
{
    match sections.get(index) {
        Some(one) if is_same_section(*one, *section) => true,
        _ => is_among(sections, section),
    }
}

/// Those sections that are open, in the order in which they are open.
fn common(alloc: Global, sections: &[Section], opened: &[Opened]) -> Result<Vec<Section>, NoMemory>
    ensures { IfOk result (λ all. all.items
        ≡ filter (spec.is_among sections.now) (map (λ o. o.section) opened.now)) }
{
    let mut all = Vec::with_capacity(alloc, sections.len())?;
    for (index, o) in opened.iter().enumerate() {
        if is_among_at(sections, index, &o.section) {
            all.push(o.section)?;
        }
    }
    Ok(all)
}

/// Whether these sections are those that are open outermost, in their order.
fn are_outermost(sections: &[Section], opened: &[Opened]) -> bool
    ensures { IsTrue result → list_all (spec.is_open opened.now) sections.now ≡ true }
{
    if opened.len() < sections.len() {
        return false;
    }
    let inner = opened.len() - sections.len();
    for (index, section) in sections.iter().enumerate() {
        if !is_same_section(opened[inner + index].section, *section) {
            return false;
        }
    }
    true
}

/// Whether these sections are open, each further out than the one before.
fn are_nested(sections: &[Section], opened: &[Opened]) -> bool
    ensures { IsTrue result → list_all (spec.is_open opened.now) sections.now ≡ true }
{
    let mut found = 0;
    for o in opened {
        if found < sections.len() && is_same_section(o.section, sections[found]) {
            found += 1;
        }
    }
    found == sections.len()
}

/// Whether these sections are open in their order. Most often they are the outermost, which is the faster test.
pub fn are_in_order(sections: &[Section], opened: &[Opened]) -> bool
    ensures { IsTrue result → list_all (spec.is_open opened.now) sections.now ≡ true }
{
    are_outermost(sections, opened) || are_nested(sections, opened)
}

impl Touching {
    /// A first touch.
    fn new(alloc: Global, touch: &Touch, opened: &[Opened]) -> Result<Touching, NoMemory>
        ensures { IfOk result (spec.IsFirst touch.now opened.now) }
    {
        Ok(Touching {
            stored: touch.stored,
            value: touch.value,
            differ: false,
            sections: sections_of(alloc, opened)?,
        })
    }

    /// One more touch. Where its sections are open in another order they are kept in that one, so that the next touch
    /// with the same sections open is looked through once.
    fn add(&mut self, alloc: Global, touch: &Touch, opened: &[Opened]) -> Result<(), NoMemory>
        ensures { OnOk result (spec.IsWith self.old touch.now opened.now self.new) }
    {
        let is_other = touch.value != self.value;
        self.stored = self.stored || touch.stored;
        self.differ = self.differ || is_other;
        if !are_in_order(self.sections.as_slice(), opened) {
            self.sections = common(alloc, self.sections.as_slice(), opened)?;
        }
        Ok(())
    }

    /// Whether it is touched inside one section alone, where owners contend for it.
    fn is_guarded(&self) -> bool
        ensures { result ≡ spec.is_guarded self.now }
    {
        !self.stored || !self.differ || !self.sections.as_slice().is_empty()
    }
}

/// One more touch of the cell of a row.
fn touch_row(
    alloc: Global,
    row: &mut Option<Touching>,
    touch: &Touch,
    opened: &[Opened],
) -> Result<(), NoMemory>
    ensures { OnOk result (spec.IsTouchedRow row.old row.new touch.now opened.now) }
{
    match row {
        Some(touching) => touching.add(alloc, touch, opened),
        None => {
            *row = Some(Touching::new(alloc, touch, opened)?);
            Ok(())
        }
    }
}

/// Whether the cell of a row, where it is touched, is guarded.
pub fn is_row_guarded(row: &Option<Touching>) -> bool
    ensures { result ≡ spec.is_row_guarded row.now }
{
    match row {
        Some(touching) => touching.is_guarded(),
        None => true,
    }
}

/// The touch of a line, `init` aside.
fn touch_of(image: &Image, owner: Owner, line: &Line) -> Option<Touch>
    ensures { spec.IsTouchOf image.now owner line.now.0 result }
{
    match outside_value(image, owner) {
        Some(value) => match touched_cell(&line.0) {
            Some(cell) => Some(Touch {
                cell: cell as usize,
                stored: is_store(&line.0),
                value,
            }),
            None => None,
        },
        None => None,
    }
}

impl Cells {
    /// Of no points.
    pub fn new(alloc: Global, count: usize) -> Result<Cells, NoMemory>
        ensures { IfOk result (λ cells. cells.rows.items ≡ replicate count None) }
    {
        let mut rows = Vec::with_capacity(alloc, count)?;
        for _ in 0..count {
            rows.push(None)?;
        }
        Ok(Cells { rows })
    }

    /// Whether each cell for which owners contend is touched inside one section alone.
    pub fn are_guarded(&self) -> bool
        ensures { result ≡ list_all spec.is_row_guarded self.now.rows.items }
    {
        self.rows.iter().all(|row| is_row_guarded(row))
    }

    /// One more touch of a cell.
    fn touch(&mut self, alloc: Global, touch: &Touch, opened: &[Opened]) -> Result<(), NoMemory>
        requires { touch.now.cell < length self.old.rows.items }
        ensures touched { OnOk result
            (spec.IsTouched self.old.rows.items self.new.rows.items touch.now opened.now) }
        ensures rows { length self.new.rows.items ≡ length self.old.rows.items }
    {
        touch_row(alloc, &mut self.rows[touch.cell], touch, opened)
    }

    /// One more point, at which a line stands.
    pub fn take(
        &mut self,
        alloc: Global,
        image: &Image,
        owner: Owner,
        line: &Line,
        opened: &[Opened],
    ) -> Result<(), NoMemory>
        ensures rows { length self.new.rows.items ≡ length self.old.rows.items }
        ensures told { OnOk result ((address : ℕ) (ps : List Point)
            → slice_get image.now.code address ≡ Some line.now
            → spec.TellsOfCells image.now ps self.old.rows.items
            → spec.TellsOfCells image.now (ps ++ point address owner opened.now ∷ []) self.new.rows.items) }
    {
        match touch_of(image, owner, line) {
            Some(touch) => {
                if touch.cell < self.rows.len() {
                    self.touch(alloc, &touch, opened)
                } else {
                    Ok(())
                }
            }
            None => Ok(()),
        }
    }
}
