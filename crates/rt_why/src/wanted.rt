// What is looked for at the points of an image.

ghost use Rattle.std.specs.Prelude.{◌≡◌, ◌≢◌, ◌↔◌, ◌<◌, ◌≤◌, ℕ, IsTrue, MatchBool, slice_get, option_map, Some};
ghost use Rattle.std.specs.List.{list_all};
ghost use Rattle.rt_code.specs.Access.{cell_of};
ghost use Rattle.rt_points.specs.ExecutionPriority.{owner_value, lowered_value, execution_priority};
ghost use Rattle.rt_points.specs.Leading.{kind_of};
ghost use Rattle.rt_points.specs.Rules.{touched_cell};
ghost use Rattle.rt_judge.specs.Inside.Points.{point};
ghost use Rattle.rt_judge.specs.Inside.Touching.{is_open};
ghost use Rattle.rt_why.specs.Inside.Wanted as spec;

use rt_code::{Image, Line, Note};
use rt_ids::Section;
use rt_judge::entering::entered_section;
use rt_judge::execution_priority::{execution_priority, lowered_value, outside_value, owner_value};
use rt_judge::exits::line_at;
use rt_judge::nesting::{is_inside, is_same_section, kind_of};
use rt_judge::notes::is_noted_well;
use rt_judge::operands::{is_operable, is_store, touched_cell};
use rt_judge::touching::{Touching, are_in_order};
use rt_points::{Opened, Owner};

/// What is looked for.
#[derive(Drop)]
pub enum Wanted {
    /// Nothing: all points are looked at.
    Nothing,
    /// An address without an instruction.
    Past,
    /// An instruction that may not be used there.
    Inoperable,
    /// An instruction and a note that do not fit.
    Misnoted,
    /// An entering of a section that is open.
    Again,
    /// An entering of the section, behind which the execution priority's value is greater than this.
    Weaker(Section, u32),
    /// An entering of the section outside `init`, by an owner of a priority value of at most this.
    Enterer(Section, u32),
    /// A store of the cell outside `init`.
    Store(usize),
    /// A touch of the cell outside `init`.
    Touch(usize),
    /// A touch of the cell outside `init`, by an owner of another priority value than this.
    Other(usize, u32),
    /// A touch of the cell outside `init` where the section is not open.
    Outside(usize, Section),
    /// A touch of the cell outside `init` that tells more than is known of those who touch it: it is the first store,
    /// or the first by an owner of another priority value, or one of the sections is not open.
    More(usize, Touching),
}

/// Whether a line enters a section that is open.
fn enters_again(line: &Line, opened: &[Opened]) -> bool
    ensures { IsTrue result ↔ spec.EntersOpen line.now.1 opened.now }
{
    match entered_section(&line.1) {
        Some(section) => is_inside(opened, &section),
        None => false,
    }
}

/// Whether a line enters this section.
fn enters(line: &Line, section: Section) -> bool
    ensures { IsTrue result ↔ (line.now.1 ≡ Some (Note.Enter section)) }
{
    match entered_section(&line.1) {
        Some(entered) => is_same_section(entered, section),
        None => false,
    }
}

/// Whether the execution priority's value is greater than this behind an entering on the line.
fn is_weaker(image: &Image, owner: Owner, opened: &[Opened], line: &Line, value: u32) -> bool
    ensures { IsTrue result ↔ (value < lowered_value (kind_of line.now.0)
        (execution_priority image.now owner opened.now)) }
{
    value < lowered_value(kind_of(line.0), execution_priority(image, owner, opened))
}

/// Whether it is not `init`, and of a priority value of at most this.
fn is_at_most(image: &Image, owner: Owner, value: u32) -> bool
    ensures { IsTrue result ↔ ((owner ≢ Owner.Starting) × (owner_value image.now owner ≤ value)) }
{
    match outside_value(image, owner) {
        Some(own) => own <= value,
        None => false,
    }
}

/// Whether it is not `init`, and of another priority value than this.
fn is_other(image: &Image, owner: Owner, value: u32) -> bool
    ensures { IsTrue result ↔ ((owner ≢ Owner.Starting) × (owner_value image.now owner ≢ value)) }
{
    match outside_value(image, owner) {
        Some(own) => own != value,
        None => false,
    }
}

/// Whether a line touches the cell, outside `init`.
fn touches(owner: Owner, line: &Line, cell: usize) -> bool
    ensures { IsTrue result
        ↔ ((owner ≢ Owner.Starting) × (option_map cell_of (touched_cell line.now.0) ≡ Some cell)) }
{
    match touched_cell(&line.0) {
        Some(touched) => !matches!(owner, Owner::Starting) && touched as usize == cell,
        None => false,
    }
}

/// Whether all of these sections are open. Most often they are in the order of the open ones, which is the faster test.
fn are_open(sections: &[Section], opened: &[Opened]) -> bool
    ensures { result ≡ list_all (is_open opened.now) sections.now }
{
    are_in_order(sections, opened) || sections.iter().all(|section| is_inside(opened, section))
}

/// Whether a touch by a line tells more than is known of those who touch the cell.
fn tells_more(image: &Image, owner: Owner, opened: &[Opened], line: &Line, known: &Touching) -> bool
    ensures { result ≡ spec.tells_more image.now owner opened.now (touched_cell line.now.0) known.now }
{
    let is_first_store = is_store(&line.0) && !known.stored;
    let is_first_other = owner_value(image, owner) != known.value && !known.differ;
    is_first_store || is_first_other || !are_open(&known.sections, opened)
}

/// Whether a line is looked for.
fn is_line_wanted(
    image: &Image,
    owner: Owner,
    opened: &[Opened],
    line: &Line,
    wanted: &Wanted,
) -> bool
    ensures { (address : ℕ) → slice_get image.now.code address ≡ Some line.now
        → MatchBool result (spec.IsWanted image.now wanted.now (point address owner opened.now))
        (spec.IsUnwanted image.now wanted.now (point address owner opened.now)) }
{
    match wanted {
        Wanted::Nothing | Wanted::Past => false,
        Wanted::Inoperable => !is_operable(image, owner, opened, &line.0),
        Wanted::Misnoted => !is_noted_well(image, owner, opened, &line.0, &line.1),
        Wanted::Again => enters_again(line, opened),
        Wanted::Weaker(section, value) => {
            enters(line, *section) && is_weaker(image, owner, opened, line, *value)
        }
        Wanted::Enterer(section, value) => {
            enters(line, *section) && is_at_most(image, owner, *value)
        }
        Wanted::Store(cell) => touches(owner, line, *cell) && is_store(&line.0),
        Wanted::Touch(cell) => touches(owner, line, *cell),
        Wanted::Other(cell, value) => {
            touches(owner, line, *cell) && is_other(image, owner, *value)
        }
        Wanted::Outside(cell, section) => {
            touches(owner, line, *cell) && !is_inside(opened, section)
        }
        Wanted::More(cell, known) => {
            touches(owner, line, *cell) && tells_more(image, owner, opened, line, known)
        }
    }
}

/// Whether a point is looked for.
pub fn is_wanted(
    image: &Image,
    owner: Owner,
    address: u32,
    opened: &[Opened],
    wanted: &Wanted,
) -> bool
    ensures { MatchBool result (spec.IsWanted image.now wanted.now (point address owner opened.now))
        (spec.IsUnwanted image.now wanted.now (point address owner opened.now)) }
{
    match line_at(image, address) {
        Some(line) => is_line_wanted(image, owner, opened, &line, wanted),
        None => matches!(wanted, Wanted::Past),
    }
}
