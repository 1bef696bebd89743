// What was found of the sections of owners so far.

ghost use Rattle.std.specs.Prelude.{◌≡◌, ◌≤◌, ◌<◌, ◌+◌, ◌^◌, ◌++◌, ◌∷◌, [], suc, map, length, OnOk, MatchOption, List, Some};
ghost use Rattle.std.specs.Prelude.{None};
ghost use Rattle.std.specs.Prelude.{slice_get};
ghost use Rattle.rt_points.specs.Checked.{IsChecked};
ghost use Rattle.rt_points.specs.Limits.{IsWithinLimits};
ghost use Rattle.rt_points.specs.declared.point.Owner.{Owner as OwnerView};
ghost use Rattle.rt_judge.specs.Inside.Points.{point};
ghost use Rattle.rt_judge.specs.Inside.Walks.{reached_by};
ghost use Rattle.rt_bounds.specs.Inside.Aheads.{AreFolds};
ghost use Rattle.rt_bounds.specs.Inside.Ground.{IsMapped};
ghost use Rattle.rt_bounds.specs.Inside.Surveys.{IsSurveyed};
ghost use Rattle.rt_bounds.specs.Inside.Gathered as spec;

use crate::bound::{SectionBound, WaitBound};
use crate::folds::Fold;
use crate::ground::most_open;
use crate::longest::{Longest, worse, worst};
use crate::survey::Survey;
use rt_code::{Image, Line};
use rt_ids::{NoMemory, Section};
use rt_judge::entering::entered_section;
use rt_judge::execution_priority::{execution_priority, lowered_value};
use rt_judge::exits::line_at;
use rt_judge::nesting::{is_same_section, kind_of};
use rt_judge::walk::Walk;
use rt_points::{Opened, Owner};
use std::alloc::Global;

/// A section that an owner enters at an address.
#[derive(Clone, Copy)]
pub struct Entry {
    pub section: Section,
    /// The execution priority outside, as a priority value.
    pub outside: u32,
    /// And inside.
    pub inside: u32,
}

/// What was found of the sections that owners enter.
#[derive(Drop)]
pub struct Gathered {
    /// Those of the owner that is looked at.
    pub own: Vec<SectionBound>,
    /// Those of the owners before.
    pub sections: Vec<SectionBound>,
    /// By the priorities that are in use, rising.
    pub waits: Vec<WaitBound>,
}

/// What is entered at an address where these sections are open, if a section is entered there.
fn entry_of(
    image: &Image,
    owner: Owner,
    address: u32,
    line: &Line,
    opened: &[Opened],
) -> Option<Entry>
    requires { slice_get image.now.code address ≡ Some line.now }
    ensures { MatchOption result (spec.EntersNothing image.now (point address owner opened.now))
        (spec.IsEntry image.now (point address owner opened.now)) }
{
    match entered_section(&line.1) {
        Some(section) => {
            let outside = execution_priority(image, owner, opened);
            Some(Entry {
                section,
                outside,
                inside: lowered_value(kind_of(line.0), outside),
            })
        }
        None => None,
    }
}

/// What an owner enters at an address with so many sections open, if it does.
fn entry_at(image: &Image, walk: &Walk, owner: Owner, depth: usize, address: u32) -> Option<Entry>
    requires { IsMapped image.now owner walk.now }
    ensures { MatchOption result (spec.EntersNoneAt image.now owner (reached_by walk.now) depth address)
        (spec.EntersAt image.now owner (reached_by walk.now) depth address) }
{
    match (line_at(image, address), walk.table.find(address)) {
        (Some(line), Some(nesting)) => {
            let opened = walk.nestings.open_sections(nesting);
            if opened.len() == depth {
                entry_of(image, owner, address, &line, opened)
            } else {
                None
            }
        }
        _ => None,
    }
}

/// One more bound of a section, if it is the row's.
fn widen_row(row: &mut SectionBound, section: &Section, longest: Longest)
    ensures { row.new ≡ spec.widened section.now longest row.old }
{
    if is_same_section(row.section, *section) {
        row.longest = worse(row.longest, longest);
    }
}

/// One more bound of a section, for its row.
fn widen(rows: &mut [SectionBound], section: &Section, longest: Longest)
    ensures { rows.new ≡ map (spec.widened section.now longest) rows.old }
{
    for row in rows.iter_mut() {
        widen_row(row, section, longest);
    }
}

/// Whether there is a row of a section.
fn has_row(rows: &[SectionBound], section: &Section) -> bool
    ensures { result ≡ spec.has_row rows.now section.now }
{
    rows.iter()
        .any(|row| is_same_section(row.section, *section))
}

/// One more bound of a section that an owner enters.
fn add_section(
    rows: &mut Vec<SectionBound>,
    owner: Owner,
    section: Section,
    longest: Longest,
) -> Result<(), NoMemory>
    ensures { OnOk result (rows.new.items ≡ spec.rows_with owner section longest rows.old.items) }
{
    if has_row(rows, &section) {
        widen(rows, &section, longest);
    } else {
        rows.push(SectionBound {
            owner,
            section,
            longest,
        })?;
    }
    Ok(())
}

/// One more section that may hold a priority off.
fn hold(row: &mut WaitBound, bits: u8, entry: &Entry, longest: Longest)
    requires few_bits { 3 ≤ bits }
    requires many_bits { bits ≤ 7 }
    requires priority { spec.IsPriority bits row.old }
    ensures { row.new ≡ spec.held bits entry.now longest row.old }
{
    let value = u32::from(row.priority.hw(bits));
    if entry.inside <= value && value < entry.outside {
        row.longest = Some(worst(row.longest, longest));
    }
}

/// One more section that may hold priorities off.
fn hold_all(bits: u8, rows: &mut [WaitBound], entry: &Entry, longest: Longest)
    requires few_bits { 3 ≤ bits }
    requires many_bits { bits ≤ 7 }
    requires priorities { spec.ArePriorities bits rows.old }
    ensures { rows.new ≡ map (spec.held bits entry.now longest) rows.old }
{
    for row in rows.iter_mut() {
        hold(row, bits, entry, longest);
    }
}

impl Gathered {
    /// One more section.
    fn take(
        &mut self,
        image: &Image,
        owner: Owner,
        entry: &Entry,
        longest: Longest,
    ) -> Result<(), NoMemory>
        requires limits { IsWithinLimits image.now }
        requires priorities { spec.ArePriorities image.now.bits self.old.waits.items }
        ensures own { OnOk result (self.new.own.items
            ≡ spec.rows_with owner entry.now.section longest self.old.own.items) }
        ensures sections { self.new.sections ≡ self.old.sections }
        ensures waits { self.new.waits.items ≡ map (spec.held image.now.bits entry.now longest) self.old.waits.items }
    {
        hold_all(image.bits, &mut self.waits, entry, longest);
        add_section(&mut self.own, owner, entry.section, longest)
    }

    /// What an owner enters at an address where so many sections are open, if it does.
    fn take_address(
        &mut self,
        survey: &mut Survey,
        image: &Image,
        walk: &Walk,
        folds: &[Option<Fold>],
        owner: Owner,
        depth: usize,
        address: u32,
    ) -> Result<(), NoMemory>
        requires checked { IsChecked image.now }
        requires limits { IsWithinLimits image.now }
        requires mapped { IsMapped image.now owner walk.now }
        requires folded { AreFolds image.now owner (reached_by walk.now) (length image.now.code) folds.now }
        requires surveyed { IsSurveyed image.now owner walk.now survey.old }
        requires depth { survey.old.depth ≡ depth + 1 }
        requires goal { survey.old.goal ≡ None }
        requires priorities { spec.ArePriorities image.now.bits self.old.waits.items }
        ensures surveyed { OnOk result (IsSurveyed image.now owner walk.now survey.new) }
        ensures depth { OnOk result (survey.new.depth ≡ depth + 1) }
        ensures goal { OnOk result (survey.new.goal ≡ None) }
        ensures gathered { OnOk result ((done : List OwnerView)
            → spec.IsGatheredTo image.now done owner depth address self.old
            → spec.IsGatheredTo image.now done owner depth (address + 1) self.new) }
        ensures sections { self.new.sections ≡ self.old.sections }
        ensures priorities { OnOk result (map (λ row. row.priority) self.new.waits.items
            ≡ map (λ row. row.priority) self.old.waits.items) }
    {
        match entry_at(image, walk, owner, depth, address) {
            Some(entry) => {
                let longest = survey.longest_from(image, walk, folds, owner, address)?;
                self.take(image, owner, &entry, longest)?;
                Ok(())
            }
            None => Ok(()),
        }
    }

    /// The sections that an owner enters where so many are open.
    fn take_depth(
        &mut self,
        alloc: Global,
        image: &Image,
        walk: &Walk,
        folds: &[Option<Fold>],
        owner: Owner,
        depth: usize,
    ) -> Result<(), NoMemory>
        requires checked { IsChecked image.now }
        requires limits { IsWithinLimits image.now }
        requires mapped { IsMapped image.now owner walk.now }
        requires folded { AreFolds image.now owner (reached_by walk.now) (length image.now.code) folds.now }
        requires room { depth + 1 < 2 ^ 64 }
        requires priorities { spec.ArePriorities image.now.bits self.old.waits.items }
        ensures gathered { OnOk result ((done : List OwnerView)
            → spec.IsGatheredTo image.now done owner depth 0 self.old
            → spec.IsGatheredTo image.now done owner (suc depth) 0 self.new) }
        ensures sections { self.new.sections ≡ self.old.sections }
        ensures priorities { OnOk result (map (λ row. row.priority) self.new.waits.items
            ≡ map (λ row. row.priority) self.old.waits.items) }
    {
        let mut survey = Survey::new(alloc, image.code.len(), depth + 1)?;
        for address in 0..image.code.len() as u32 {
            self.take_address(&mut survey, image, walk, folds, owner, depth, address)?;
        }
        Ok(())
    }

    /// Puts the sections of an owner behind those of the owners before.
    fn close_owner(&mut self) -> Result<(), NoMemory>
        ensures own { OnOk result (self.new.own.items ≡ []) }
        ensures sections { OnOk result (self.new.sections.items ≡ self.old.sections.items ++ self.old.own.items) }
        ensures waits { self.new.waits ≡ self.old.waits }
    {
        self.sections.append(&mut self.own)?;
        Ok(())
    }

    /// The sections that an owner enters.
    pub fn take_owner(
        &mut self,
        alloc: Global,
        image: &Image,
        walk: &Walk,
        folds: &[Option<Fold>],
        owner: Owner,
    ) -> Result<(), NoMemory>
        requires checked { IsChecked image.now }
        requires limits { IsWithinLimits image.now }
        requires mapped { IsMapped image.now owner walk.now }
        requires folded { AreFolds image.now owner (reached_by walk.now) (length image.now.code) folds.now }
        requires priorities { spec.ArePriorities image.now.bits self.old.waits.items }
        ensures gathered { OnOk result ((done : List OwnerView) → spec.AreEarlier owner done
            → spec.IsGathered image.now done self.old → spec.IsGathered image.now (done ++ owner ∷ []) self.new) }
        ensures priorities { OnOk result (map (λ row. row.priority) self.new.waits.items
            ≡ map (λ row. row.priority) self.old.waits.items) }
    {
        for depth in 0..most_open(walk) {
            self.take_depth(alloc, image, walk, folds, owner, depth)?;
        }
        self.close_owner()?;
        Ok(())
    }
}
