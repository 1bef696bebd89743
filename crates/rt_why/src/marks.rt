// At whose code something was found on the walk over all points. No answer rests on it: a search for a point begins at
// the owners that are marked, and where nothing is found there it goes through all.

use rt_ids::{NoMemory, Section};
use rt_judge::entering::Entering;
use rt_judge::findings::Findings;
use rt_judge::nesting::is_same_section;
use rt_judge::touching::Touching;
use rt_points::Owner;
use std::alloc::Global;

/// What was found of who enters a section, and at whose code.
#[derive(Clone, Copy)]
struct SectionMark {
    section: Section,
    weakest: u32,
    value: Option<u32>,
    /// Where the weakest hold was found.
    weaker: Owner,
    /// Where the least priority value of those who enter was found.
    enterer: Owner,
}

/// What was found of who touches a cell.
#[derive(Clone, Copy, PartialEq, Eq)]
struct CellState {
    touched: bool,
    stored: bool,
    differ: bool,
    sections: usize,
}

/// At whose code a touch of a cell told more than those before.
#[derive(Clone, Copy)]
pub struct CellMark {
    pub cell: usize,
    pub owner: Owner,
}

/// At whose code something was found.
#[derive(Drop)]
pub struct Marks {
    /// Where the first rule was found broken.
    pub split: Option<Owner>,
    /// Where an address without an instruction was found first.
    pub past: Option<Owner>,
    /// Where an instruction that may not be used was found first.
    pub inoperable: Option<Owner>,
    /// Where a note or a mask that is not right was found first.
    pub misnoted: Option<Owner>,
    /// Where an entering of a section that is open was found first.
    pub again: Option<Owner>,
    sections: Vec<SectionMark>,
    states: Vec<CellState>,
    /// For each cell those owners whose touches told more, in the order in which they were looked at.
    pub cells: Vec<CellMark>,
}

/// The owner at which a fault was found first.
fn first(mark: Option<Owner>, is_kept: bool, owner: Owner) -> Option<Owner> {
    match mark {
        None if !is_kept => Some(owner),
        _ => mark,
    }
}

impl SectionMark {
    /// After the first entering of a section.
    fn new(row: &Entering, owner: Owner) -> SectionMark {
        SectionMark {
            section: row.section,
            weakest: row.weakest,
            value: row.value,
            weaker: owner,
            enterer: owner,
        }
    }

    /// After more of them.
    fn renew(&mut self, row: &Entering, owner: Owner) {
        if self.weakest != row.weakest {
            self.weakest = row.weakest;
            self.weaker = owner;
        }
        if self.value != row.value {
            self.value = row.value;
            self.enterer = owner;
        }
    }
}

impl CellState {
    /// Nobody touches the cell.
    const UNTOUCHED: CellState = CellState {
        touched: false,
        stored: false,
        differ: false,
        sections: 0,
    };

    /// What the row of a cell tells.
    fn of(row: &Option<Touching>) -> CellState {
        match row {
            Some(touching) => CellState {
                touched: true,
                stored: touching.stored,
                differ: touching.differ,
                sections: touching.sections.len(),
            },
            None => CellState::UNTOUCHED,
        }
    }
}

impl Marks {
    /// For so many cells, before anything is looked at.
    pub fn new(alloc: Global, cells: usize) -> Result<Marks, NoMemory> {
        Ok(Marks {
            split: None,
            past: None,
            inoperable: None,
            misnoted: None,
            again: None,
            sections: Vec::new(alloc),
            states: Vec::from_elem(alloc, CellState::UNTOUCHED, cells)?,
            cells: Vec::new(alloc),
        })
    }

    /// Marks what the walk over an owner's code has changed of the sections.
    fn mark_sections(&mut self, rows: &[Entering], owner: Owner) -> Result<(), NoMemory> {
        for (index, row) in rows.iter().enumerate() {
            match self.sections.get_mut(index) {
                Some(mark) => mark.renew(row, owner),
                None => self.sections.push(SectionMark::new(row, owner))?,
            }
        }
        Ok(())
    }

    /// Marks what the walk over an owner's code has changed of the cells.
    fn mark_cells(&mut self, rows: &[Option<Touching>], owner: Owner) -> Result<(), NoMemory> {
        for (cell, row) in rows.iter().enumerate() {
            let state = CellState::of(row);
            if self.states.get(cell) != Some(&state) {
                self.keep_state(cell, state);
                self.cells.push(CellMark { cell, owner })?;
            }
        }
        Ok(())
    }

    /// Keeps what is known of a cell.
    fn keep_state(&mut self, cell: usize, state: CellState) {
        if let Some(kept) = self.states.get_mut(cell) {
            *kept = state;
        }
    }

    /// Marks what the walk over an owner's code has found.
    pub fn mark(&mut self, findings: &Findings, owner: Owner) -> Result<(), NoMemory> {
        self.past = first(self.past, findings.addresses, owner);
        self.inoperable = first(self.inoperable, findings.operands, owner);
        self.misnoted = first(self.misnoted, findings.notes, owner);
        self.again = first(self.again, findings.sections.free, owner);
        self.mark_sections(&findings.sections.rows, owner)?;
        self.mark_cells(&findings.cells.rows, owner)
    }

    /// The mark of a section.
    fn of_section(&self, section: &Section) -> Option<SectionMark> {
        for mark in &self.sections {
            if is_same_section(mark.section, *section) {
                return Some(*mark);
            }
        }
        None
    }

    /// Where the weakest hold of a section was found.
    pub fn weaker(&self, section: &Section) -> Option<Owner> {
        Some(self.of_section(section)?.weaker)
    }

    /// Where the least priority value of those who enter a section was found.
    pub fn enterer(&self, section: &Section) -> Option<Owner> {
        Some(self.of_section(section)?.enterer)
    }
}
