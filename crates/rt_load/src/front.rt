// The rows of a listing that come before its code, as they are read.

ghost use Rattle.std.specs.Prelude.{◌≡◌, ◌≢◌, ◌<◌, [], ◌∷◌, ◌++◌, true, Ok, Err, IfErr, IfOk, OnOk};
ghost use Rattle.rt_ids.specs.Names.{with_irq};
ghost use Rattle.rt_lines.specs.Parts.{words_of};
ghost use Rattle.rt_load.specs.Inside.Taking as spec;

use crate::declaring::{has_dot, is_new_irq, is_new_task, may_name_cell};
use crate::noting::read_line;
use crate::operand::{Wrong, read_byte, read_number};
use crate::printed::{is_body_line, is_cell_line, is_first_line, is_irq_line};
use crate::rows::{read_body_row, read_cell, read_irq_row, read_three};
use rt_code::{BodyRow, Image, IrqRow, Line};
use rt_ids::limits::{CODE_SIZE, LEAST_BITS, MOST_BITS};
use rt_ids::{CellRow, Name, Names, NoMemory, TaskId};
use rt_lines::next_word;
use std::alloc::Global;

/// The front of a listing: the image that its lines tell so far, and how many instructions and cells it will have.
#[derive(Drop)]
pub struct Front {
    pub image: Image,
    pub code: u32,
    pub cells: u32,
}

/// An image of no rows.
fn image_of(alloc: Global, fpu: bool, bits: u8, stack_bytes: u32, thread_words: u32) -> Image
    ensures { result ≡ (spec.front_of fpu bits stack_bytes thread_words 0 0).image }
{
    Image {
        bits,
        fpu,
        stack_bytes,
        thread_words,
        cells: Vec::new(alloc),
        irqs: Vec::new(alloc),
        bodies: Vec::new(alloc),
        code: Vec::new(alloc),
        names: Names::new(alloc),
    }
}

/// The front of the words of a first line.
fn read_first(alloc: Global, words: Option<&[u8]>) -> Result<Front, Wrong>
    ensures { result ≡ spec.first_at (words_of words.entry) }
{
    let (_, words) = next_word(words).ok_or(Wrong::Form)?;
    let (form, words) = next_word(words).ok_or(Wrong::Form)?;
    let (bits, words) = next_word(words).ok_or(Wrong::Form)?;
    let (stack, words) = next_word(words).ok_or(Wrong::Form)?;
    let bits = read_byte(bits)?;
    let stack = read_number(stack)?;
    let (thread, code, cells) = read_three(words)?;
    Ok(Front {
        image: image_of(alloc, form == b"2".as_slice(), bits, stack, thread),
        code,
        cells,
    })
}

impl Front {
    /// The front of a first line.
    pub fn begin(alloc: Global, line: &[u8]) -> Result<Front, Wrong>
        ensures read { IfOk result (λ x. spec.take_first line.now ≡ Ok x) }
        ensures refused { IfErr result (λ w. w ≢ Wrong.NoMemory → spec.take_first line.now ≡ Err w) }
    {
        let front = read_first(alloc, Some(line))?;
        if front.is_within() && is_first_line(alloc, &front.image, front.code, front.cells, line)? {
            Ok(front)
        } else {
            Err(Wrong::Form)
        }
    }

    /// Whether the sizes are within the limits of applications.
    fn is_within(&self) -> bool
        ensures { result ≡ spec.is_within self.now }
    {
        LEAST_BITS <= u32::from(self.image.bits)
            && u32::from(self.image.bits) <= MOST_BITS
            && self.code <= CODE_SIZE
    }

    /// Whether no cell is missing.
    fn has_cells(&self) -> bool
        ensures { result ≡ spec.has_cells self.now }
    {
        self.image.cells.len() == self.cells as usize
    }

    /// Whether no line is missing.
    pub fn is_complete(&self) -> bool
        ensures { result ≡ spec.is_complete self.now }
    {
        self.has_cells() && self.image.code.len() == self.code as usize
    }

    /// Takes the next line behind the first. After an error the front is of no use; `load` drops it.
    #[tactic(auto, unfolding(crate::specs::Inside::Taking::take_line))]
    pub fn take(&mut self, alloc: Global, line: &[u8]) -> Result<(), Wrong>
        ensures taken { OnOk result (spec.take_line self.old line.now ≡ Ok self.new) }
        ensures refused { IfErr result (λ w. w ≢ Wrong.NoMemory → spec.take_line self.old line.now ≡ Err w) }
    {
        let Some((kind, words)) = next_word(Some(line)) else {
            return Err(Wrong::Form);
        };
        if kind == b"cell".as_slice() {
            self.take_cell(alloc, line, words)
        } else if kind == b"irq".as_slice() {
            self.take_irq(alloc, line, words)
        } else if kind == b"body".as_slice() {
            self.take_body(alloc, line, words)
        } else if kind == b"code".as_slice() {
            self.take_code(words)
        } else {
            Err(Wrong::Form)
        }
    }

    /// Whether a cell more may have this name.
    fn may_add_cell(&self, name: &[u8]) -> bool
        ensures { result ≡ spec.may_add_cell self.now name.now }
    {
        self.image.cells.len() < self.cells as usize
            && self.image.irqs.is_empty()
            && self.image.bodies.is_empty()
            && self.image.code.is_empty()
            && may_name_cell(&self.image.names, name)
    }

    /// Whether an interrupt more may have this name.
    fn may_add_irq(&self, name: &[u8]) -> bool
        ensures { result ≡ spec.may_add_irq self.now name.now }
    {
        self.has_cells()
            && self.image.bodies.is_empty()
            && self.image.code.is_empty()
            && is_new_irq(&self.image.names, name)
    }

    /// Whether a task more may have this name.
    fn may_add_body(&self, name: &[u8]) -> bool
        ensures { result ≡ spec.may_add_body self.now name.now }
    {
        self.has_cells() && self.image.code.is_empty() && is_new_task(&self.image.names, name)
    }

    /// Whether an instruction more may come.
    fn may_add_line(&self) -> bool
        ensures { result ≡ spec.may_add_line self.now }
    {
        self.has_cells() && self.image.code.len() < self.code as usize
    }

    /// The cell of a line.
    fn next_cell(&self, alloc: Global, line: &[u8], words: Option<&[u8]>) -> Result<CellRow, Wrong>
        ensures read { IfOk result (λ x. spec.next_cell self.now line.now (words_of words.entry) ≡ Ok x) }
        ensures refused { IfErr result (λ w. w ≢ Wrong.NoMemory → spec.next_cell self.now line.now
            (words_of words.entry) ≡ Err w) }
    {
        let (name, first) = read_cell(words)?;
        if !self.may_add_cell(name) {
            return Err(Wrong::Form);
        }
        let cell = CellRow {
            name: Name::of(alloc, name)?,
            first,
        };
        if is_cell_line(alloc, self.image.cells.len(), &cell, line)? {
            Ok(cell)
        } else {
            Err(Wrong::Form)
        }
    }

    /// Takes the line of a cell.
    fn take_cell(&mut self, alloc: Global, line: &[u8], words: Option<&[u8]>) -> Result<(), Wrong>
        ensures taken { OnOk result (spec.take_cell self.old line.now (words_of words.entry) ≡ Ok self.new) }
        ensures refused { IfErr result (λ w. w ≢ Wrong.NoMemory → spec.take_cell self.old line.now
            (words_of words.entry) ≡ Err w) }
    {
        let cell = self.next_cell(alloc, line, words)?;
        add_cell(alloc, &mut self.image.cells, &mut self.image.names, cell)?;
        Ok(())
    }

    /// The interrupt of a line.
    fn next_irq(&self, alloc: Global, line: &[u8], words: Option<&[u8]>) -> Result<IrqRow, Wrong>
        ensures read { IfOk result (λ x. spec.next_irq self.now line.now (words_of words.entry) ≡ Ok x) }
        ensures refused { IfErr result (λ w. w ≢ Wrong.NoMemory → spec.next_irq self.now line.now (words_of words.entry)
            ≡ Err w) }
    {
        let (name, number, handler) = match read_irq_row(words) {
            Ok(row) => row,
            Err(wrong) => return Err(wrong),
        };
        if !self.may_add_irq(name) {
            return Err(Wrong::Form);
        }
        let row = IrqRow {
            name: Name::of(alloc, name)?,
            number,
            handler,
        };
        if is_irq_line(alloc, &row, line)? {
            Ok(row)
        } else {
            Err(Wrong::Form)
        }
    }

    /// Takes the line of an interrupt.
    fn take_irq(&mut self, alloc: Global, line: &[u8], words: Option<&[u8]>) -> Result<(), Wrong>
        ensures taken { OnOk result (spec.take_irq self.old line.now (words_of words.entry) ≡ Ok self.new) }
        ensures refused { IfErr result (λ w. w ≢ Wrong.NoMemory → spec.take_irq self.old line.now (words_of words.entry)
            ≡ Err w) }
    {
        let row = self.next_irq(alloc, line, words)?;
        add_irq(alloc, &mut self.image.irqs, &mut self.image.names, row)?;
        Ok(())
    }

    /// Takes the line of a body.
    fn take_body(&mut self, alloc: Global, line: &[u8], words: Option<&[u8]>) -> Result<(), Wrong>
        ensures taken { OnOk result (spec.take_body self.old line.now (words_of words.entry) ≡ Ok self.new) }
        ensures refused { IfErr result (λ w. w ≢ Wrong.NoMemory → spec.take_body self.old line.now
            (words_of words.entry) ≡ Err w) }
    {
        let task = TaskId(self.image.names.task_count() as u8);
        let (name, row) = match read_body_row(task, words) {
            Ok(body) => body,
            Err(wrong) => return Err(wrong),
        };
        if !self.may_add_body(name) {
            return Err(Wrong::Form);
        }
        self.image.names.add_task(alloc, name)?;
        if is_body_line(alloc, &self.image.names, &row, line)? {
            add_body(&mut self.image.bodies, row)?;
            Ok(())
        } else {
            Err(Wrong::Form)
        }
    }

    /// The instruction of the words of a line, with its note.
    fn next_line(&self, words: Option<&[u8]>) -> Result<Line, Wrong>
        ensures { result ≡ spec.next_line self.now (words_of words.entry) }
    {
        if self.may_add_line() {
            let line = read_line(&self.image.names, self.image.code.len(), words)?;
            Ok(line)
        } else {
            Err(Wrong::Form)
        }
    }

    /// Takes the line of an instruction.
    fn take_code(&mut self, words: Option<&[u8]>) -> Result<(), Wrong>
        ensures taken { OnOk result (spec.take_code self.old (words_of words.entry) ≡ Ok self.new) }
        ensures refused { IfErr result (λ w. w ≢ Wrong.NoMemory
            → spec.take_code self.old (words_of words.entry) ≡ Err w) }
    {
        match self.next_line(words) {
            Ok(code) => Ok(add_line(&mut self.image.code, code)?),
            Err(wrong) => Err(wrong),
        }
    }
}

/// Adds a cell, and its resource where it is one's.
fn add_cell(
    alloc: Global,
    cells: &mut Vec<CellRow>,
    names: &mut Names,
    cell: CellRow,
) -> Result<(), NoMemory>
    requires { spec.may_name_cell names.old cell.name ≡ true }
    ensures cells { OnOk result (cells.new.items ≡ cells.old.items ++ cell ∷ []) }
    ensures names { OnOk result (names.new ≡ spec.with_name_of names.old cell.name) }
{
    if !has_dot(cell.name.bytes()) {
        names.add_resource(alloc, cell.name.bytes())?;
    }
    cells.push(cell)?;
    Ok(())
}

/// Adds an interrupt.
fn add_irq(
    alloc: Global,
    irqs: &mut Vec<IrqRow>,
    names: &mut Names,
    row: IrqRow,
) -> Result<(), NoMemory>
    requires { spec.is_new_irq names.old row.name ≡ true }
    ensures irqs { OnOk result (irqs.new.items ≡ irqs.old.items ++ row ∷ []) }
    ensures names { OnOk result (names.new ≡ with_irq names.old row.name row.number) }
{
    names.add_irq(alloc, row.name.bytes(), row.number)?;
    irqs.push(row)?;
    Ok(())
}

/// Adds a body.
fn add_body(bodies: &mut Vec<BodyRow>, row: BodyRow) -> Result<(), NoMemory>
    ensures { OnOk result (bodies.new.items ≡ bodies.old.items ++ row ∷ []) }
{
    bodies.push(row)?;
    Ok(())
}

/// Adds a line of code.
fn add_line(code: &mut Vec<Line>, line: Line) -> Result<(), NoMemory>
    ensures { OnOk result (code.new.items ≡ code.old.items ++ line ∷ []) }
{
    code.extend_from_slice(&[line])?;
    Ok(())
}
