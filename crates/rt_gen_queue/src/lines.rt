// Lines of code as they are generated, with the address of the next.

ghost use Rattle.std.specs.Prelude.{◌≡◌, ◌∷◌, [], ◌+◌, ◌<◌, ◌≤◌, ◌^◌, ◌++◌, length, slice_set, IfOk, OnErr, OnOk};
ghost use Rattle.rt_gen_queue.specs.Line.{plain, line_with_note};
ghost use Rattle.rt_gen_queue.specs.Making.{next_address, Appends};

use rt_code::{Instr, Line, Note};
use rt_ids::NoMemory;
use std::alloc::Global;
use std::marker::Model;

/// Appends lines to code. An error says that memory is used up, and leaves the code as it was.
pub fn append_lines(code: &mut Vec<Line>, lines: &[Line]) -> Result<(), NoMemory>
    ensures code { OnOk result (code.new.items ≡ code.old.items ++ lines.now) }
    ensures left { OnErr result (code.new.items ≡ code.old.items) }
{
    code.extend_from_slice(lines).ok().ok_or(NoMemory)
}

/// Lines of code as they are generated, one after the other.
pub struct Lines {
    /// The address of the first one.
    pub entry: u32,
    pub lines: Vec<Line>,
}

impl Drop for Lines {
    fn drop(self) {
        let Lines { entry: _, lines: _ } = self;
    }
}

impl Model for Lines {
    ghost use Rattle.rt_gen_queue.specs.Making.{Made};

    ghost Value = { Made };

    ghost view = { λ code. record { entry = code.entry; lines = code.lines.items } };
}

impl Lines {
    /// No lines, the first of which will be at this address.
    pub fn new(alloc: Global, entry: u32) -> Lines
        ensures { result ≡ record { entry = entry; lines = [] } }
    {
        Lines {
            entry,
            lines: Vec::new(alloc),
        }
    }

    /// How many lines there are.
    pub fn len(&self) -> usize
        ensures { result ≡ length self.now.lines }
    {
        self.lines.len()
    }

    /// The address of the next line. One that does not fit in 32 bits counts as want of memory.
    pub fn next_address(&self) -> Result<u32, NoMemory>
        ensures at { IfOk result (λ at. at ≡ next_address self.now) }
        ensures cause { OnErr result (2 ^ 32 ≤ next_address self.now) }
    {
        match u32::try_from(self.lines.len()) {
            Ok(count) => self.entry.checked_add(count).ok_or(NoMemory),
            Err(_) => Err(NoMemory),
        }
    }

    /// The address of the next line, if so many more addresses fit in 32 bits. Where they do not, that counts as want
    /// of memory.
    pub fn address_with_room(&self, room: u32) -> Result<u32, NoMemory>
        ensures at { IfOk result (λ at. at ≡ next_address self.now) }
        ensures room { IfOk result (λ at. at + room < 2 ^ 32) }
        ensures cause { OnErr result (2 ^ 32 ≤ next_address self.now + room) }
    {
        let at = self.next_address()?;
        at.checked_add(room).ok_or(NoMemory)?;
        Ok(at)
    }

    /// Appends a line without a note. An error says that memory is used up, and leaves the lines as they were.
    pub fn push(&mut self, instr: Instr) -> Result<(), NoMemory>
        ensures lines { OnOk result (Appends self.old self.new (plain instr ∷ [])) }
        ensures left { OnErr result (self.new ≡ self.old) }
    {
        self.append(&[(instr, None)])
    }

    /// Appends a line with a note. An error says that memory is used up, and leaves the lines as they were.
    pub fn push_noted(&mut self, instr: Instr, note: Note) -> Result<(), NoMemory>
        ensures lines { OnOk result (Appends self.old self.new (line_with_note instr note ∷ [])) }
        ensures left { OnErr result (self.new ≡ self.old) }
    {
        self.append(&[(instr, Some(note))])
    }

    /// Appends lines, in their order. An error says that memory is used up, and leaves the lines as they were.
    pub fn append(&mut self, lines: &[Line]) -> Result<(), NoMemory>
        ensures lines { OnOk result (Appends self.old self.new lines.now) }
        ensures left { OnErr result (self.new ≡ self.old) }
    {
        append_lines(&mut self.lines, lines)
    }

    /// Puts an instruction without a note in place of the line at an index.
    pub fn replace(&mut self, index: usize, instr: Instr)
        requires { index < length self.old.lines }
        ensures { self.new ≡ record self.old { lines = slice_set self.old.lines index (plain instr) } }
    {
        self.lines[index] = (instr, None);
    }

    /// The lines.
    pub fn as_slice(&self) -> &[Line]
        ensures { result.now ≡ self.now.lines }
    {
        self.lines.as_slice()
    }
}
