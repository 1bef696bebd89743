// What an executable has.

use rt_ids::Name;
use std::marker::Model;

/// The part of a file that a symbol lies in.
#[derive(Clone, Copy)]
pub enum Part {
    /// The bytes of code.
    Text,
    /// The bytes of data.
    Data,
    /// No part: its value is an address that no linker changes.
    Absolute,
    /// No part of this file: another file has it.
    Elsewhere,
}

/// What a symbol names.
#[derive(Clone, Copy)]
pub enum Kind {
    /// A place where instructions or data begin; it is local to the file.
    Mark,
    /// A word of data, or some.
    Object,
    /// Code.
    Function,
}

/// A name for an address.
#[derive(Drop)]
pub struct Symbol {
    pub name: Name,
    /// The address, and in an object the offset in the section, unless it is absolute; that of a function of Thumb
    /// instructions has bit 0 set.
    pub value: u32,
    /// How many bytes it names, 0 where that is not known.
    pub size: u32,
    pub kind: Kind,
    pub part: Part,
}

/// An executable: code and data with their addresses, room for the stack, an entry and symbols. Contracts see a record
/// of lists.
pub struct Executable {
    /// The address at which it begins, with bit 0 set where the code is of Thumb instructions.
    pub entry: u32,
    /// Where the bytes of code lie.
    pub text_address: u32,
    /// The bytes of code.
    pub text: Vec<u8>,
    /// Where the bytes of data lie as the program runs.
    pub data_address: u32,
    /// Where they lie before the program copies them.
    pub data_load: u32,
    /// The bytes of data.
    pub values: Vec<u8>,
    /// Where the stack's room begins.
    pub stack_address: u32,
    /// The bytes of the stack's room.
    pub stack_bytes: u32,
    /// Symbols that are local to the file.
    pub marks: Vec<Symbol>,
    /// Symbols that other files may name.
    pub symbols: Vec<Symbol>,
}

impl Model for Executable {
    ghost use Rattle.rt_elf.specs.Executable.{Executable};

    ghost Value = { Executable };

    ghost view = { λ e. record {
      entry = e.entry;
      text_address = e.text_address;
      text = e.text.items;
      data_address = e.data_address;
      data_load = e.data_load;
      values = e.values.items;
      stack_address = e.stack_address;
      stack_bytes = e.stack_bytes;
      marks = e.marks.items;
      symbols = e.symbols.items;
    } };
}

impl Drop for Executable {
    fn drop(self) {
        let Executable {
            entry: _,
            text_address: _,
            text: _,
            data_address: _,
            data_load: _,
            values: _,
            stack_address: _,
            stack_bytes: _,
            marks: _,
            symbols: _,
        } = self;
    }
}
