// What an object has.

use crate::executable::Symbol;
use std::marker::Model;

/// A file that a linker joins with others: one section, symbols, and calls of functions that other files have.
/// Contracts see a record of lists.
pub struct Object {
    /// The bytes of the section.
    pub bytes: Vec<u8>,
    /// Symbols that are local to the file.
    pub marks: Vec<Symbol>,
    /// Symbols that other files may name.
    pub symbols: Vec<Symbol>,
    /// The symbols of functions that other files have, one for each call.
    pub wanted: Vec<Symbol>,
    /// Where those are called, in the same order: the offset of each BL in the section.
    pub calls: Vec<u32>,
}

impl Model for Object {
    ghost use Rattle.rt_elf.specs.Object.{Object};

    ghost Value = { Object };

    ghost view = { λ o. record {
      bytes = o.bytes.items;
      marks = o.marks.items;
      symbols = o.symbols.items;
      wanted = o.wanted.items;
      calls = o.calls.items;
    } };
}

impl Drop for Object {
    fn drop(self) {
        let Object {
            bytes: _,
            marks: _,
            symbols: _,
            wanted: _,
            calls: _,
        } = self;
    }
}

/// Where the headers of an object say that its parts begin, and how long they are.
#[derive(Clone, Copy)]
pub(crate) struct ObjectOffsets {
    pub bytes_size: u32,
    pub relocations: u32,
    pub relocations_size: u32,
    pub symbols: u32,
    pub symbols_size: u32,
    pub sections: u32,
    pub names: u32,
    pub strings: u32,
    pub strings_size: u32,
}
