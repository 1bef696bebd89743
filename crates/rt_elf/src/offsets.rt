// Where the parts of a file begin.

ghost use Rattle.std.specs.Prelude.{◌≡◌, ◌↔◌, ◌+◌, ◌<◌, ◌^◌, sum_by, IsTrue, IfSome, IfNone};
ghost use Rattle.rt_elf.specs.Offsets.{file_size, offsets_of};
ghost use Rattle.rt_elf.specs.Symbols.{string_bytes, symbol_bytes};

use crate::executable::{Executable, Symbol};

/// Where the headers of sections say that the parts of a file begin, and how long they are.
#[derive(Clone, Copy)]
pub(crate) struct Offsets {
    pub text: u32,
    pub text_size: u32,
    pub values: u32,
    pub values_size: u32,
    pub symbols: u32,
    pub symbols_size: u32,
    pub sections: u32,
    pub names: u32,
    pub strings: u32,
    pub strings_size: u32,
}

/// How many bytes the names of symbols take, each with a 0 at its end.
pub(crate) fn names_size(symbols: &[Symbol]) -> u32
    requires { sum_by string_bytes symbols.now < 2 ^ 32 }
    ensures { result ≡ sum_by string_bytes symbols.now }
{
    let mut size = 0;
    for symbol in symbols {
        size += symbol.name.bytes().len() as u32 + 1;
    }
    size
}

/// Where the parts of the file of an executable begin.
pub(crate) fn part_offsets(executable: &Executable) -> Offsets
    requires { file_size executable.now < 2 ^ 32 }
    ensures { result ≡ offsets_of executable.now }
{
    let text_size = executable.text.len() as u32;
    let values_size = executable.values.len() as u32;
    let count = executable.marks.len() as u32 + executable.symbols.len() as u32;
    let values = 116 + text_size;
    let symbols = values + values_size;
    let symbols_size = 16 + 16 * count;
    let sections = symbols + symbols_size;
    Offsets {
        text: 116,
        text_size,
        values,
        values_size,
        symbols,
        symbols_size,
        sections,
        names: sections + 280,
        strings: sections + 326,
        strings_size: 1 + names_size(&executable.marks) + names_size(&executable.symbols),
    }
}

/// What is left of some bytes where others are taken.
pub(crate) fn left_of(room: u32, bytes: usize) -> Option<u32>
    ensures some { IfSome result (λ left. left + bytes ≡ room) }
    ensures none { IfNone result (room < bytes) }
{
    if bytes > room as usize {
        None
    } else {
        Some(room - bytes as u32)
    }
}

/// What is left of some bytes where a symbol takes its own.
fn left_of_symbol(room: u32, symbol: &Symbol) -> Option<u32>
    ensures some { IfSome result (λ left. left + symbol_bytes symbol.now ≡ room) }
    ensures none { IfNone result (room < symbol_bytes symbol.now) }
{
    left_of(left_of(room, 17)?, symbol.name.bytes().len())
}

/// What is left of some bytes where symbols take their own.
pub(crate) fn left_of_symbols(room: u32, symbols: &[Symbol]) -> Option<u32>
    ensures some { IfSome result (λ left. left + sum_by symbol_bytes symbols.now ≡ room) }
    ensures none { IfNone result (room < sum_by symbol_bytes symbols.now) }
{
    let mut left = room;
    for symbol in symbols {
        left = left_of_symbol(left, symbol)?;
    }
    Some(left)
}

/// What is left of 4 GiB less 1 behind the file of an executable.
#[tactic(auto, using(crate::proofs::Entries::file_bytes))]
fn left_of_file(executable: &Executable) -> Option<u32>
    ensures some { IfSome result (λ left. left + file_size executable.now ≡ 0xFFFF_FFFF) }
    ensures none { IfNone result (0xFFFF_FFFF < file_size executable.now) }
{
    let left = left_of(u32::MAX - 459, executable.text.len())?;
    let left = left_of(left, executable.values.len())?;
    let left = left_of_symbols(left, &executable.marks)?;
    left_of_symbols(left, &executable.symbols)
}

/// Whether the file of an executable has less than 4 GiB, so that it can be written.
pub fn is_short(executable: &Executable) -> bool
    ensures { IsTrue result ↔ (file_size executable.now < 2 ^ 32) }
{
    left_of_file(executable).is_some()
}
