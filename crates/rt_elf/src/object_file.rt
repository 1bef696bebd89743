// The bytes of an object.

ghost use Rattle.std.specs.Prelude.{◌≡◌, ◌↔◌, ◌+◌, ◌*◌, ◌++◌, ◌<◌, ◌≤◌, ◌^◌, length, IfOk, IfSome, IfNone};
ghost use Rattle.std.specs.Prelude.{IsTrue, OnOk};
ghost use Rattle.rt_elf.specs.Linking as spec;
ghost use Rattle.rt_elf.specs.Linking.{IsShort, HasNumbers, IsLinkable, object_of, object_size};
ghost use Rattle.rt_elf.specs.Object.{object_symbols, first_wanted as first_wanted_of};
ghost use Rattle.rt_elf.specs.Symbols.{strings, symbol_table};

use crate::object::{Object, ObjectOffsets};
use crate::offsets::{left_of, left_of_symbols, names_size};
use crate::symbols::{push_strings, push_symbols};
use crate::word::{push_halves, push_words};
use rt_ids::{NoMemory, push_bytes};
use std::alloc::Global;

/// The type of a relocation of a BL.
const R_ARM_THM_CALL: u32 = 10;

/// The bytes of an object.
pub fn object_bytes(alloc: Global, object: &Object) -> Result<Vec<u8>, NoMemory>
    requires { IsLinkable object.now }
    ensures { IfOk result (λ bytes. bytes.items ≡ object_of object.now) }
{
    let offsets = part_offsets(object);
    let mut out = Vec::new(alloc);
    push_header(&mut out, offsets)?;
    push_bytes(&mut out, &object.bytes)?;
    push_relocations(&mut out, first_wanted(object), &object.calls)?;
    push_symbol_table(&mut out, object)?;
    push_sections(&mut out, object, offsets)?;
    push_bytes(&mut out, section_names())?;
    push_all_strings(&mut out, object)?;
    Ok(out)
}

/// The names of sections, with an empty one first.
fn section_names() -> &'static [u8]
    ensures { result.now ≡ spec.object_section_names }
{
    b"\0.rel.rtic\0.symtab\0.strtab\0.shstrtab\0"
}

/// The number of the first symbol that another file has.
fn first_wanted(object: &Object) -> u32
    requires { IsShort object.now }
    ensures { result ≡ first_wanted_of object.now }
{
    1 + object.marks.len() as u32 + object.symbols.len() as u32
}

/// Where the parts of the file of an object begin.
fn part_offsets(object: &Object) -> ObjectOffsets
    requires { IsShort object.now }
    ensures { result ≡ spec.object_offsets_of object.now }
{
    let bytes_size = object.bytes.len() as u32;
    let relocations = 52 + bytes_size;
    let relocations_size = 8 * object.calls.len() as u32;
    let symbols = relocations + relocations_size;
    let symbols_size = 16 * (first_wanted(object) + object.wanted.len() as u32);
    let sections = symbols + symbols_size;
    let names_bytes = names_size(&object.symbols) + names_size(&object.wanted);
    ObjectOffsets {
        bytes_size,
        relocations,
        relocations_size,
        symbols,
        symbols_size,
        sections,
        names: sections + 240,
        strings: sections + 277,
        strings_size: 1 + names_size(&object.marks) + names_bytes,
    }
}

/// Appends the header of the file.
#[tactic(auto, unfolding(crate::specs::Linking::object_header))]
fn push_header(out: &mut Vec<u8>, offsets: ObjectOffsets) -> Result<(), NoMemory>
    ensures { OnOk result (out.new.items ≡ out.old.items ++ spec.object_header offsets) }
{
    push_bytes(out, b"\x7fELF\x01\x01\x01\0\0\0\0\0\0\0\0\0")?;
    push_halves(out, &[1, 40])?;
    push_words(out, &[1, 0, 0, offsets.sections, 0x0500_0000])?;
    push_halves(out, &[52, 0, 0, 40, 6, 5])
}

/// Appends the relocations of calls, the first of which is of the symbol of a number.
fn push_relocations(out: &mut Vec<u8>, first: u32, calls: &[u32]) -> Result<(), NoMemory>
    requires { first + length calls.now ≤ 2 ^ 24 }
    ensures { OnOk result (out.new.items ≡ out.old.items ++ spec.relocations_from first calls.now) }
{
    let mut symbol = first;
    for offset in calls {
        push_words(out, &[*offset, (symbol << 8) + R_ARM_THM_CALL])?;
        symbol += 1;
    }
    Ok(())
}

/// Appends the symbol table.
fn push_symbol_table(out: &mut Vec<u8>, object: &Object) -> Result<(), NoMemory>
    requires { IsShort object.now }
    ensures { OnOk result (out.new.items ≡ out.old.items ++ symbol_table (object_symbols object.now)) }
{
    push_words(out, &[0, 0, 0, 0])?;
    let next = push_symbols(out, 1, &object.marks)?;
    let behind = push_symbols(out, next, &object.symbols)?;
    push_symbols(out, behind, &object.wanted)?;
    Ok(())
}

/// Appends the headers of sections.
#[tactic(auto, unfolding(crate::specs::Linking::object_sections))]
fn push_sections(out: &mut Vec<u8>, object: &Object, offsets: ObjectOffsets) -> Result<(), NoMemory>
    requires { 1 + length object.now.marks < 2 ^ 32 }
    ensures { OnOk result (out.new.items ≡ out.old.items ++ spec.object_sections object.now offsets) }
{
    push_words(out, &[0, 0, 0, 0, 0, 0, 0, 0, 0, 0])?;
    push_words(out, &[5, 1, 6, 0, 52, offsets.bytes_size, 0, 0, 8, 0])?;
    let (relocations, size) = (offsets.relocations, offsets.relocations_size);
    push_words(out, &[1, 9, 0, 0, relocations, size, 3, 1, 4, 8])?;
    let (symbols, size) = (offsets.symbols, offsets.symbols_size);
    let locals = 1 + object.marks.len() as u32;
    push_words(out, &[11, 2, 0, 0, symbols, size, 4, locals, 4, 16])?;
    let (strings, size) = (offsets.strings, offsets.strings_size);
    push_words(out, &[19, 3, 0, 0, strings, size, 0, 0, 1, 0])?;
    push_words(out, &[27, 3, 0, 0, offsets.names, 37, 0, 0, 1, 0])
}

/// Appends the strings that symbols name.
#[tactic(auto, unfolding(crate::specs::Symbols::strings))]
fn push_all_strings(out: &mut Vec<u8>, object: &Object) -> Result<(), NoMemory>
    ensures { OnOk result (out.new.items ≡ out.old.items ++ strings (object_symbols object.now)) }
{
    push_bytes(out, &[0])?;
    push_strings(out, &object.marks)?;
    push_strings(out, &object.symbols)?;
    push_strings(out, &object.wanted)
}

/// What is left of some bytes where the relocations of calls take their own.
fn left_of_calls(room: u32, calls: &[u32]) -> Option<u32>
    ensures some { IfSome result (λ left. left + 8 * length calls.now ≡ room) }
    ensures none { IfNone result (room < 8 * length calls.now) }
{
    let left = left_of(room / 8, calls.len())?;
    Some(8 * left + room % 8)
}

/// What is left of 4 GiB less 1 behind the file of an object.
#[tactic(auto, using(crate::proofs::Entries::object_bytes))]
fn left_of_object(object: &Object) -> Option<u32>
    ensures some { IfSome result (λ left. left + object_size object.now ≡ 0xFFFF_FFFF) }
    ensures none { IfNone result (0xFFFF_FFFF < object_size object.now) }
{
    let left = left_of(u32::MAX - 346, object.bytes.len())?;
    let left = left_of_calls(left, &object.calls)?;
    let left = left_of_symbols(left, &object.marks)?;
    let left = left_of_symbols(left, &object.symbols)?;
    left_of_symbols(left, &object.wanted)
}

/// Whether the number of each symbol that is called can be written, of an object that has less than 4 GiB.
fn has_numbers(object: &Object) -> bool
    requires { IsShort object.now }
    ensures { IsTrue result ↔ HasNumbers object.now }
{
    first_wanted(object) + object.calls.len() as u32 <= 1 << 24
}

/// Whether the file of an object can be written: it has less than 4 GiB, and few enough symbols.
pub fn is_linkable(object: &Object) -> bool
    ensures { IsTrue result ↔ IsLinkable object.now }
{
    match left_of_object(object) {
        Some(_) => has_numbers(object),
        None => false,
    }
}
