// The symbol table, and the strings that it names.

ghost use Rattle.std.specs.Prelude.{◌≡◌, ◌+◌, ◌<◌, ◌^◌, [], ◌∷◌, ◌++◌, flat_map, sum_by, IfOk, OnOk};
ghost use Rattle.rt_elf.specs.Symbols as spec;
ghost use Rattle.rt_elf.specs.Symbols.{string_bytes, symbol_entry, symbol_entries};

use crate::executable::{Kind, Part, Symbol};
use crate::word::{push_half, push_words};
use rt_ids::{NoMemory, push_bytes};

/// The binding and the type of a symbol.
fn info(kind: Kind) -> u8
    ensures { result ≡ spec.info kind }
{
    match kind {
        Kind::Mark => 0,
        Kind::Object => 17,
        Kind::Function => 18,
    }
}

/// The index of the section that a symbol lies in.
fn section_index(part: Part) -> u16
    ensures { result ≡ spec.section_index part }
{
    match part {
        Part::Text => 1,
        Part::Data => 2,
        Part::Absolute => 0xFFF1,
        Part::Elsewhere => 0,
    }
}

/// Appends the entry of a symbol, whose name begins at a place among the strings.
fn push_symbol(out: &mut Vec<u8>, name: u32, symbol: &Symbol) -> Result<(), NoMemory>
    ensures { OnOk result (out.new.items ≡ out.old.items ++ symbol_entry name symbol.now) }
{
    push_words(out, &[name, symbol.value, symbol.size])?;
    push_bytes(out, &[info(symbol.kind), 0])?;
    push_half(out, section_index(symbol.part))
}

/// Appends the entries of symbols, the name of the first of which begins at a place among the strings, and answers
/// where the name of the next one would begin.
pub(crate) fn push_symbols(
    out: &mut Vec<u8>,
    name: u32,
    symbols: &[Symbol],
) -> Result<u32, NoMemory>
    requires { name + sum_by string_bytes symbols.now < 2 ^ 32 }
    ensures entries { OnOk result (out.new.items ≡ out.old.items ++ symbol_entries name symbols.now) }
    ensures next { IfOk result (λ next. next ≡ name + sum_by string_bytes symbols.now) }
{
    let mut name = name;
    for symbol in symbols {
        push_symbol(out, name, symbol)?;
        name += symbol.name.bytes().len() as u32 + 1;
    }
    Ok(name)
}

/// Appends the names of symbols, each with a 0 at its end.
pub(crate) fn push_strings(out: &mut Vec<u8>, symbols: &[Symbol]) -> Result<(), NoMemory>
    ensures { OnOk result (out.new.items ≡ out.old.items ++ flat_map (λ s. s.name ++ 0 ∷ []) symbols.now) }
{
    for symbol in symbols {
        push_bytes(out, symbol.name.bytes())?;
        push_bytes(out, &[0])?;
    }
    Ok(())
}
