// The one public call: the bytes of an executable.

ghost use Rattle.std.specs.Prelude.{◌≡◌, ◌++◌, ◌<◌, ◌^◌, IfOk, OnOk};
ghost use Rattle.rt_elf.specs.Executable.{all_symbols};
ghost use Rattle.rt_elf.specs.File.{elf_of};
ghost use Rattle.rt_elf.specs.Offsets.{file_size};
ghost use Rattle.rt_elf.specs.Symbols as spec;

use crate::executable::Executable;
use crate::headers::{push_file_header, push_section_headers, push_segment_headers, section_names};
use crate::offsets::part_offsets;
use crate::symbols::{push_strings, push_symbols};
use crate::word::push_words;
use rt_ids::{NoMemory, push_bytes};
use std::alloc::Global;

/// The bytes of an executable.
pub fn elf_bytes(alloc: Global, executable: &Executable) -> Result<Vec<u8>, NoMemory>
    requires { file_size executable.now < 2 ^ 32 }
    ensures { IfOk result (λ bytes. bytes.items ≡ elf_of executable.now) }
{
    let offsets = part_offsets(executable);
    let mut out = Vec::new(alloc);
    push_file_header(&mut out, executable, offsets)?;
    push_segment_headers(&mut out, executable, offsets)?;
    push_bytes(&mut out, &executable.text)?;
    push_bytes(&mut out, &executable.values)?;
    push_symbol_table(&mut out, executable)?;
    push_section_headers(&mut out, executable, offsets)?;
    push_bytes(&mut out, section_names())?;
    push_all_strings(&mut out, executable)?;
    Ok(out)
}

/// Appends the symbol table.
#[tactic(auto, using(crate::proofs::Entries::sizes_append))]
fn push_symbol_table(out: &mut Vec<u8>, executable: &Executable) -> Result<(), NoMemory>
    requires { file_size executable.now < 2 ^ 32 }
    ensures { OnOk result (out.new.items ≡ out.old.items ++ spec.symbol_table (all_symbols executable.now)) }
{
    push_words(out, &[0, 0, 0, 0])?;
    let next = push_symbols(out, 1, &executable.marks)?;
    push_symbols(out, next, &executable.symbols)?;
    Ok(())
}

/// Appends the strings that symbols name.
#[tactic(auto, unfolding(crate::specs::Symbols::strings))]
fn push_all_strings(out: &mut Vec<u8>, executable: &Executable) -> Result<(), NoMemory>
    ensures { OnOk result (out.new.items ≡ out.old.items ++ spec.strings (all_symbols executable.now)) }
{
    push_bytes(out, &[0])?;
    push_strings(out, &executable.marks)?;
    push_strings(out, &executable.symbols)
}
