// The headers of an executable file.

ghost use Rattle.std.specs.Prelude.{◌≡◌, ◌+◌, ◌++◌, ◌<◌, ◌^◌, length, OnOk};
ghost use Rattle.rt_elf.specs.Headers as spec;

use crate::executable::Executable;
use crate::offsets::Offsets;
use crate::word::{push_halves, push_words};
use rt_ids::{NoMemory, push_bytes};

/// The names of sections, with an empty one first.
pub(crate) fn section_names() -> &'static [u8]
    ensures { result.now ≡ spec.section_names }
{
    b"\0.text\0.data\0.stack\0.symtab\0.strtab\0.shstrtab\0"
}

/// Appends the header of a file.
#[tactic(auto, unfolding(crate::specs::Headers::file_header))]
pub(crate) fn push_file_header(
    out: &mut Vec<u8>,
    executable: &Executable,
    offsets: Offsets,
) -> Result<(), NoMemory>
    ensures { OnOk result (out.new.items ≡ out.old.items ++ spec.file_header executable.now offsets) }
{
    push_bytes(out, b"\x7fELF\x01\x01\x01\0\0\0\0\0\0\0\0\0")?;
    push_halves(out, &[2, 40])?;
    push_words(
        out,
        &[1, executable.entry, 52, offsets.sections, 0x0500_0000],
    )?;
    push_halves(out, &[52, 32, 2, 40, 7, 6])
}

/// Appends the headers of the two segments, of code and of data.
#[tactic(auto, unfolding(crate::specs::Headers::segment_headers))]
pub(crate) fn push_segment_headers(
    out: &mut Vec<u8>,
    executable: &Executable,
    offsets: Offsets,
) -> Result<(), NoMemory>
    ensures { OnOk result (out.new.items ≡ out.old.items ++ spec.segment_headers executable.now offsets) }
{
    let (text, text_size) = (executable.text_address, offsets.text_size);
    let (data, data_size) = (executable.data_address, offsets.values_size);
    let load = executable.data_load;
    push_words(
        out,
        &[1, offsets.text, text, text, text_size, text_size, 5, 4],
    )?;
    push_words(
        out,
        &[1, offsets.values, data, load, data_size, data_size, 6, 4],
    )
}

/// Appends the headers of sections.
#[tactic(auto, unfolding(crate::specs::Headers::section_headers))]
pub(crate) fn push_section_headers(
    out: &mut Vec<u8>,
    executable: &Executable,
    offsets: Offsets,
) -> Result<(), NoMemory>
    requires { 1 + length executable.now.marks < 2 ^ 32 }
    ensures { OnOk result (out.new.items ≡ out.old.items ++ spec.section_headers executable.now offsets) }
{
    push_words(out, &[0, 0, 0, 0, 0, 0, 0, 0, 0, 0])?;
    push_loaded_sections(out, executable, offsets)?;
    let (symbols, symbols_size) = (offsets.symbols, offsets.symbols_size);
    let locals = 1 + executable.marks.len() as u32;
    push_words(out, &[20, 2, 0, 0, symbols, symbols_size, 5, locals, 4, 16])?;
    let (strings, strings_size) = (offsets.strings, offsets.strings_size);
    push_words(out, &[28, 3, 0, 0, strings, strings_size, 0, 0, 1, 0])?;
    push_words(out, &[36, 3, 0, 0, offsets.names, 46, 0, 0, 1, 0])
}

/// Appends the headers of the sections that take memory as the program runs.
#[tactic(auto, unfolding(crate::specs::Headers::loaded_sections))]
fn push_loaded_sections(
    out: &mut Vec<u8>,
    executable: &Executable,
    offsets: Offsets,
) -> Result<(), NoMemory>
    ensures { OnOk result (out.new.items ≡ out.old.items ++ spec.loaded_sections executable.now offsets) }
{
    let (text, text_size) = (executable.text_address, offsets.text_size);
    let (data, data_size) = (executable.data_address, offsets.values_size);
    let (stack, room) = (executable.stack_address, executable.stack_bytes);
    push_words(out, &[1, 1, 6, text, offsets.text, text_size, 0, 0, 4, 0])?;
    push_words(out, &[7, 1, 3, data, offsets.values, data_size, 0, 0, 4, 0])?;
    push_words(out, &[13, 8, 3, stack, offsets.symbols, room, 0, 0, 8, 0])
}
