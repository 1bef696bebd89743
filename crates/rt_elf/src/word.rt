// Halfwords and words of an ELF file.

ghost use Rattle.std.specs.Prelude.{◌≡◌, ◌++◌, OnOk};
ghost use Rattle.rt_elf.specs.Word.{half, halves, words};

use rt_ids::{NoMemory, push_bytes};

/// Appends a halfword.
pub(crate) fn push_half(out: &mut Vec<u8>, number: u16) -> Result<(), NoMemory>
    ensures { OnOk result (out.new.items ≡ out.old.items ++ half number) }
{
    push_bytes(out, &number.to_le_bytes())
}

/// Appends halfwords.
#[tactic(auto, unfolding(crate::specs::Word::halves))]
pub(crate) fn push_halves(out: &mut Vec<u8>, numbers: &[u16]) -> Result<(), NoMemory>
    ensures { OnOk result (out.new.items ≡ out.old.items ++ halves numbers.now) }
{
    for number in numbers {
        push_half(out, *number)?;
    }
    Ok(())
}

/// Appends words.
#[tactic(auto, unfolding(crate::specs::Word::words))]
pub fn push_words(out: &mut Vec<u8>, numbers: &[u32]) -> Result<(), NoMemory>
    ensures { OnOk result (out.new.items ≡ out.old.items ++ words numbers.now) }
{
    for number in numbers {
        push_bytes(out, &number.to_le_bytes())?;
    }
    Ok(())
}
