// The forms that a line of `check` has.

ghost use Rattle.std.specs.Prelude.{◌≡◌, ◌++◌, decimal, OnOk};
ghost use Rattle.rt_report.specs.Report.{line};

use rt_ids::{NoMemory, push_bytes, push_number};

/// Appends a line of a word, a name and a number.
pub(crate) fn push_line(
    out: &mut Vec<u8>,
    word: &[u8],
    name: &[u8],
    number: u32,
) -> Result<(), NoMemory>
    ensures { OnOk result (out.new.items ≡ out.old.items ++ line word.now name.now number) }
{
    push_dotted(out, word, b"", name, number)
}

/// Appends a line of a word, a prefix with a name, and a number.
#[tactic(auto, unfolding(crate::specs::Report::line))]
pub(crate) fn push_dotted(
    out: &mut Vec<u8>,
    word: &[u8],
    prefix: &[u8],
    name: &[u8],
    number: u32,
) -> Result<(), NoMemory>
    ensures { OnOk result (out.new.items ≡ out.old.items ++ line word.now (prefix.now ++ name.now) number) }
{
    push_bytes(out, word)?;
    push_bytes(out, b" ")?;
    push_bytes(out, prefix)?;
    push_bytes(out, name)?;
    push_bytes(out, b" ")?;
    push_number(out, number)?;
    push_bytes(out, b"\n")
}

/// Appends a line of a word, a prefix with a number, and a number.
#[tactic(auto, unfolding(crate::specs::Report::line))]
pub(crate) fn push_numbered(
    out: &mut Vec<u8>,
    word: &[u8],
    prefix: &[u8],
    index: u8,
    number: u32,
) -> Result<(), NoMemory>
    ensures { OnOk result (out.new.items ≡ out.old.items ++ line word.now (prefix.now ++ decimal index) number) }
{
    push_bytes(out, word)?;
    push_bytes(out, b" ")?;
    push_bytes(out, prefix)?;
    push_number(out, u32::from(index))?;
    push_bytes(out, b" ")?;
    push_number(out, number)?;
    push_bytes(out, b"\n")
}
