// The forms that a line has.

ghost use Rattle.std.specs.Prelude.{◌≡◌, ◌++◌, decimal, OnOk};
ghost use Rattle.rt_report.specs.Report.{line};

use itoa::Buffer;
use rt_ids::{NoMemory, push_bytes};

/// Appends a number in decimal.
fn push_wide(out: &mut Vec<u8>, number: u128) -> Result<(), NoMemory>
    ensures { OnOk result (out.new.items ≡ out.old.items ++ decimal number) }
{
    let mut buffer = Buffer::new();
    push_bytes(out, buffer.format(number).as_bytes())
}

/// Appends a line of a word, a name and a number.
#[tactic(auto, unfolding(rt_report::specs::Report::line))]
pub(crate) fn push_line(
    out: &mut Vec<u8>,
    word: &[u8],
    name: &[u8],
    number: u128,
) -> Result<(), NoMemory>
    ensures { OnOk result (out.new.items ≡ out.old.items ++ line word.now name.now number) }
{
    push_bytes(out, word)?;
    push_bytes(out, b" ")?;
    push_bytes(out, name)?;
    push_bytes(out, b" ")?;
    push_wide(out, number)?;
    push_bytes(out, b"\n")
}
