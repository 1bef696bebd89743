// Why a text that is read line by line is refused, and what is printed then.

ghost use Rattle.std.specs.Prelude.{◌≡◌, ◌++◌, IfOk, OnOk};
ghost use Rattle.rt_lines.specs.Refusal as spec;

use rt_ids::{NoMemory, push_bytes, push_number};
use std::alloc::Global;

/// Why a text is refused, where C is what can be wrong with a text or with a line of it.
#[derive(Clone, Copy)]
pub enum TextRefused<C> {
    /// The line of this number, from 1, is the first that is wrong; a text that is too long is refused at line 1.
    Wrong { line: u32, cause: C },
    /// Memory was wanted and not there.
    NoMemory,
}

/// What is printed where a text of a kind is refused at a line, for a cause that is told by its number and in words.
pub fn refusal_text(
    alloc: Global,
    kind: &[u8],
    line: u32,
    cause: &[u8],
) -> Result<Vec<u8>, NoMemory>
    ensures { IfOk result (λ text. text.items ≡ spec.refusal_text kind.now line cause.now) }
{
    let mut out = Vec::new(alloc);
    push_place(&mut out, kind, line)?;
    push_bytes(&mut out, cause)?;
    push_bytes(&mut out, b"\n")?;
    Ok(out)
}

/// Appends where a text of a kind is refused.
fn push_place(out: &mut Vec<u8>, kind: &[u8], line: u32) -> Result<(), NoMemory>
    ensures { OnOk result (out.new.items ≡ out.old.items ++ spec.place kind.now line) }
{
    push_bytes(out, kind)?;
    push_bytes(out, b":")?;
    push_number(out, line)?;
    push_bytes(out, b" ")
}
