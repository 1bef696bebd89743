// The address at which the next code begins.

ghost use Rattle.std.specs.Prelude.{◌≡◌, ◌≤◌, ◌^◌, length, IfOk, OnErr};

use rt_code::Line;
use rt_ids::NoMemory;

/// The address after code. One that does not fit in 32 bits counts as want of memory.
pub fn next_entry(code: &[Line]) -> Result<u32, NoMemory>
    ensures entry { IfOk result (λ entry. entry ≡ length code.now) }
    ensures cause { OnErr result (2 ^ 32 ≤ length code.now) }
{
    u32::try_from(code.len()).ok().ok_or(NoMemory)
}
