// Judges a loaded image.

ghost use Rattle.std.specs.Prelude.{IfOk};
ghost use Rattle.rt_load.specs.Loadable.{IsLoadable};
ghost use Rattle.rt_load.specs.Verdict.{IsVerdict};

use rt_code::Image;
use rt_ids::NoMemory;
use rt_judge::{Verified, judge};
use std::alloc::Global;

/// Whether an image keeps the seven rules, and with that is safe, or else the least rule that it breaks. It may have
/// been made by anything.
pub fn verify(alloc: Global, image: &Image) -> Result<Verified, NoMemory>
    requires { IsLoadable image.now }
    ensures { IfOk result (λ verdict. IsVerdict image.now verdict) }
{
    judge(alloc, image)
}
