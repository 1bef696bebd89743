// Looks at all points of an image, and marks at whose code something was found.

ghost use Rattle.std.specs.Prelude.{IfOk, MatchOption};
ghost use Rattle.rt_points.specs.Limits.{IsWithinLimits};
ghost use Rattle.rt_points.specs.Rules.{NestsInOneWay};
ghost use Rattle.rt_judge.specs.Inside.Looks.{Looked};

use crate::marks::Marks;
use rt_code::Image;
use rt_ids::NoMemory;
use rt_judge::findings::Findings;
use rt_judge::verdict::{look_at_handler, look_at_thread};
use rt_points::Owner;
use std::alloc::Global;

/// What there is at all points of an image, or None where the first rule is broken.
pub fn look(alloc: Global, image: &Image, marks: &mut Marks) -> Result<Option<Findings>, NoMemory>
    requires { IsWithinLimits image.now }
    ensures { IfOk result (λ found. MatchOption found (¬ NestsInOneWay image.now) (Looked image.now)) }
{
    let mut findings = Findings::new(alloc, image)?;
    if !look_at_thread(alloc, image, &mut findings)? {
        marks.split = Some(Owner::Starting);
        return Ok(None);
    }
    marks.mark(&findings, Owner::Starting)?;
    for index in 0..image.irqs.len() {
        if !look_at_handler(alloc, image, &mut findings, index)? {
            marks.split = Some(Owner::Handling(index));
            return Ok(None);
        }
        marks.mark(&findings, Owner::Handling(index))?;
    }
    Ok(Some(findings))
}
