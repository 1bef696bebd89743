// The witness of the sixth rule.

ghost use Rattle.std.specs.Prelude.{◌≡◌, ◌<◌, true, Some, IfOk, MatchOption};
ghost use Rattle.std.specs.List.{list_all};
ghost use Rattle.rt_points.specs.Limits.{IsWithinLimits};
ghost use Rattle.rt_points.specs.Rules.{EntersWell};
ghost use Rattle.rt_points.specs.declared.rule.Rule.TheVariants as rule;
ghost use Rattle.rt_judge.specs.Inside.Looks.{Looked};
ghost use Rattle.rt_judge.specs.Inside.Entering.{holds_off};
ghost use Rattle.rt_why.specs.Inside.Rows.{IsWeakRow};
ghost use Rattle.rt_why.specs.Witness as spec;

use crate::marks::Marks;
use crate::search::point_near;
use crate::wanted::Wanted;
use crate::witness::Witness;
use rt_code::Image;
use rt_ids::{NoMemory, Section};
use rt_judge::entering::Entering;
use rt_judge::findings::Findings;
use std::alloc::Global;

/// The least priority value of those who enter, where not each entering holds it off.
fn weak_value(row: &Entering) -> Option<u32>
    ensures { MatchOption result (holds_off row.now ≡ true)
        (λ least. (row.now.value ≡ Some least) × (least < row.now.weakest)) }
{
    match row.value {
        Some(value) if value < row.weakest => Some(value),
        _ => None,
    }
}

/// The section and the least priority value of a row that does not hold off everyone who enters.
fn weak_row(rows: &[Entering]) -> Option<(Section, u32)>
    ensures { MatchOption result (list_all holds_off rows.now ≡ true) (λ both. IsWeakRow rows.now both.0 both.1) }
{
    for row in rows {
        if let Some(least) = weak_value(row) {
            return Some((row.section, least));
        }
    }
    None
}

/// The witness that the sixth rule is broken.
pub fn ceilings_witness(
    alloc: Global,
    image: &Image,
    findings: &Findings,
    marks: &Marks,
) -> Result<Witness, NoMemory>
    requires limits { IsWithinLimits image.now }
    requires looked { Looked image.now findings.now }
    requires broken { ¬ EntersWell image.now }
    ensures { IfOk result (λ w. spec.IsWitness image.now w × (spec.rule_of w ≡ rule.Ceilings)) }
{
    if !findings.sections.free {
        return Ok(Witness::Again(point_near(alloc, image, marks.again, &Wanted::Again)?));
    }
    match weak_row(&findings.sections.rows) {
        Some(weak) => {
            let one = point_near(
                alloc,
                image,
                marks.weaker(&weak.0),
                &Wanted::Weaker(weak.0, weak.1),
            )?;
            let other = point_near(
                alloc,
                image,
                marks.enterer(&weak.0),
                &Wanted::Enterer(weak.0, weak.1),
            )?;
            Ok(Witness::Weak(one, other))
        }
        None => unreachable!(),
    }
}
