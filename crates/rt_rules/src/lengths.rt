// The rules on the length of bodies and of all code.

#![tactic(auto, using(crate::proofs::Fold::first_of_append))]

ghost use Rattle.std.specs.Prelude.{◌≡◌, ◌||◌, nat_lt, map};
ghost use Rattle.rt_ids.specs.declared.limits.TheConstants.{BODY_COST, CODE_SIZE};
ghost use Rattle.rt_app.specs.View.{app_of};
ghost use Rattle.rt_app.specs.BodyCost.{shared_size};
ghost use Rattle.rt_app.specs.Length.{too_long};
ghost use Rattle.rt_rules.specs.Inside.First.{first_of};
ghost use Rattle.rt_rules.specs.Inside.View.{member_of};

use crate::first::First;
use crate::member::Member;
use rt_app::App;
use rt_frames::{Measure, shared_size};
use rt_ids::Rule;
use rt_ids::limits::{BODY_COST, CODE_SIZE};

/// Whether a body takes too many core steps, or the code is too large with it.
fn is_too_long(steps: u32, behind: u32) -> bool
    ensures { result ≡ (nat_lt BODY_COST steps || nat_lt CODE_SIZE behind) }
{
    BODY_COST < steps || CODE_SIZE < behind
}

/// Offers the bodies that take too many steps, and those up to which the code is too large.
pub(crate) fn judge_lengths(first: &mut First, app: &App, members: &[Member<'_>])
    ensures { first.new ≡ first_of first.old
        (too_long (app_of app.now) (shared_size (app_of app.now)) (map member_of members.now)) }
{
    let steps = Measure::cost(app);
    let instructions = Measure::size(app);
    let mut before = shared_size(app);
    for member in members {
        let behind = before.saturating_add(instructions.body(member.body));
        let broken = is_too_long(steps.body(member.body), behind);
        first.offer_when(broken, Rule::TooLongBody, member.body.at);
        before = behind;
    }
}
