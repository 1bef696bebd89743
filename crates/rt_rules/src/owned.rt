// The rule that a local resource has one owner.

#![tactic(auto, using(crate::proofs::Fold::first_of_append))]

ghost use Rattle.std.specs.Prelude.{◌≡◌, ◌==◌, ◌&&◌, ◌||◌, ℕ, [], map, flat_map, OnOk};
ghost use Rattle.std.specs.List.{list_any};
ghost use Rattle.rt_ids.specs.declared.rule.Rule.TheVariants as rule;
ghost use Rattle.rt_app.specs.Violation.{when};
ghost use Rattle.rt_app.specs.Declarations.{is_known, owned_twice};
ghost use Rattle.rt_rules.specs.Inside.First.{first_of};
ghost use Rattle.rt_rules.specs.Inside.Tables.{has};
ghost use Rattle.rt_rules.specs.Inside.View.{member_of};

use crate::first::First;
use crate::member::Member;
use crate::numbers::Numbers;
use rt_app::{Owned, UNKNOWN};
use rt_ids::{NoMemory, Rule};
use std::alloc::Global;

/// Whether a known local resource is in.
fn is_owned(owned: &Numbers, local: u8) -> bool
    ensures { result ≡ (is_known local && has owned.now local) }
{
    local != UNKNOWN && owned.has(u16::from(local))
}

/// Offers the listings of local resources that bodies before list too.
fn judge_locals(first: &mut First, owned: &Numbers, locals: &[Owned])
    ensures { first.new ≡ first_of first.old
        (flat_map (λ o. when (is_known o.local && has owned.now o.local) rule.LocalInTwoTasks o.at) locals.now) }
{
    for item in locals {
        first.offer_when(is_owned(owned, item.local), Rule::LocalInTwoTasks, item.at);
    }
}

/// Puts in the local resources of a body.
fn insert_locals(owned: &mut Numbers, locals: &[Owned]) -> Result<(), NoMemory>
    ensures { OnOk result ((k : ℕ) → has owned.new k ≡ (list_any (λ o. o.local == k) locals.now || has owned.old k)) }
{
    for item in locals {
        owned.insert(u16::from(item.local))?;
    }
    Ok(())
}

/// Offers the listings of local resources that two bodies list.
pub(crate) fn judge_owned(
    alloc: Global,
    first: &mut First,
    members: &[Member<'_>],
) -> Result<(), NoMemory>
    ensures { OnOk result (first.new ≡ first_of first.old (owned_twice [] (map member_of members.now))) }
{
    let mut owned = Numbers::new(alloc);
    for member in members {
        judge_locals(first, &owned, &member.body.local);
        insert_locals(&mut owned, &member.body.local)?;
    }
    Ok(())
}
