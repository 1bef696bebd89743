// The one public call: the application, or the first rule that it breaks.

#![tactic(auto, using(crate::proofs::Fold::first_of_append))]

ghost use Rattle.std.specs.Prelude.{◌≡◌, ◌≤◌, ◌++◌, [], None, map, length, IfOk, IfErr, OnOk};
ghost use Rattle.rt_ids.specs.declared.limits.TheConstants.{TEXT_BYTES};
ghost use Rattle.rt_app.specs.View.{app_of};
ghost use Rattle.rt_app.specs.Bodies.{members};
ghost use Rattle.rt_app.specs.Declarations.{declarations};
ghost use Rattle.rt_app.specs.Rules.{violations};
ghost use Rattle.rt_rules.specs.Inside.First.{first_of};
ghost use Rattle.rt_rules.specs.Refusal.{fault_at, IsRefusal};
ghost use Rattle.rt_rules.specs.Inside.View.{member_of};

use crate::declarations::{judge_dispatchers, judge_hardware_tasks, judge_priorities};
use crate::first::First;
use crate::lengths::judge_lengths;
use crate::listing::judge_listings;
use crate::member::{Member, members};
use crate::owned::judge_owned;
use crate::statements::judge_statements;
use crate::used::judge_interrupts;
use rt_app::{App, Violation};
use rt_ids::{Fault, NoMemory, Refusal, Refused};
use rt_lex::place;
use rt_resolve::Resolved;
use std::alloc::Global;

/// Offers the declarations that break a rule.
fn judge_declarations(
    alloc: Global,
    first: &mut First,
    app: &App,
    bodies: &[Member<'_>],
) -> Result<(), NoMemory>
    requires { map member_of bodies.now ≡ members (app_of app.now) }
    ensures { OnOk result (first.new ≡ first_of first.old (declarations (app_of app.now))) }
{
    judge_priorities(first, app);
    judge_interrupts(alloc, first, app)?;
    judge_dispatchers(first, app);
    judge_owned(alloc, first, bodies)?;
    judge_hardware_tasks(first, &app.tasks);
    Ok(())
}

/// The first of all violations: of the rules on names, and of all other rules.
fn first_violation(alloc: Global, resolved: &Resolved) -> Result<Option<Violation>, NoMemory>
    ensures { IfOk result (λ found. found
        ≡ first_of None (resolved.now.faults.items ++ violations (app_of resolved.now.app))) }
{
    let app = &resolved.app;
    let bodies = members(alloc, app)?;
    let mut first = First::none();
    first.offer_all(&resolved.faults);
    judge_declarations(alloc, &mut first, app, &bodies)?;
    judge_listings(alloc, &mut first, app, &bodies)?;
    judge_statements(alloc, &mut first, app, &bodies)?;
    judge_lengths(&mut first, app, &bodies);
    Ok(first.violation())
}

/// The refusal of a rule, at the line and the column of its offset.
fn fault_at(src: &[u8], violation: Violation) -> Fault
    requires { length src.now ≤ TEXT_BYTES }
    ensures { result ≡ fault_at src.now violation }
{
    let within = violation.at.min(src.len() as u32);
    Fault {
        place: place(src, within),
        refusal: Refusal::Rule(violation.rule),
    }
}

/// The application, where no rule is broken; else the first violation, that at the smallest offset and there that of
/// the smallest number.
pub fn rules(alloc: Global, src: &[u8], resolved: Resolved) -> Result<App, Refused>
    requires short { length src.now ≤ TEXT_BYTES }
    ensures ok { IfOk result (λ app. (app ≡ resolved.app) × (resolved.faults.items ≡ [])
        × (violations (app_of app) ≡ [])) }
    ensures refused { IfErr result
        (λ r. IsRefusal src.now (resolved.faults.items ++ violations (app_of resolved.app)) r) }
{
    match first_violation(alloc, &resolved) {
        Ok(None) => Ok(resolved.into_app()),
        Ok(Some(violation)) => Err(Refused::At(fault_at(src, violation))),
        Err(NoMemory) => Err(Refused::NoMemory),
    }
}
