// The one public call: yes, or the least rule that is broken.

ghost use Rattle.std.specs.Prelude.{◌≡◌, ℕ, [], ◌∷◌, IfOk, MatchBool, MatchOption, Ok};
ghost use Rattle.rt_points.specs.Checked.{IsChecked, IsLeastBroken};
ghost use Rattle.rt_points.specs.Leading.{IsPoint, starts_at};
ghost use Rattle.rt_points.specs.Limits.{IsWithinLimits};
ghost use Rattle.rt_points.specs.Rules.{NestsInOneWay};
ghost use Rattle.rt_judge.specs.Inside.Looks as spec;
ghost use Rattle.rt_judge.specs.Inside.Visits.{spots_of, AreSound};
ghost use Rattle.rt_judge.specs.Inside.Walks.{ArePoints};

use crate::execution_priority::handler_at;
use crate::findings::Findings;
use crate::nesting::{Nesting, Nestings};
use crate::numbers::has_right_numbers;
use crate::walk::{Visit, Visits, walk_from};
use rt_code::Image;
use rt_ids::NoMemory;
use rt_points::{Owner, Rule};
use std::alloc::Global;

/// The answer of the judge.
#[derive(Clone, Copy, PartialEq, Eq)]
pub enum Verified {
    /// The image keeps all rules.
    Yes,
    /// The number of the least rule that it breaks: 1 to 7.
    No(u8),
}

/// Where the walk over an owner's code begins, with nothing open.
pub fn start(alloc: Global, address: u32) -> Result<Visits, NoMemory>
    ensures { IfOk result (λ starts. AreSound starts
        × (spots_of starts ≡ record { address = address; inside = [] } ∷ [])) }
{
    let mut list = Vec::new(alloc);
    list.push(Visit {
        address,
        nesting: Nesting::NOTHING,
    })?;
    Ok(Visits {
        nestings: Nestings::new(alloc),
        list,
    })
}

/// Finds what there is at the points of the thread, from where `init` ends. It answers whether the first rule is kept.
fn look_behind(
    alloc: Global,
    image: &Image,
    findings: &mut Findings,
    behind: Visits,
) -> Result<bool, NoMemory>
    requires limits { IsWithinLimits image.now }
    requires sound { AreSound behind }
    requires points { ArePoints image.now Owner.Thread (spots_of behind) }
    ensures { IfOk result (λ kept. MatchBool kept
        (spec.LooksBehind image.now (spots_of behind) findings.old findings.new) (¬ NestsInOneWay image.now)) }
{
    match walk_from(alloc, image, findings, Owner::Thread, behind)? {
        Some(_) => Ok(true),
        None => Ok(false),
    }
}

/// Finds what there is at the points of `init` and the thread. It answers whether the first rule is kept there.
pub fn look_at_thread(
    alloc: Global,
    image: &Image,
    findings: &mut Findings,
) -> Result<bool, NoMemory>
    requires { IsWithinLimits image.now }
    ensures { IfOk result (λ kept. MatchBool kept
        (spec.Looks image.now spec.IsThread findings.old findings.new) (¬ NestsInOneWay image.now)) }
{
    let starts = start(alloc, 0)?;
    match walk_from(alloc, image, findings, Owner::Starting, starts)? {
        Some(behind) => look_behind(alloc, image, findings, behind),
        None => Ok(false),
    }
}

/// Finds what there is at the points of a handler, from its entry. It answers whether the first rule is kept there.
fn look_from_entry(
    alloc: Global,
    image: &Image,
    findings: &mut Findings,
    index: usize,
    entry: u32,
) -> Result<bool, NoMemory>
    requires limits { IsWithinLimits image.now }
    requires point { IsPoint image.now (starts_at entry (Owner.Handling index)) }
    ensures { IfOk result (λ kept. MatchBool kept
        (spec.LooksFromEntry image.now index entry findings.old findings.new) (¬ NestsInOneWay image.now)) }
{
    let starts = start(alloc, entry)?;
    match walk_from(alloc, image, findings, Owner::Handling(index), starts)? {
        Some(_) => Ok(true),
        None => Ok(false),
    }
}

/// Finds what there is at the points of a handler, where it is enabled. It answers whether the first rule is kept
/// there.
pub fn look_at_handler(
    alloc: Global,
    image: &Image,
    findings: &mut Findings,
    index: usize,
) -> Result<bool, NoMemory>
    requires { IsWithinLimits image.now }
    ensures { IfOk result (λ kept. MatchBool kept
        (spec.Looks image.now (spec.IsOf index) findings.old findings.new) (¬ NestsInOneWay image.now)) }
{
    match handler_at(image, index) {
        Some(handler) => look_from_entry(alloc, image, findings, index, handler.entry),
        None => Ok(true),
    }
}

/// What there is at all points of an image, or None where the first rule is broken.
pub fn look(alloc: Global, image: &Image) -> Result<Option<Findings>, NoMemory>
    requires { IsWithinLimits image.now }
    ensures { IfOk result (λ found. MatchOption found (¬ NestsInOneWay image.now) (spec.Looked image.now)) }
{
    let mut findings = Findings::new(alloc, image)?;
    if !look_at_thread(alloc, image, &mut findings)? {
        return Ok(None);
    }
    for index in 0..image.irqs.len() {
        if !look_at_handler(alloc, image, &mut findings, index)? {
            return Ok(None);
        }
    }
    Ok(Some(findings))
}

/// The first rule that is broken, of those behind the first.
pub fn first_broken(image: &Image, findings: &Findings) -> Option<Rule>
    requires limits { IsWithinLimits image.now }
    requires looked { spec.Looked image.now findings.now }
    ensures { spec.IsFirstBroken image.now result }
{
    if !has_right_numbers(image) {
        Some(Rule::Numbers)
    } else if !findings.addresses {
        Some(Rule::Addresses)
    } else if !findings.operands {
        Some(Rule::Operands)
    } else if !findings.notes {
        Some(Rule::Notes)
    } else if !findings.sections.hold_off() {
        Some(Rule::Ceilings)
    } else if !findings.cells.are_guarded() {
        Some(Rule::Guards)
    } else {
        None
    }
}

/// The least rule that is broken.
fn least_broken(alloc: Global, image: &Image) -> Result<Option<Rule>, NoMemory>
    requires { IsWithinLimits image.now }
    ensures { IfOk result (spec.IsFirstBroken image.now) }
{
    match look(alloc, image)? {
        Some(findings) => Ok(first_broken(image, &findings)),
        None => Ok(Some(Rule::Nesting)),
    }
}

/// Judges an image by the seven rules: Yes where it keeps them all, else the least that it breaks. It keeps the points
/// of one owner at a time; its time grows with the code that each owner comes to. It fails for want of memory alone.
pub fn judge(alloc: Global, image: &Image) -> Result<Verified, NoMemory>
    requires { IsWithinLimits image.now }
    ensures yes { result ≡ Ok Verified.Yes → IsChecked image.now }
    ensures no { (number : ℕ) → result ≡ Ok (Verified.No number) → IsLeastBroken image.now number }
{
    match least_broken(alloc, image)? {
        Some(rule) => Ok(Verified::No(rule.number())),
        None => Ok(Verified::Yes),
    }
}
