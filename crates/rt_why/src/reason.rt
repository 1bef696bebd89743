// The one public call for images: yes, or a witness of the least rule that is broken.

ghost use Rattle.std.specs.Prelude.{◌≡◌, IfOk};
ghost use Rattle.rt_points.specs.Limits.{IsWithinLimits};
ghost use Rattle.rt_points.specs.Checked.{IsLeastBroken, rule_number};
ghost use Rattle.rt_points.specs.Rules.{NestsInOneWay, StaysInCode};
ghost use Rattle.rt_points.specs.declared.rule.Rule.TheVariants as rules;
ghost use Rattle.rt_judge.specs.Inside.Looks.{Looked};
ghost use Rattle.rt_why.specs.Witness as spec;

use crate::ceilings::ceilings_witness;
use crate::guards::guards_witness;
use crate::looking::look;
use crate::marks::Marks;
use crate::numbers::numbers_witness;
use crate::parts::{notes_witness, operands_witness};
use crate::search::{Outcome, point_near, search, search_owner};
use crate::wanted::Wanted;
use crate::witness::{Why, Witness};
use rt_code::Image;
use rt_ids::NoMemory;
use rt_judge::findings::Findings;
use rt_judge::verdict::first_broken;
use rt_points::{Owner, Rule};
use std::alloc::Global;

/// The witness that the first rule is broken, most likely by this owner.
fn nesting_witness(alloc: Global, image: &Image, owner: Option<Owner>) -> Result<Witness, NoMemory>
    requires limits { IsWithinLimits image.now }
    requires broken { ¬ NestsInOneWay image.now }
    ensures { IfOk result (λ w. spec.IsWitness image.now w × (spec.rule_of w ≡ rules.Nesting)) }
{
    if let Some(likely) = owner {
        match search_owner(alloc, image, likely, &Wanted::Nothing)? {
            Outcome::Split(witness) => return Ok(witness),
            Outcome::Nothing | Outcome::Found(_) => {}
        }
    }
    match search(alloc, image, &Wanted::Nothing)? {
        Outcome::Split(witness) => Ok(witness),
        Outcome::Nothing | Outcome::Found(_) => unreachable!(),
    }
}

/// The witness that the third rule is broken.
fn addresses_witness(alloc: Global, image: &Image, marks: &Marks) -> Result<Witness, NoMemory>
    requires limits { IsWithinLimits image.now }
    requires nests { NestsInOneWay image.now }
    requires broken { ¬ StaysInCode image.now }
    ensures { IfOk result (λ w. spec.IsWitness image.now w × (spec.rule_of w ≡ rules.Addresses)) }
{
    Ok(Witness::Past(point_near(alloc, image, marks.past, &Wanted::Past)?))
}

/// The witness of a rule behind the first that is the least broken.
fn witness_of(
    alloc: Global,
    image: &Image,
    findings: &Findings,
    marks: &Marks,
    rule: Rule,
) -> Result<Witness, NoMemory>
    requires limits { IsWithinLimits image.now }
    requires looked { Looked image.now findings.now }
    requires least { IsLeastBroken image.now (rule_number rule) }
    ensures { IfOk result (λ w. spec.IsWitness image.now w × (spec.rule_of w ≡ rule)) }
{
    match rule {
        Rule::Nesting => nesting_witness(alloc, image, marks.split),
        Rule::Numbers => Ok(numbers_witness(image)),
        Rule::Addresses => addresses_witness(alloc, image, marks),
        Rule::Operands => operands_witness(alloc, image, marks),
        Rule::Notes => notes_witness(alloc, image, marks),
        Rule::Ceilings => ceilings_witness(alloc, image, findings, marks),
        Rule::Guards => guards_witness(alloc, image, findings, marks),
    }
}

/// Why an image does not keep the seven rules: a witness of the least that it breaks. It judges the image, and marks at
/// whose code something was found; then it looks for each point of the witness there, so that the time is about that of
/// the judge. It fails for want of memory alone.
pub fn why(alloc: Global, image: &Image) -> Result<Why, NoMemory>
    requires { IsWithinLimits image.now }
    ensures { IfOk result (spec.IsWhy image.now) }
{
    let mut marks = Marks::new(alloc, image.cells.len())?;
    let Some(findings) = look(alloc, image, &mut marks)? else {
        return Ok(Why::No(nesting_witness(alloc, image, marks.split)?));
    };
    match first_broken(image, &findings) {
        Some(rule) => Ok(Why::No(witness_of(alloc, image, &findings, &marks, rule)?)),
        None => Ok(Why::Yes),
    }
}
