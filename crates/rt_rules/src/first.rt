// Keeps the first of the violations that the rules offer.

#![tactic(auto, using(crate::proofs::Fold::first_of_append))]

ghost use Rattle.std.specs.Prelude.{◌≡◌, [], ◌∷◌, None, if◌then◌else◌};
ghost use Rattle.rt_app.specs.Violation.{rank, when};
ghost use Rattle.rt_rules.specs.Inside.First.{is_before, first_of};

use rt_app::Violation;
use rt_ids::Rule;
use std::marker::Model;

/// The first of the violations that were offered so far. Contracts see it, or None.
#[derive(Clone, Copy)]
pub(crate) struct First {
    found: Option<Violation>,
}

impl Model for First {
    ghost use Rattle.std.specs.Prelude.{Option};
    ghost use Rattle.rt_app.specs.declared.violation.Violation.{Violation};

    ghost Value = { Option Violation };

    ghost view = { λ first. first.found };

    ghost inverse = { λ found. record { found = found } };
}

impl First {
    /// None so far.
    pub(crate) fn none() -> First
        ensures { result ≡ None }
    {
        First { found: None }
    }

    /// The first violation, where there is one.
    pub(crate) fn violation(&self) -> Option<Violation>
        ensures { result ≡ self.now }
    {
        self.found
    }

    /// Takes a violation that comes before the first one so far.
    pub(crate) fn offer(&mut self, violation: Violation)
        ensures { self.new ≡ first_of self.old (violation ∷ []) }
    {
        self.found = match self.found {
            Some(found) => Some(earlier(found, violation)),
            None => Some(violation),
        };
    }

    /// Takes the violation of a rule at an offset, where it is broken.
    pub(crate) fn offer_when(&mut self, broken: bool, rule: Rule, at: u32)
        ensures { self.new ≡ first_of self.old (when broken rule at) }
    {
        if broken {
            self.offer(Violation { at, rule });
        }
    }

    /// Takes those of a list that come before the first one so far.
    pub(crate) fn offer_all(&mut self, violations: &[Violation])
        ensures { self.new ≡ first_of self.old violations.now }
    {
        for violation in violations {
            self.offer(*violation);
        }
    }
}

/// The number of a rule's refusal.
fn rank(rule: Rule) -> u8
    ensures { result ≡ rank rule }
{
    match rule {
        Rule::UnknownName => 5,
        Rule::DeclaredTwice => 6,
        Rule::PriorityOutOfRange => 7,
        Rule::InterruptUsedTwice => 8,
        Rule::TooFewDispatchers => 9,
        Rule::LocalInTwoTasks => 10,
        Rule::OutsideLock => 11,
        Rule::LockedInsideItself => 12,
        Rule::SharedAndExclusive => 13,
        Rule::LockFreeAtTwoPriorities => 14,
        Rule::NotSoftware => 15,
        Rule::NoMonotonic => 16,
        Rule::TooLongBody => 17,
        Rule::NotWritable => 18,
    }
}

/// Whether a violation comes before another: at a smaller offset, or at the same one with a smaller number.
fn is_before(violation: Violation, other: Violation) -> bool
    ensures { result ≡ is_before violation other }
{
    violation.at < other.at || (violation.at == other.at && rank(violation.rule) < rank(other.rule))
}

/// The one of two that comes first, and the found one where they are even.
fn earlier(found: Violation, offered: Violation) -> Violation
    ensures { result ≡ (if is_before offered found then offered else found) }
{
    if is_before(offered, found) {
        offered
    } else {
        found
    }
}
