// Whether costs have steps left for silent ones.

ghost use Rattle.std.specs.Prelude.{◌≡◌, nat_le, IsTrue, IsFalse};
ghost use Rattle.std.specs.List.{list_all};
ghost use Rattle.rt_app.specs.Tree.{App};
ghost use Rattle.rt_laws.specs.Silent.{MaySpend};
ghost use Rattle.rt_laws.specs.State as laws;
ghost use Rattle.rt_baker_moves.specs.Job.{role_of};
ghost use Rattle.rt_baker_moves.specs.State.{StateIs};
ghost use Rattle.rt_baker_moves.specs.Inside.SystemCeiling.{has_steps, may_spend};

use crate::job::{Job, Role};
use crate::state::State;

/// Whether a job of this role has so many steps left.
fn has_steps(role: Role, left: u64, steps: u64) -> bool
    ensures { result ≡ has_steps (role_of role) left steps }
{
    match role {
        Role::Init => steps <= left,
        Role::Idle => steps <= left,
        Role::Waiting => true,
        Role::Serving(_irq) => steps <= left,
    }
}

/// Whether each of these is so many steps.
fn are_enough(lefts: &[u64], steps: u64) -> bool
    ensures { result ≡ list_all (nat_le steps) lefts.now }
{
    for left in lefts {
        if *left < steps {
            return false;
        }
    }
    true
}

impl<'a> Job<'a> {
    /// Whether its body or handler and each of its open sections have so many steps left.
    fn may_spend(&self, steps: u64) -> bool
        ensures { result ≡ may_spend steps self.now }
    {
        has_steps(self.role, self.left, steps) && are_enough(&self.lefts, steps)
    }
}

impl<'a> State<'a> {
    /// Whether the running job may take so many silent steps, by its costs.
    pub fn may_spend(&self, steps: u64) -> bool
        ensures may { IsTrue result → (app : App) (t : laws.State) → StateIs app self.now t → MaySpend steps t.jobs }
        ensures may_not { IsFalse result → (app : App) (t : laws.State) → StateIs app self.now t
            → MaySpend steps t.jobs → ⊥ }
    {
        match self.jobs.first() {
            None => false,
            Some(job) => job.may_spend(steps),
        }
    }
}
