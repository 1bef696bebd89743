// The system ceiling of a state.

ghost use Rattle.std.specs.Prelude.{◌≡◌};
ghost use Rattle.rt_app.specs.View.{app_of};
ghost use Rattle.rt_baker_moves.specs.Machine.{IsMachine};
ghost use Rattle.rt_baker_moves.specs.Inside.SystemCeiling.{job_threshold, kept_ceiling};

use crate::guards::ceiling;
use crate::job::Job;
use crate::machine::Machine;
use crate::state::State;

impl<'a> Job<'a> {
    /// The greatest of its priority and of the ceilings of its open sections.
    fn threshold(&self, machine: &Machine<'a>) -> u32
        requires { IsMachine machine.now }
        ensures { result ≡ job_threshold (app_of machine.now.code.now.app.now) self.now }
    {
        let mut threshold = self.priority;
        for section in &self.sections {
            threshold = threshold.max(u32::from(ceiling(machine, *section)));
        }
        threshold
    }
}

impl<'a> State<'a> {
    /// The greatest of the thresholds of the jobs: interrupts of priorities up to it wait.
    pub(crate) fn system_ceiling(&self, machine: &Machine<'a>) -> u32
        requires { IsMachine machine.now }
        ensures { result ≡ kept_ceiling (app_of machine.now.code.now.app.now) self.now.jobs }
    {
        let mut greatest: u32 = 0;
        for job in &self.jobs {
            greatest = greatest.max(job.threshold(machine));
        }
        greatest
    }
}
