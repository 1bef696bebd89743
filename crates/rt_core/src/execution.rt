// The execution priority (ARMv7-M Architecture Reference Manual, section B1.5.4), which a core keeps from step to step.
ghost use Rattle.std.specs.Prelude.{◌≡◌};
ghost use Rattle.rt_core.specs.Inside.Execution.{execution_of, changes_a_mask};

use rt_code::{Instr, Registers};
use rt_nvic::Nvic;

/// The execution priority, 0 to 256, by the handler that runs and the masks.
pub(crate) fn execution_of(nvic: &Nvic, registers: &Registers) -> u16
    ensures { result ≡ execution_of nvic.now registers.now }
{
    let running = u32::from(nvic.running());
    let base = if registers.basepri == 0 {
        256
    } else {
        registers.basepri
    };
    let mask = if registers.primask { 0 } else { 256 };
    running.min(base.min(mask)) as u16
}

/// Whether an instruction changes BASEPRI or PRIMASK.
pub(crate) fn changes_a_mask(instr: &Instr) -> bool
    ensures { result ≡ changes_a_mask instr.now }
{
    matches!(
        instr,
        Instr::Raise(_, _) | Instr::Restore(_) | Instr::Mask(_) | Instr::Unmask(_) | Instr::Serve
    )
}
