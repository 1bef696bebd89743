// The pending interrupts, and which of them is to be taken.

ghost use Rattle.std.specs.Prelude.{◌≡◌, ◌≤◌, ◌==◌, length, insert, position, Some, OnOk, option_map};
ghost use Rattle.rt_ids.specs.Lists.{or_zero};
ghost use Rattle.rt_app.specs.View.{app_of};
ghost use Rattle.rt_laws.specs.Preemption.{goes_before, candidate};
ghost use Rattle.rt_laws.specs.Services.{priority_of};
ghost use Rattle.rt_laws.specs.State as laws;
ghost use Rattle.rt_baker_moves.specs.Machine.{IsMachine};
ghost use Rattle.rt_baker_moves.specs.State.{StateIs};
ghost use Rattle.rt_baker_moves.specs.Waiting.{insert_before};
ghost use Rattle.rt_baker_moves.specs.Inside.SystemCeiling.{kept_ceiling};
ghost use Rattle.rt_baker_moves.specs.Inside.Waiting.{waiting_with, without, if_above};

use crate::machine::{Machine, Served};
use crate::state::State;
use rt_ids::{Irq, NoMemory};

/// The priority of what serves; 0, which is above no ceiling, where nothing does.
fn priority_served(served: &Option<Served>) -> u8
    ensures { result ≡ or_zero (option_map (λ s. s.priority) served.now) }
{
    match served {
        None => 0,
        Some(served) => served.priority,
    }
}

/// The priority that an interrupt is served at; 0, which is above no ceiling, where nothing serves it.
fn priority<'a>(machine: &Machine<'a>, irq: Irq) -> u8
    requires { IsMachine machine.now }
    ensures { result ≡ priority_of (app_of machine.now.code.now.app.now) irq }
{
    match machine.served.get(usize::from(irq.get())) {
        None => 0,
        Some(served) => priority_served(served),
    }
}

/// Whether an interrupt is taken before another: by a greater priority, and of equal ones by the lower number.
fn goes_before<'a>(machine: &Machine<'a>, irq: Irq, other: Irq) -> bool
    requires { IsMachine machine.now }
    ensures { result ≡ goes_before (app_of machine.now.code.now.app.now) irq other }
{
    let own = priority(machine, irq);
    let others = priority(machine, other);
    others < own || (own == others && irq.get() < other.get())
}

/// The index of an interrupt among those that wait: in front of the first that it goes before.
fn waiting_index<'a>(machine: &Machine<'a>, irq: Irq, waiting: &[Irq]) -> usize
    requires { IsMachine machine.now }
    ensures within { result ≤ length waiting.now }
    ensures index { let app = app_of machine.now.code.now.app.now in
        insert waiting.now result irq ≡ insert_before (goes_before app) irq waiting.now }
{
    for (index, other) in waiting.iter().enumerate() {
        if goes_before(machine, irq, *other) {
            return index;
        }
    }
    waiting.len()
}

/// An interrupt that has come to be pending waits at its index, where something serves it.
fn enqueue<'a>(machine: &Machine<'a>, irq: Irq, waiting: &mut Vec<Irq>) -> Result<(), NoMemory>
    requires { IsMachine machine.now }
    ensures { let app = app_of machine.now.code.now.app.now in
        OnOk result (waiting.new.items ≡ waiting_with app irq waiting.old.items) }
{
    if priority(machine, irq) == 0 {
        return Ok(());
    }
    let index = waiting_index(machine, irq, waiting);
    waiting.insert(index, irq)?;
    Ok(())
}

/// The interrupt of this number has come to be pending, and waits at its index, where something serves it.
pub(crate) fn queue<'a>(
    machine: &Machine<'a>,
    irq: u16,
    waiting: &mut Vec<Irq>,
) -> Result<(), NoMemory>
    requires { IsMachine machine.now }
    ensures { let app = app_of machine.now.code.now.app.now in
        OnOk result (waiting.new.items ≡ waiting_with app irq waiting.old.items) }
{
    match Irq::new(irq) {
        None => Ok(()),
        Some(irq) => {
            enqueue(machine, irq, waiting)?;
            Ok(())
        }
    }
}

/// The index of an interrupt among these, where it is one of them.
fn index_of(waiting: &[Irq], irq: u16) -> Option<usize>
    ensures { result ≡ position (λ n. n == irq) waiting.now }
{
    waiting.iter().position(|other| other.get() == irq)
}

/// The interrupt of this number waits no longer.
pub(crate) fn unqueue(waiting: &mut Vec<Irq>, irq: u16)
    ensures { waiting.new.items ≡ without irq waiting.old.items }
{
    match index_of(waiting, irq) {
        None => {}
        Some(index) => {
            waiting.remove(index);
        }
    }
}

impl<'a> State<'a> {
    /// An interrupt, where it is of a priority above the system ceiling.
    fn above(&self, machine: &Machine<'a>, irq: Irq) -> Option<u16>
        requires { IsMachine machine.now }
        ensures { let app = app_of machine.now.code.now.app.now in
            result ≡ if_above (priority_of app) (kept_ceiling app self.now.jobs) (Some irq) }
    {
        if self.system_ceiling(machine) < u32::from(priority(machine, irq)) {
            Some(irq.get())
        } else {
            None
        }
    }

    /// The interrupt that is to be taken, where there is one.
    pub fn candidate(&self, machine: &Machine<'a>) -> Option<u16>
        requires { IsMachine machine.now }
        ensures { (t : laws.State) → StateIs (app_of machine.now.code.now.app.now) self.now t
            → result ≡ candidate (app_of machine.now.code.now.app.now) t }
    {
        match self.waiting.first() {
            None => None,
            Some(irq) => self.above(machine, *irq),
        }
    }
}
