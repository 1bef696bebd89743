// Cases of the interrupt controller.

use crate::checks::OK;
use anyhow::{Context, Result};
use rt_ids::Irq;
use rt_nvic::Nvic;

/// The interrupt of a number that there is.
fn irq(number: u16) -> Result<Irq> {
    Irq::new(number).context("no such interrupt")
}

/// Whether what is taken at each execution priority is what stands beside it.
fn takes(nvic: &Nvic, rows: &[(u16, Option<Irq>)]) -> bool {
    rows.iter().all(|(exec, taken)| nvic.pick(*exec) == *taken)
}

/// Interrupt 3 at 32, 7 and 495 at 32 and 31 at 16; 35 is not enabled. The highest is taken, and of equal ones the
/// lowest number. Each row has an execution priority and what is taken there.
pub fn order_difference() -> Result<&'static str> {
    let low = irq(3)?;
    let high = irq(31)?;
    let last = irq(495)?;
    let other = irq(35)?;
    let mut nvic = Nvic::new();
    nvic.enable(irq(7)?, 32);
    nvic.enable(last, 32);
    nvic.enable(low, 32);
    nvic.enable(high, 16);
    nvic.arrive(1, 1 << 3);
    if !nvic.is_pending(other) || !takes(&nvic, &[(256, None)]) {
        return Ok("one that is not enabled differs");
    }
    nvic.post(last);
    if !takes(&nvic, &[(256, Some(last)), (33, Some(last)), (32, None)]) {
        return Ok("one that is pending differs");
    }
    nvic.arrive(0, (1 << 3) | (1 << 7));
    let rows = [(256, Some(low)), (33, Some(low)), (32, None), (0, None)];
    if !takes(&nvic, &rows) {
        return Ok("the lowest number differs");
    }
    nvic.arrive(0, 1 << 31);
    if !takes(&nvic, &[(256, Some(high)), (17, Some(high)), (16, None)]) {
        return Ok("the highest differs");
    }
    Ok(OK)
}

/// A pend of an active interrupt makes it active and pending, and it is taken again after its return.
pub fn active_difference() -> Result<&'static str> {
    let irq = irq(495)?;
    let mut nvic = Nvic::new();
    nvic.enable(irq, 48);
    nvic.post(irq);
    nvic.post(irq);
    if nvic.running() != 256 {
        return Ok("running before it is entered differs");
    }
    nvic.enter(irq);
    if (nvic.running(), nvic.is_pending(irq)) != (48, false) {
        return Ok("inside it differs");
    }
    nvic.post(irq);
    if !takes(&nvic, &[(nvic.running(), None)]) {
        return Ok("what is taken inside it differs");
    }
    if (nvic.leave(), nvic.running()) != (irq, 256) {
        return Ok("its return differs");
    }
    if !takes(&nvic, &[(256, Some(irq))]) {
        return Ok("what is taken behind it differs");
    }
    Ok(OK)
}
