// What each handler asks of the core.

ghost use Rattle.std.specs.Prelude.{◌≡◌, ◌++◌, IfOk, OnOk};
ghost use Rattle.rt_image_times.specs.Response as spec;

use rt_bounds::{HandlerBound, Longest};
use rt_code::{Handler, Image, IrqRow};
use rt_ids::NoMemory;
use rt_rta::Limits;
use std::alloc::Global;

/// What a handler that may be requested asks of the core.
#[derive(Clone, Copy)]
pub struct Load {
    /// The least distance between two requests, in core steps.
    pub every: u32,
    /// The bound of the handler.
    pub longest: Longest,
}

/// Whether a handler is of this priority value or a lower one, which is a higher priority.
fn is_at(handler: Option<Handler>, value: u8) -> bool
    ensures { result ≡ spec.is_at value handler }
{
    match handler {
        Some(handler) => handler.value <= value,
        None => false,
    }
}

/// What the handler of an interrupt asks for, where it counts at a priority value and may be requested.
fn row_load(limits: &Limits, value: u8, longest: Longest, row: &IrqRow) -> Option<Load>
    ensures { result ≡ spec.row_load limits.now value longest row.now }
{
    if is_at(row.handler, value) {
        let every = limits.every(row.number)?;
        Some(Load { every, longest })
    } else {
        None
    }
}

/// The same of the interrupt of a bound.
fn load_of(image: &Image, limits: &Limits, value: u8, bound: &HandlerBound) -> Option<Load>
    ensures { result ≡ spec.load_of image.now limits.now value bound.now }
{
    let row = image.irqs.get(bound.index)?;
    row_load(limits, value, bound.longest, row)
}

/// Appends what the handler of a bound asks for, where it counts.
fn push_load(
    loads: &mut Vec<Load>,
    image: &Image,
    limits: &Limits,
    value: u8,
    bound: &HandlerBound,
) -> Result<(), NoMemory>
    ensures { OnOk result (loads.new.items ≡ loads.old.items ++ spec.bound_loads image.now limits.now value bound.now) }
{
    if let Some(load) = load_of(image, limits, value, bound) {
        loads.push(load)?;
    }
    Ok(())
}

/// What the handlers ask for that count at a priority value and may be requested.
pub(crate) fn loads_of(
    alloc: Global,
    image: &Image,
    limits: &Limits,
    value: u8,
    handlers: &[HandlerBound],
) -> Result<Vec<Load>, NoMemory>
    ensures { IfOk result (λ loads. loads.items ≡ spec.loads image.now limits.now value handlers.now) }
{
    let mut loads = Vec::new(alloc);
    for bound in handlers {
        push_load(&mut loads, image, limits, value, bound)?;
    }
    Ok(loads)
}
