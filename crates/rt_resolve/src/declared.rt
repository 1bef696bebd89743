// Resolves the declarations: interrupts, resources, dispatchers, the monotonic.

ghost use Rattle.std.specs.Prelude.{◌≡◌, ◌<◌, ◌++◌, map, flat_map, option_map, IfOk, OnOk};
ghost use Rattle.std.specs.List.{AllByRecursion};
ghost use Rattle.rt_ids.specs.declared.limits.TheConstants.{IRQ_NUMBERS};
ghost use Rattle.rt_ast.specs.View as written;
ghost use Rattle.rt_ast.specs.Printable.{IsPrintableIrq};
ghost use Rattle.rt_resolve.specs.Scope as named;
ghost use Rattle.rt_resolve.specs.Resolved as meant;
ghost use Rattle.rt_resolve.specs.Misnamed as wrong;
ghost use Rattle.rt_resolve.specs.NameRules as rules_on;
ghost use Rattle.rt_resolve.specs.Inside.NamesView.{IsCounted};

use crate::body::stored_priority;
use crate::faults::number_or_fault;
use crate::lookup::irq_named;
use rt_app::{Dispatcher, IrqDecl, Local, Mono, Shared, Violation};
use rt_ast::{AppTree, Ident, IrqTree, LocalTree, MonoTree, SharedTree};
use rt_ids::{Irq, Name, NoMemory};
use std::alloc::Global;

/// The interrupt of a number.
fn make_irq(number: u32) -> Irq
    requires { number < IRQ_NUMBERS }
    ensures { result ≡ number }
{
    Irq::new(number as u16).unwrap()
}

/// The declared interrupts.
pub(crate) fn resolve_irqs(alloc: Global, irqs: &[IrqTree]) -> Result<Vec<IrqDecl>, NoMemory>
    requires { AllByRecursion IsPrintableIrq irqs.now }
    ensures { IfOk result (λ ds. ds.items ≡ map meant.irq irqs.now) }
{
    let mut resolved = Vec::new(alloc);
    for d in irqs {
        resolved.push(IrqDecl {
            name: Name::of(alloc, d.name.name.bytes())?,
            number: make_irq(d.number.value),
            at: d.name.at,
            number_at: d.number.at,
        })?;
    }
    Ok(resolved)
}

/// The declared shared resources.
pub(crate) fn resolve_shared(alloc: Global, shared: &[SharedTree]) -> Result<Vec<Shared>, NoMemory>
    ensures { IfOk result (λ rs. rs.items ≡ map meant.resolved_shared shared.now) }
{
    let mut resolved = Vec::new(alloc);
    for r in shared {
        resolved.push(Shared {
            name: Name::of(alloc, r.name.name.bytes())?,
            first: r.first,
            lock_free: r.lock_free,
        })?;
    }
    Ok(resolved)
}

/// The declared local resources.
pub(crate) fn resolve_locals(alloc: Global, locals: &[LocalTree]) -> Result<Vec<Local>, NoMemory>
    ensures { IfOk result (λ rs. rs.items ≡ map meant.local locals.now) }
{
    let mut resolved = Vec::new(alloc);
    for r in locals {
        resolved.push(Local {
            name: Name::of(alloc, r.name.name.bytes())?,
            first: r.first,
        })?;
    }
    Ok(resolved)
}

/// The dispatchers.
pub(crate) fn resolve_dispatchers(
    alloc: Global,
    faults: &mut Vec<Violation>,
    app: &AppTree,
    dispatchers: &[Ident],
) -> Result<Vec<Dispatcher>, NoMemory>
    requires { IsCounted (written.app_of app.now) }
    ensures dispatchers { IfOk result (λ ds. ds.items ≡
        map (meant.dispatcher (written.app_of app.now)) dispatchers.now) }
    ensures faults { OnOk result (faults.new.items ≡ faults.old.items
        ++ flat_map (λ x. wrong.if_unknown (named.irq_named (written.app_of app.now) x.name) x.at) dispatchers.now) }
{
    let mut resolved = Vec::new(alloc);
    for x in dispatchers {
        let irq = number_or_fault(faults, irq_named(app, x.name.bytes()), x.at)?;
        resolved.push(Dispatcher { irq, at: x.at })?;
    }
    Ok(resolved)
}

/// The monotonic, where there is one.
pub(crate) fn resolve_mono(
    faults: &mut Vec<Violation>,
    app: &AppTree,
    mono: &Option<MonoTree>,
) -> Result<Option<Mono>, NoMemory>
    requires { IsCounted (written.app_of app.now) }
    ensures mono { IfOk result (λ o. o ≡ option_map (meant.mono (written.app_of app.now)) mono.now) }
    ensures faults { OnOk result (faults.new.items ≡
        faults.old.items ++ rules_on.mono_fault (written.app_of app.now) mono.now) }
{
    match mono {
        None => Ok(None),
        Some(mono) => {
            let irq = number_or_fault(
                faults,
                irq_named(app, mono.binds.name.bytes()),
                mono.binds.at,
            )?;
            Ok(Some(Mono {
                irq,
                priority: stored_priority(mono.priority.value),
                at: mono.binds.at,
                priority_at: mono.priority.at,
            }))
        }
    }
}
