// The state at reset.

ghost use Rattle.std.specs.Prelude.{◌≡◌, ◌++◌, [], IfOk, map, replicate};
ghost use Rattle.rt_app.specs.View.{app_of};
ghost use Rattle.rt_laws.specs.State.{first_values};
ghost use Rattle.rt_baker_work.specs.Store.{contents};

use rt_app::{App, Local, Shared};
use rt_baker_work::{Message, Store};
use rt_ids::NoMemory;
use std::alloc::Global;

/// Numbers that a byte can tell.
const NUMBERS: usize = 256;

/// A zero for each number of a byte.
fn zeros(alloc: Global) -> Result<Vec<u32>, NoMemory>
    ensures { IfOk result (λ v. v.items ≡ replicate NUMBERS 0) }
{
    Ok(vec![in alloc; 0; NUMBERS]?)
}

/// No messages for each number of a byte.
fn no_messages(alloc: Global) -> Result<Vec<Vec<Message>>, NoMemory>
    ensures { IfOk result (λ v. map (λ q. q.items) v.items ≡ replicate NUMBERS []) }
{
    let mut queues = Vec::new(alloc);
    for _level in 0..NUMBERS {
        queues.push(Vec::new(alloc))?;
    }
    Ok(queues)
}

/// The first values of shared resources, and after them a zero for each number of a byte.
fn shared_values(alloc: Global, shared: &[Shared]) -> Result<Vec<u32>, NoMemory>
    ensures { IfOk result (λ v. v.items ≡ map (λ s. s.first) shared.now ++ replicate NUMBERS 0) }
{
    let mut values = Vec::new(alloc);
    for resource in shared {
        values.push(resource.first)?;
    }
    let padding = zeros(alloc)?;
    values.extend_from_slice(padding.as_slice())?;
    Ok(values)
}

/// The first values of local resources, and after them a zero for each number of a byte.
fn local_values(alloc: Global, locals: &[Local]) -> Result<Vec<u32>, NoMemory>
    ensures { IfOk result (λ v. v.items ≡ map (λ l. l.first) locals.now ++ replicate NUMBERS 0) }
{
    let mut values = Vec::new(alloc);
    for resource in locals {
        values.push(resource.first)?;
    }
    let padding = zeros(alloc)?;
    values.extend_from_slice(padding.as_slice())?;
    Ok(values)
}

/// What resources and queues hold at reset.
pub(crate) fn first_store(alloc: Global, app: &App) -> Result<Store, NoMemory>
    ensures { IfOk result (λ s. contents s ≡ first_values (app_of app.now)) }
{
    let shared = shared_values(alloc, &app.shared)?;
    let locals = local_values(alloc, &app.locals)?;
    let out = zeros(alloc)?;
    let ready = no_messages(alloc)?;
    Ok(Store::new(alloc, shared, locals, out, ready))
}
