// Which jobs come of which requests.

ghost use Rattle.std.specs.Prelude.{◌≡◌, ℕ, ◌<◌, ◌+◌, ◌&&◌, true, false, length, count_by, not, None};
ghost use Rattle.std.specs.Prelude.{IfOk, IfSome, OnOk};
ghost use Rattle.rt_app.specs.View.{app_of};
ghost use Rattle.rt_respond.specs.Path as spec;
ghost use Rattle.rt_respond.specs.Inside.Paths as inner;

use crate::handler::{Handler, stands_before};
use crate::pend::{block_pends, block_spawns};
use rt_app::App;
use rt_ids::NoMemory;
use std::alloc::Global;

/// The body of one handler releases another, each by its place in order.
#[derive(Clone, Copy)]
pub(crate) struct Edge {
    from: usize,
    to: usize,
}

/// Whether the body of a handler holds a `pend` of another, or a `spawn` of its task.
fn releases(app: &App, from: &Handler, to: &Handler) -> bool
    ensures { result ≡ spec.releases (app_of app.now) from.now to.now }
{
    match app.task(from.task) {
        None => false,
        Some(task) => {
            if to.is_dispatcher {
                block_spawns(to.task, &task.body.block)
            } else {
                block_pends(to.irq, &task.body.block)
            }
        }
    }
}

/// Appends which handlers the body of one pends.
fn push_edges(
    edges: &mut Vec<Edge>,
    app: &App,
    handlers: &[Handler],
    from: usize,
) -> Result<(), NoMemory>
    requires there { from < length handlers.now }
    requires before { inner.AreEdgesBefore (app_of app.now) handlers.now from 0 edges.old.items }
    ensures { OnOk result (inner.AreEdgesBefore (app_of app.now) handlers.now (from + 1) 0 edges.new.items) }
{
    for to in 0..handlers.len() {
        if releases(app, &handlers[from], &handlers[to]) {
            edges.push(Edge { from, to })?;
        }
    }
    Ok(())
}

/// Which handlers' bodies pend which.
pub(crate) fn all_edges(
    alloc: Global,
    app: &App,
    handlers: &[Handler],
) -> Result<Vec<Edge>, NoMemory>
    ensures { IfOk result (λ edges. inner.AreEdges (app_of app.now) handlers.now edges.items) }
{
    let mut edges = Vec::new(alloc);
    for from in 0..handlers.len() {
        push_edges(&mut edges, app, handlers, from)?;
    }
    Ok(edges)
}

/// Flags what the flagged handlers release, and says whether some was not flagged before.
fn widen(reached: &mut Vec<bool>, edges: &[Edge]) -> bool
    requires within { inner.AreWithin (length reached.old.items) edges.now }
    ensures long { length reached.new.items ≡ length reached.old.items }
    ensures sound { (root : ℕ) → inner.AreOnWalks edges.now root reached.old.items →
        inner.AreOnWalks edges.now root reached.new.items }
    ensures kept { (n : ℕ) → inner.is_flagged reached.old.items n ≡ true →
        inner.is_flagged reached.new.items n ≡ true }
    ensures closed { result ≡ false → inner.AreClosed edges.now reached.new.items }
    ensures wider { result ≡ true → count_by not reached.new.items < count_by not reached.old.items }
{
    let mut is_wider = false;
    for edge in edges {
        if reached[edge.from] && !reached[edge.to] {
            reached[edge.to] = true;
            is_wider = true;
        }
    }
    is_wider
}

/// Of so many handlers, the one at this place alone.
fn only(alloc: Global, count: usize, root: usize) -> Result<Vec<bool>, NoMemory>
    ensures { IfOk result (λ flags. inner.IsOnly count root flags.items) }
{
    let mut reached = Vec::new(alloc);
    for place in 0..count {
        reached.push(place == root)?;
    }
    Ok(reached)
}

/// Flags each handler that is this one, or whose jobs come of its requests.
fn reached_from(
    alloc: Global,
    edges: &[Edge],
    count: usize,
    root: usize,
) -> Result<Vec<bool>, NoMemory>
    requires there { root < count }
    requires within { inner.AreWithin count edges.now }
    ensures { IfOk result (λ flags. inner.AreReached edges.now count root flags.items) }
{
    let mut reached = only(alloc, count, root)?;
    while widen(&mut reached, edges) {}
    Ok(reached)
}

/// For each handler, which are reached from it.
pub(crate) fn all_reached(
    alloc: Global,
    edges: &[Edge],
    count: usize,
) -> Result<Vec<Vec<bool>>, NoMemory>
    requires { inner.AreWithin count edges.now }
    ensures { IfOk result (λ all. inner.AreAllReached edges.now count all.items) }
{
    let mut all = Vec::new(alloc);
    for root in 0..count {
        all.push(reached_from(alloc, edges, count, root)?)?;
    }
    Ok(all)
}

/// Whether one place is reached from another.
fn is_marked(all: &[Vec<bool>], from: usize, to: usize) -> bool
    ensures { result ≡ inner.is_marked all.now from to }
{
    match all.get(from) {
        None => false,
        Some(flags) => is_flagged(flags, to),
    }
}

/// Whether a place is flagged.
fn is_flagged(flags: &[bool], place: usize) -> bool
    ensures { result ≡ inner.is_flagged flags.now place }
{
    match flags.get(place) {
        None => false,
        Some(flag) => *flag,
    }
}

/// Whether a place is on a path from one to another.
fn is_between(all: &[Vec<bool>], from: usize, to: usize, place: usize) -> bool
    ensures { result ≡ (inner.is_marked all.now from place && inner.is_marked all.now place to) }
{
    is_marked(all, from, place) && is_marked(all, place, to)
}

/// The handler that stands last in the order, of those on a path from one to another; None where there is no path.
pub(crate) fn lowest_on(
    handlers: &[Handler],
    all: &[Vec<bool>],
    from: usize,
    to: usize,
) -> Option<usize>
    requires there { to < length handlers.now }
    requires itself { inner.is_marked all.now to to ≡ true }
    ensures apart { result ≡ None → inner.is_marked all.now from to ≡ false }
    ensures lowest { IfSome result (λ lowest.
        inner.IsLowestBefore handlers.now all.now from to (length handlers.now) lowest) }
    ensures joined { IfSome result (λ lowest. inner.is_marked all.now from to ≡ true) }
{
    if !is_marked(all, from, to) {
        return None;
    }
    let mut lowest = to;
    for place in 0..handlers.len() {
        if is_between(all, from, to, place) && stands_before(&handlers[lowest], &handlers[place]) {
            lowest = place;
        }
    }
    Some(lowest)
}
