// The one public call for images: their bounds.

ghost use Rattle.std.specs.Prelude.{◌≡◌, ◌≤◌, ◌+◌, ◌^◌, ◌++◌, ◌∷◌, [], List, Some, map, length, IfOk, OnOk};
ghost use Rattle.std.specs.List.{list_any};
ghost use Rattle.rt_points.specs.Checked.{IsChecked};
ghost use Rattle.rt_points.specs.Leading.{handler_at};
ghost use Rattle.rt_points.specs.Limits.{IsWithinLimits};
ghost use Rattle.rt_points.specs.declared.point.Owner.{Owner as OwnerView};
ghost use Rattle.rt_judge.specs.Inside.Walks.{reached_by};
ghost use Rattle.rt_bounds.specs.Bounds as spec;
ghost use Rattle.rt_bounds.specs.Holding.{BeginsAt};
ghost use Rattle.rt_bounds.specs.Inside.Aheads.{AreFolds};
ghost use Rattle.rt_bounds.specs.Inside.Gathered.{AreEarlier, IsGathered, ArePriorities};
ghost use Rattle.rt_bounds.specs.Inside.Ground.{IsMapped};
ghost use Rattle.rt_bounds.specs.Inside.Sources.{AreStarts};
ghost use Rattle.rt_bounds.specs.Inside.Whole as whole;
ghost use Rattle.rt_bounds.specs.Inside.Writtens.{AreAllWritten};

use crate::bound::{Bounds, HandlerBound, WaitBound};
use crate::folds::{Fold, folds_of};
use crate::gathered::Gathered;
use crate::ground::walk_from;
use crate::longest::Longest;
use crate::sources::{add_lines, begun, starts_at, thread_starts};
use crate::survey::Survey;
use crate::written::{Written, all_written};
use rt_code::{Handler, Image, IrqRow};
use rt_ids::{NoMemory, Prio};
use rt_judge::execution_priority::handler_at;
use rt_judge::numbers::stack_need;
use rt_judge::verdict::start;
use rt_judge::walk::{Visit, Visits, Walk};
use rt_points::Owner;
use std::alloc::Global;

/// The folds of all loops of an owner's code that count, which begins at these visits.
fn folds_from(
    alloc: Global,
    image: &Image,
    walk: &Walk,
    written: &[Written],
    owner: Owner,
    starts: &[Visit],
) -> Result<Vec<Option<Fold>>, NoMemory>
    requires written { AreAllWritten image.now written.now }
    requires checked { IsChecked image.now }
    requires limits { IsWithinLimits image.now }
    requires mapped { IsMapped image.now owner walk.now }
    requires starts { AreStarts image.now owner starts.now }
    ensures { IfOk result (λ folds. AreFolds image.now owner (reached_by walk.now) (length image.now.code)
        folds.items) }
{
    let mut sources = begun(alloc, image, starts)?;
    add_lines(&mut sources, image, walk, owner);
    folds_of(alloc, image, walk, written, owner, &sources)
}

/// The bound of an owner's code from where it begins.
fn owners_bound(
    alloc: Global,
    image: &Image,
    walk: &Walk,
    folds: &[Option<Fold>],
    owner: Owner,
    entry: u32,
) -> Result<Longest, NoMemory>
    requires checked { IsChecked image.now }
    requires limits { IsWithinLimits image.now }
    requires mapped { IsMapped image.now owner walk.now }
    requires folded { AreFolds image.now owner (reached_by walk.now) (length image.now.code) folds.now }
    requires begins { BeginsAt image.now owner entry }
    requires there { reached_by walk.now entry ≡ Some [] }
    ensures { IfOk result (spec.IsOwnersBound image.now entry owner) }
{
    let mut survey = Survey::new(alloc, image.code.len(), 0)?;
    survey.longest_from(image, walk, folds, owner, entry)
}

/// Whether a row is enabled with this priority value.
fn has_value(row: &IrqRow, value: u8) -> bool
    ensures { result ≡ whole.has_value value row.now }
{
    match row.handler {
        Some(handler) => handler.value == value,
        None => false,
    }
}

/// How many priorities there are.
fn priorities(bits: u8) -> u8
    requires few_bits { 3 ≤ bits }
    requires many_bits { bits ≤ 7 }
    ensures { result ≡ 2 ^ bits }
{
    1 << bits
}

/// Whether an enabled interrupt has this priority value.
fn is_value_used(image: &Image, value: u8) -> bool
    ensures { result ≡ list_any (whole.has_value value) image.now.irqs }
{
    image.irqs.iter().any(|row| has_value(row, value))
}

/// Whether an enabled interrupt has this priority.
fn is_used(image: &Image, priority: Prio) -> bool
    requires few_bits { 3 ≤ image.now.bits }
    requires many_bits { image.now.bits ≤ 7 }
    requires least { 1 ≤ priority }
    requires greatest { priority ≤ 2 ^ image.now.bits }
    ensures { result ≡ spec.is_used image.now priority }
{
    let value = priority.hw(image.bits);
    is_value_used(image, value)
}

/// One more priority, where it is in use.
fn take_priority(waits: &mut Vec<WaitBound>, image: &Image, number: u8) -> Result<(), NoMemory>
    requires few_bits { 3 ≤ image.now.bits }
    requires many_bits { image.now.bits ≤ 7 }
    requires least { 1 ≤ number }
    requires greatest { number ≤ 2 ^ image.now.bits }
    ensures { OnOk result (whole.AreFirstTo image.now number waits.old.items
        → whole.AreFirstTo image.now (number + 1) waits.new.items) }
{
    let priority = Prio(number);
    if is_used(image, priority) {
        waits.push(WaitBound {
            priority,
            longest: None,
        })?;
        Ok(())
    } else {
        Ok(())
    }
}

/// Rows of the priorities that are in use, with nothing that holds them off.
fn first_waits(alloc: Global, image: &Image) -> Result<Vec<WaitBound>, NoMemory>
    requires { IsWithinLimits image.now }
    ensures { IfOk result (λ waits. whole.AreFirst image.now waits.items) }
{
    let mut waits = Vec::new(alloc);
    for number in 1..priorities(image.bits) + 1 {
        take_priority(&mut waits, image, number)?;
    }
    Ok(waits)
}

/// The bound of `init`, with what is found of its sections and the thread's.
fn look_at_thread(
    alloc: Global,
    image: &Image,
    written: &[Written],
    gathered: &mut Gathered,
) -> Result<Longest, NoMemory>
    requires written { AreAllWritten image.now written.now }
    requires checked { IsChecked image.now }
    requires limits { IsWithinLimits image.now }
    requires priorities { ArePriorities image.now.bits gathered.old.waits.items }
    ensures bound { IfOk result (spec.IsOwnersBound image.now 0 Owner.Starting) }
    ensures gathered { OnOk result (IsGathered image.now [] gathered.old
        → IsGathered image.now (Owner.Starting ∷ Owner.Thread ∷ []) gathered.new) }
    ensures priorities { OnOk result (map (λ row. row.priority) gathered.new.waits.items
        ≡ map (λ row. row.priority) gathered.old.waits.items) }
{
    let starts = start(alloc, 0)?;
    let walk = walk_from(alloc, image, Owner::Starting, starts)?;
    let begins = starts_at(alloc, 0)?;
    let folds = folds_from(alloc, image, &walk, written, Owner::Starting, &begins)?;
    let longest = owners_bound(alloc, image, &walk, &folds, Owner::Starting, 0)?;
    gathered.take_owner(alloc, image, &walk, &folds, Owner::Starting)?;
    let behind = thread_starts(alloc, image, &walk)?;
    let visits = Visits {
        nestings: walk.nestings,
        list: walk.behind,
    };
    let other = walk_from(alloc, image, Owner::Thread, visits)?;
    let loops = folds_from(alloc, image, &other, written, Owner::Thread, &behind)?;
    gathered.take_owner(alloc, image, &other, &loops, Owner::Thread)?;
    Ok(longest)
}

/// The bound of a handler, with what is found of its sections.
fn look_at_handler(
    alloc: Global,
    image: &Image,
    written: &[Written],
    gathered: &mut Gathered,
    index: usize,
    handler: Handler,
) -> Result<Longest, NoMemory>
    requires written { AreAllWritten image.now written.now }
    requires checked { IsChecked image.now }
    requires limits { IsWithinLimits image.now }
    requires enabled { handler_at image.now index ≡ Some handler }
    requires priorities { ArePriorities image.now.bits gathered.old.waits.items }
    ensures bound { IfOk result (spec.IsOwnersBound image.now handler.entry (Owner.Handling index)) }
    ensures gathered { OnOk result ((done : List OwnerView) → AreEarlier (Owner.Handling index) done
        → IsGathered image.now done gathered.old
        → IsGathered image.now (done ++ Owner.Handling index ∷ []) gathered.new) }
    ensures priorities { OnOk result (map (λ row. row.priority) gathered.new.waits.items
        ≡ map (λ row. row.priority) gathered.old.waits.items) }
{
    let owner = Owner::Handling(index);
    let starts = start(alloc, handler.entry)?;
    let walk = walk_from(alloc, image, owner, starts)?;
    let begins = starts_at(alloc, handler.entry)?;
    let folds = folds_from(alloc, image, &walk, written, owner, &begins)?;
    let longest = owners_bound(alloc, image, &walk, &folds, owner, handler.entry)?;
    gathered.take_owner(alloc, image, &walk, &folds, owner)?;
    Ok(longest)
}

/// The bound of the handler of a row, added to those before, where the row is enabled.
fn take_row(
    alloc: Global,
    image: &Image,
    written: &[Written],
    gathered: &mut Gathered,
    handlers: &mut Vec<HandlerBound>,
    index: usize,
) -> Result<(), NoMemory>
    requires written { AreAllWritten image.now written.now }
    requires checked { IsChecked image.now }
    requires limits { IsWithinLimits image.now }
    requires priorities { ArePriorities image.now.bits gathered.old.waits.items }
    ensures gathered { OnOk result (whole.IsGatheredBelow image.now index gathered.old handlers.old.items
        → whole.IsGatheredBelow image.now (index + 1) gathered.new handlers.new.items) }
    ensures priorities { OnOk result (map (λ row. row.priority) gathered.new.waits.items
        ≡ map (λ row. row.priority) gathered.old.waits.items) }
{
    match handler_at(image, index) {
        Some(handler) => {
            let longest = look_at_handler(alloc, image, written, gathered, index, handler)?;
            handlers.push(HandlerBound { index, longest })?;
            Ok(())
        }
        None => Ok(()),
    }
}

/// The bounds of a checked image. Its time grows with the code that each owner comes to, once for each number of
/// sections that are open there; its memory with the code and the sections that are entered. It fails for want of
/// memory alone.
pub fn bounds(alloc: Global, image: &Image) -> Result<Bounds, NoMemory>
    requires limits { IsWithinLimits image.now }
    requires checked { IsChecked image.now }
    ensures { IfOk result (spec.AreBounds image.now) }
{
    let written = all_written(alloc, image)?;
    let own = Vec::new(alloc);
    let sections = Vec::new(alloc);
    let waits = first_waits(alloc, image)?;
    let mut gathered = Gathered {
        own,
        sections,
        waits,
    };
    let init = look_at_thread(alloc, image, &written, &mut gathered)?;
    let mut handlers = Vec::new(alloc);
    for index in 0..image.irqs.len() {
        take_row(alloc, image, &written, &mut gathered, &mut handlers, index)?;
    }
    Ok(Bounds {
        init,
        handlers,
        sections: gathered.sections,
        waits: gathered.waits,
        stack: stack_need(image),
    })
}
