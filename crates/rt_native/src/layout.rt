// Where a program lies.

ghost use Rattle.std.specs.Prelude.{◌≡◌, ◌≢◌, ◌+◌, ◌≤◌, ◌<◌, map, sum, sum_by, IfSome, IfNone, IfOk, OnOk};
ghost use Rattle.std.specs.Prelude.{IfErr};
ghost use Rattle.rt_native.specs.Fitting.{IsRegion, IsUnfit, HasLines, FitsRam, FitsFlash};
ghost use Rattle.rt_native.specs.Inside.Laid.{IsTooLong, laid_out};
ghost use Rattle.rt_native.specs.Layout as spec;
ghost use Rattle.rt_native.specs.Pieces.{bytes_of};
ghost use Rattle.rt_native.specs.Service.{entrance_size, reset as reset_of};

use crate::opening::{push_first_call, push_opening};
use crate::outside::Outside;
use crate::sequence::{place_of, push_sequence};
use crate::service::{push_reset, push_tick, timer_irq};
use crate::target::{Target, Unfit};
use rt_code::{Handler, Image, IrqRow};
use rt_ids::Irq;
use rt_thumb::{Instruction, size};
use std::alloc::Global;
use std::marker::Model;

/// The external interrupts that a core may have.
const LINES: u32 = 240;

/// Entries of the vector table before those of external interrupts.
const SYSTEM_VECTORS: u32 = 16;

/// The bytes that the processor keeps on the stack as a tick is taken.
const TICK_BYTES: u64 = 32;

/// Where a program lies. Contracts see a record with lists.
pub(crate) struct Layout {
    /// Where what code touches beside its own frame lies.
    pub outside: Outside,
    /// The bytes of the stack.
    pub stack_room: u32,
    /// How many external interrupts the vector table has.
    pub lines: u32,
    /// What serves faults.
    pub fault: u32,
    /// What serves ticks.
    pub tick: u32,
    /// What runs first as the interrupt of each row is taken, and where that ends.
    pub stubs: Vec<u32>,
    /// What runs at reset.
    pub reset: u32,
    /// The code of each instruction of the image, and where it ends.
    pub places: Vec<u32>,
    /// Where the code ends.
    pub end: u32,
    /// First values in flash.
    pub load: u32,
}

impl Model for Layout {
    ghost use Rattle.rt_native.specs.Inside.Laid.{Laid};

    ghost Value = { Laid };

    ghost view = { λ layout. record {
      outside = layout.outside;
      stack_room = layout.stack_room;
      lines = layout.lines;
      fault = layout.fault;
      tick = layout.tick;
      stubs = layout.stubs.items;
      reset = layout.reset;
      places = layout.places.items;
      end = layout.end;
      load = layout.load;
    } };
}

impl Drop for Layout {
    fn drop(self) {
        let Layout {
            outside: _,
            stack_room: _,
            lines: _,
            fault: _,
            tick: _,
            stubs: _,
            reset: _,
            places: _,
            end: _,
            load: _,
        } = self;
    }
}

/// One more than the number of an interrupt, where it is enabled.
fn line_of(irq: Irq, handler: Option<Handler>) -> u32
    ensures { result ≡ spec.line_of irq handler }
{
    match handler {
        Some(_) => u32::from(irq.get()) + 1,
        None => 0,
    }
}

/// How many lines the vector table has.
fn line_count(rows: &[IrqRow]) -> u32
    ensures { result ≡ spec.line_count rows.now }
{
    let mut lines = 0;
    for row in rows {
        lines = lines.max(line_of(row.number, row.handler));
    }
    lines
}

/// What code touches beside its own frame, and the bytes of the stack, where RAM has room for both.
fn outside_of(image: &Image, target: &Target) -> Option<(Outside, u32)>
    requires { IsRegion target.now.ram }
    ensures some { IfSome result (λ both. (both.0 ≡ spec.outside image.now target.now)
        × (both.1 ≡ spec.stack_room image.now target.now)) }
    ensures fits { IfSome result (λ _. FitsRam image.now target.now) }
    ensures none { IfNone result (¬ FitsRam image.now target.now) }
{
    let (ram, count) = (target.ram, image.cells.len());
    if count > ram.size as usize {
        return None;
    }
    let room = (u64::from(image.stack_bytes) + TICK_BYTES + 7) / 8 * 8;
    let cells_size = 4 * count as u64;
    if room + cells_size + 8 > u64::from(ram.size) {
        return None;
    }
    let cells = ram.address + room as u32;
    let (time, port) = (cells + cells_size as u32, target.port);
    Some((Outside { cells, time, port }, room as u32))
}

/// The first address behind some bytes that begin at one, where it is no further than an end.
fn within(place: u32, bytes: u32, end: u32) -> Result<u32, Unfit>
    requires { place ≤ end }
    ensures ok { IfOk result (λ behind. (behind ≡ place + bytes) × (behind ≤ end)) }
    ensures flash { IfErr result (λ why. (why ≡ Unfit.Flash) × (end < place + bytes)) }
{
    if end - place < bytes {
        Err(Unfit::Flash)
    } else {
        Ok(place + bytes)
    }
}

/// The first address behind instructions that begin at one, where it is no further than an end.
fn behind(place: u32, instructions: &[Instruction], end: u32) -> Result<u32, Unfit>
    requires { place ≤ end }
    ensures ok { IfOk result (λ behind. (behind ≡ place + bytes_of instructions.now) × (behind ≤ end)) }
    ensures flash { IfErr result (λ why. (why ≡ Unfit.Flash) × (end < place + bytes_of instructions.now)) }
{
    let mut place = place;
    for instruction in instructions {
        place = within(place, size(*instruction), end)?;
    }
    Ok(place)
}

/// The places of what runs first as the interrupts of rows are taken, from one on, and where that ends.
fn stub_places(
    alloc: Global,
    image: &Image,
    target: &Target,
    at: Outside,
    first: u32,
    end: u32,
) -> Result<Vec<u32>, Unfit>
    requires { first ≤ end }
    ensures ok { IfOk result (λ places. places.items
        ≡ spec.places_from first (map (entrance_size at target.now) image.now.irqs)) }
    ensures within { IfOk result (λ places. first + sum_by (entrance_size at target.now) image.now.irqs ≤ end) }
    ensures flash { IfErr result (λ why. why ≢ Unfit.NoMemory →
        (why ≡ Unfit.Flash) × (end < first + sum_by (entrance_size at target.now) image.now.irqs)) }
{
    let mut places = Vec::new(alloc);
    let mut place = first;
    for row in &image.irqs {
        places.push(place)?;
        place = behind_stub(alloc, target, at, row, place, end)?;
    }
    places.push(place)?;
    Ok(places)
}

/// The first address behind what runs first as the interrupt of a row is taken, which begins at one.
fn behind_stub(
    alloc: Global,
    target: &Target,
    at: Outside,
    row: &IrqRow,
    place: u32,
    end: u32,
) -> Result<u32, Unfit>
    requires { place ≤ end }
    ensures ok { IfOk result (λ behind.
        (behind ≡ place + entrance_size at target.now row.now) × (behind ≤ end)) }
    ensures flash { IfErr result (λ why. why ≢ Unfit.NoMemory →
        (why ≡ Unfit.Flash) × (end < place + entrance_size at target.now row.now)) }
{
    let Some(handler) = row.handler else {
        return Ok(place);
    };
    let mut scratch = Vec::new(alloc);
    push_first_call(&mut scratch, &target.calls, row.number, row.handler)?;
    push_opening(&mut scratch, at, &target.inputs, row.number, handler)?;
    let branch = behind(place, &scratch, end)?;
    within(branch, 4, end)
}

/// The places of the code of the image's instructions, from one on, and where it ends.
fn code_places(
    alloc: Global,
    image: &Image,
    target: &Target,
    at: Outside,
    first: u32,
    end: u32,
) -> Result<Vec<u32>, Unfit>
    requires start { first ≤ end }
    requires outside { at ≡ spec.outside image.now target.now }
    ensures ok { IfOk result (λ places. places.items
        ≡ spec.places_from first (spec.sizes_from image.now target.now 0 image.now.code)) }
    ensures within { IfOk result (λ places.
        first + sum (spec.sizes_from image.now target.now 0 image.now.code) ≤ end) }
    ensures flash { IfErr result (λ why. why ≢ Unfit.NoMemory →
        (why ≡ Unfit.Flash) × (end < first + sum (spec.sizes_from image.now target.now 0 image.now.code))) }
{
    let mut places = Vec::new(alloc);
    let mut place = first;
    for (address, line) in image.code.iter().enumerate() {
        let mut scratch = Vec::new(alloc);
        push_sequence(&mut scratch, at, image, &[], address, line.0)?;
        places.push(place)?;
        place = behind(place, &scratch, end)?;
    }
    places.push(place)?;
    Ok(places)
}

/// Where first values lie behind code in flash, where so many bytes of them fit before an end.
fn load_behind(code_end: u32, values: u32, end: u32) -> Result<u32, Unfit>
    requires { code_end ≤ end }
    ensures ok { IfOk result (λ load. (load ≡ spec.in_words code_end) × (load + values ≤ end)) }
    ensures flash { IfErr result (λ why. (why ≡ Unfit.Flash) × (end < spec.in_words code_end + values)) }
{
    let load = within(code_end, (4 - code_end % 4) % 4, end)?;
    within(load, values, end)?;
    Ok(load)
}

/// The first address behind what runs at reset, which begins at one.
fn behind_reset(
    alloc: Global,
    image: &Image,
    target: &Target,
    at: Outside,
    place: u32,
    end: u32,
) -> Result<u32, Unfit>
    requires { place ≤ end }
    ensures ok { IfOk result (λ behind.
        (behind ≡ place + bytes_of (reset_of at target.now.tick image.now 0)) × (behind ≤ end)) }
    ensures flash { IfErr result (λ why. why ≢ Unfit.NoMemory →
        (why ≡ Unfit.Flash) × (end < place + bytes_of (reset_of at target.now.tick image.now 0))) }
{
    let mut scratch = Vec::new(alloc);
    push_reset(&mut scratch, at, target.tick, image, 0)?;
    behind(place, &scratch, end)
}

/// Where what serves faults and ticks lies, and the first address behind both.
#[tactic(auto, using(crate::proofs::Ends::fault_bytes))]
fn serving(
    alloc: Global,
    image: &Image,
    target: &Target,
    lines: u32,
    at: Outside,
) -> Result<(u32, u32, u32), Unfit>
    requires flash { IsRegion target.now.flash }
    requires lines { lines ≡ spec.line_count image.now.irqs }
    requires few { lines ≤ spec.LINES }
    requires outside { at ≡ spec.outside image.now target.now }
    ensures fault { IfOk result (λ places. places.0 ≡ spec.fault_at image.now target.now) }
    ensures tick { IfOk result (λ places. places.1 ≡ spec.tick_at image.now target.now) }
    ensures stubs { IfOk result (λ places. places.2 ≡ spec.stubs_at image.now target.now) }
    ensures within { IfOk result (λ places.
        places.2 ≤ target.now.flash.address + target.now.flash.size) }
    ensures long { IfErr result (IsTooLong image.now target.now) }
{
    let end = target.flash.address + target.flash.size;
    let fault = within(target.flash.address, 4 * (SYSTEM_VECTORS + lines), end)?;
    let tick = within(fault, 4, end)?;
    let mut scratch = Vec::new(alloc);
    push_tick(&mut scratch, at, timer_irq(&image.code))?;
    Ok((fault, tick, behind(tick, &scratch, end)?))
}

/// Where the parts of a program lie in flash.
fn lay_flash(
    alloc: Global,
    image: &Image,
    target: &Target,
    lines: u32,
    outside: Outside,
    stack_room: u32,
) -> Result<Layout, Unfit>
    requires flash { IsRegion target.now.flash }
    requires lines { lines ≡ spec.line_count image.now.irqs }
    requires few { lines ≤ spec.LINES }
    requires outside { outside ≡ spec.outside image.now target.now }
    requires room { stack_room ≡ spec.stack_room image.now target.now }
    requires ram { FitsRam image.now target.now }
    ensures ok { IfOk result (λ layout. layout ≡ laid_out image.now target.now) }
    ensures fits { OnOk result (HasLines image.now target.now × FitsRam image.now target.now
        × FitsFlash image.now target.now) }
    ensures unfit { IfErr result (IsUnfit image.now target.now) }
{
    let end = target.flash.address + target.flash.size;
    let (fault, tick, first_stub) = serving(alloc, image, target, lines, outside)?;
    let stubs = stub_places(alloc, image, target, outside, first_stub, end)?;
    let reset = place_of(&stubs, image.irqs.len());
    let first = behind_reset(alloc, image, target, outside, reset, end)?;
    let places = code_places(alloc, image, target, outside, first, end)?;
    let code_end = place_of(&places, image.code.len());
    let load = load_behind(code_end, 4 * (image.cells.len() as u32 + 2), end)?;
    Ok(Layout {
        outside,
        stack_room,
        lines,
        fault,
        tick,
        stubs,
        reset,
        places,
        end: code_end,
        load,
    })
}

/// Where the program of an image lies.
pub(crate) fn lay_out(alloc: Global, image: &Image, target: &Target) -> Result<Layout, Unfit>
    requires flash { IsRegion target.now.flash }
    requires ram { IsRegion target.now.ram }
    ensures ok { IfOk result (λ layout. layout ≡ laid_out image.now target.now) }
    ensures fits { OnOk result (HasLines image.now target.now × FitsRam image.now target.now
        × FitsFlash image.now target.now) }
    ensures unfit { IfErr result (IsUnfit image.now target.now) }
{
    let lines = line_count(&image.irqs);
    if lines > LINES {
        return Err(Unfit::Line);
    }
    match outside_of(image, target) {
        Some((outside, room)) => lay_flash(alloc, image, target, lines, outside, room),
        None => Err(Unfit::Ram),
    }
}
