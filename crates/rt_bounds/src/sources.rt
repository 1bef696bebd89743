// Where an owner comes to each address from.

ghost use Rattle.std.specs.Prelude.{◌≡◌, ◌<◌, ◌+◌, ◌^◌, ◌∷◌, [], length, replicate, slice_get, IfOk, OnOk};
ghost use Rattle.rt_points.specs.Checked.{IsChecked};
ghost use Rattle.rt_points.specs.Limits.{IsWithinLimits};
ghost use Rattle.rt_points.specs.declared.point.Owner.{Owner as OwnerView};
ghost use Rattle.rt_judge.specs.Inside.Tables.{found};
ghost use Rattle.rt_bounds.specs.Inside.Ground.{IsMapped};
ghost use Rattle.rt_bounds.specs.Inside.Sources as spec;

use rt_code::{Image, Line};
use rt_ids::NoMemory;
use rt_judge::exits::{Exits, ends_init, exits_of, line_at};
use rt_judge::nesting::Nesting;
use rt_judge::walk::{Visit, Walk};
use rt_points::Owner;
use std::alloc::Global;

/// Where an address is come to from: the lowest and the highest of these addresses. Where it is not come to the lowest
/// is above the highest. Where the owner begins they are 0 and no address of code.
#[derive(Clone, Copy, Debug, PartialEq, Eq)]
pub struct Sources {
    pub lowest: u32,
    pub highest: u32,
}

/// One more address that leads to one.
fn add(rows: &mut [Sources], from: u32, to: u32)
    ensures { rows.new ≡ spec.added rows.old from to }
{
    let index = to as usize;
    if index < rows.len() {
        let row = rows[index];
        rows[index] = Sources {
            lowest: row.lowest.min(from),
            highest: row.highest.max(from),
        };
    }
}

/// One more address where the owner begins.
fn add_start(rows: &mut [Sources], to: u32)
    ensures { rows.new ≡ spec.with_start rows.old to }
{
    add(rows, 0, to);
    add(rows, u32::MAX, to);
}

/// All addresses where the owner begins.
fn add_starts(rows: &mut [Sources], starts: &[Visit])
    ensures { spec.AreSpans (spec.Begun starts.now 0) (length rows.old) rows.old
        → spec.AreSpans (spec.Begun starts.now (length starts.now)) (length rows.old) rows.new }
{
    for visit in starts {
        add_start(rows, visit.address);
    }
}

/// Sources of so many addresses, where nobody comes to one.
fn nobody(alloc: Global, length: usize) -> Result<Vec<Sources>, NoMemory>
    ensures { IfOk result (λ rows. rows.items ≡ replicate length spec.nobody) }
{
    let none = Sources {
        lowest: u32::MAX,
        highest: 0,
    };
    Ok(Vec::from_elem(alloc, none, length)?)
}

/// Sources of code, where nobody but who begins there comes to an address.
pub fn begun(alloc: Global, image: &Image, starts: &[Visit]) -> Result<Vec<Sources>, NoMemory>
    ensures { IfOk result (λ rows. (owner : OwnerView) → spec.AreStarts image.now owner starts.now
        → spec.AreSourcesBelow image.now owner 0 rows.items) }
{
    let mut rows = nobody(alloc, image.code.len())?;
    add_starts(&mut rows, starts);
    Ok(rows)
}

/// A visit of an address with nothing open.
fn visit_at(address: u32) -> Visit
    ensures { result ≡ spec.visit_at address }
{
    Visit {
        address,
        nesting: Nesting::NOTHING,
    }
}

/// The one address where `init` or a handler begins.
pub fn starts_at(alloc: Global, entry: u32) -> Result<Vec<Visit>, NoMemory>
    ensures { IfOk result (λ starts. starts.items ≡ spec.visit_at entry ∷ []) }
{
    let mut starts = Vec::new(alloc);
    starts.push(visit_at(entry))?;
    Ok(starts)
}

/// Whether `init` ends on the line before an address, and comes there.
fn is_served(image: &Image, init: &Walk, to: u32) -> bool
    ensures { result ≡ spec.is_served image.now init.now to }
{
    if to == 0 {
        return false;
    }
    let before = to - 1;
    match (line_at(image, before), init.table.find(before)) {
        (Some(line), Some(_)) => ends_init(&line.0, Owner::Starting),
        _ => false,
    }
}

/// One more address, if the thread begins there.
fn take_served(starts: &mut Vec<Visit>, image: &Image, init: &Walk, to: u32) -> Result<(), NoMemory>
    ensures { OnOk result (spec.AreServed image.now init.now to starts.old.items
        → spec.AreServed image.now init.now (to + 1) starts.new.items) }
{
    if is_served(image, init, to) {
        starts.push(visit_at(to))?;
        Ok(())
    } else {
        Ok(())
    }
}

/// Where the thread begins: behind the end of `init`, whose walk this is.
pub fn thread_starts(alloc: Global, image: &Image, init: &Walk) -> Result<Vec<Visit>, NoMemory>
    requires checked { IsChecked image.now }
    requires limits { IsWithinLimits image.now }
    requires mapped { IsMapped image.now OwnerView.Starting init.now }
    ensures { IfOk result (λ starts. spec.AreStarts image.now OwnerView.Thread starts.items) }
{
    let mut starts = Vec::new(alloc);
    for to in 0..image.code.len() as u32 {
        take_served(&mut starts, image, init, to)?;
    }
    Ok(starts)
}

/// Takes in where a line at an address leads to.
fn add_line(rows: &mut [Sources], owner: Owner, line: &Line, address: u32)
    requires { address + 1 < 2 ^ 32 }
    ensures { rows.new ≡ spec.with_line owner line.now address rows.old }
{
    if ends_init(&line.0, owner) {
        return;
    }
    match exits_of(&line.0, address) {
        Exits::Nowhere => {}
        Exits::One(to) => add(rows, address, to),
        Exits::Two(to, other) => {
            add(rows, address, to);
            add(rows, address, other);
        }
    }
}

/// Takes in where the line at an address leads to, if the owner comes there.
fn add_address(rows: &mut [Sources], image: &Image, walk: &Walk, owner: Owner, address: u32)
    requires { IsWithinLimits image.now }
    ensures { rows.new ≡ spec.with_address owner address rows.old (slice_get image.now.code address)
        (found walk.now.table address) }
{
    match (line_at(image, address), walk.table.find(address)) {
        (Some(line), Some(_)) => add_line(rows, owner, &line, address),
        _ => {}
    }
}

/// Takes in where the lines that an owner comes to lead to.
pub fn add_lines(rows: &mut [Sources], image: &Image, walk: &Walk, owner: Owner)
    requires checked { IsChecked image.now }
    requires limits { IsWithinLimits image.now }
    requires mapped { IsMapped image.now owner walk.now }
    requires begun { spec.AreSourcesBelow image.now owner 0 rows.old }
    ensures { spec.AreSources image.now owner rows.new }
{
    for address in 0..image.code.len() as u32 {
        add_address(rows, image, walk, owner, address);
    }
}

/// Where an address is come to from.
pub fn sources_at(rows: &[Sources], address: u32) -> Option<Sources>
    ensures { result ≡ slice_get rows.now address }
{
    match rows.get(address as usize) {
        Some(row) => Some(*row),
        None => None,
    }
}

/// Whether an address is come to from another alone.
pub fn is_only_from(rows: &[Sources], from: u32, to: u32) -> bool
    ensures { result ≡ spec.is_only from (slice_get rows.now to) }
{
    match sources_at(rows, to) {
        Some(row) => row.lowest == from && row.highest == from,
        None => false,
    }
}
