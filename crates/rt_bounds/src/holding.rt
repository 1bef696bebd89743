// What a slot holds at an address, whichever way an owner comes there.

ghost use Rattle.std.specs.Prelude.{◌≡◌, ◌<◌, ℕ, true, MatchBool, MatchOption};
ghost use Rattle.rt_points.specs.Rules as rules;
ghost use Rattle.rt_points.specs.declared.point.Owner.{Owner as OwnerView};
ghost use Rattle.rt_bounds.specs.Holding.{HoldsAfter, HoldsAt};
ghost use Rattle.rt_bounds.specs.Inside.Holdings as spec;
ghost use Rattle.rt_bounds.specs.Inside.Sources.{AreSources, GoesBack};

use crate::sources::{Sources, is_only_from};
use rt_code::{Image, Instr};
use rt_judge::exits::line_at;

/// What an instruction does to a slot.
#[derive(Clone, Copy, Debug, PartialEq, Eq)]
enum Writing {
    /// It leaves it alone.
    Keeps,
    /// It sets it to this constant.
    Sets(u32),
    /// It changes it otherwise.
    Changes,
}

/// The slot that an instruction writes, but for `set`.
fn changed_slot(instr: &Instr) -> Option<u32>
    ensures { result ≡ spec.changed_slot instr.now }
{
    match *instr {
        Instr::Copy(to, _)
        | Instr::Calc(_, to, _, _)
        | Instr::Load(to, _)
        | Instr::LoadAt(to, _, _)
        | Instr::Clock(to)
        | Instr::Raise(to, _)
        | Instr::Mask(to) => Some(to),
        _ => None,
    }
}

/// The slot that an instruction writes.
pub fn written_slot(instr: &Instr) -> Option<u32>
    ensures { result ≡ rules.written_slot instr.now }
{
    match *instr {
        Instr::Set(to, _) => Some(to),
        _ => changed_slot(instr),
    }
}

/// What an instruction does to a slot.
fn write_of(instr: &Instr, slot: u32) -> Writing
    ensures { spec.IsWriting instr.now slot result }
{
    match *instr {
        Instr::Set(to, value) => {
            if to == slot {
                Writing::Sets(value)
            } else {
                Writing::Keeps
            }
        }
        _ => {
            if changed_slot(instr) == Some(slot) {
                Writing::Changes
            } else {
                Writing::Keeps
            }
        }
    }
}

/// What the line at an address does to a slot; a change, where there is no line.
fn write_at(image: &Image, address: u32, slot: u32) -> Writing
    ensures { spec.IsWritingAt image.now address slot result }
{
    match line_at(image, address) {
        Some(line) => write_of(&line.0, slot),
        None => Writing::Changes,
    }
}

/// Whether a slot holds at an address what it held after the line before, whichever way an owner comes there.
fn goes_back(image: &Image, sources: &[Sources], address: u32, slot: u32) -> bool
    ensures back { (owner : OwnerView) → AreSources image.now owner sources.now → MatchBool result
        (GoesBack image.now owner slot address) (¬ GoesBack image.now owner slot address) }
    ensures room { result ≡ true → 0 < address }
{
    match write_at(image, address, slot) {
        Writing::Keeps => address > 0 && is_only_from(sources, address - 1, address),
        Writing::Sets(_) | Writing::Changes => false,
    }
}

/// What the line at an address sets a slot to, if it does.
fn set_at(image: &Image, address: u32, slot: u32) -> Option<u32>
    ensures { MatchOption result ((value : ℕ) → ¬ spec.SetsAt image.now address slot value)
        (spec.SetsAt image.now address slot) }
{
    match write_at(image, address, slot) {
        Writing::Sets(value) => Some(value),
        Writing::Keeps | Writing::Changes => None,
    }
}

/// What a slot holds after the line at an address, if that is a constant.
pub fn held_after(image: &Image, sources: &[Sources], address: u32, slot: u32) -> Option<u32>
    ensures { (owner : OwnerView) → AreSources image.now owner sources.now
        → MatchOption result ((value : ℕ) → ¬ HoldsAfter image.now owner slot value address)
        (λ value. HoldsAfter image.now owner slot value address) }
{
    let mut at = address;
    while goes_back(image, sources, at, slot) {
        at -= 1;
    }
    set_at(image, at, slot)
}

/// What a slot holds where the line at an address begins, if that is a constant.
pub fn held_at(image: &Image, sources: &[Sources], address: u32, slot: u32) -> Option<u32>
    ensures { (owner : OwnerView) → AreSources image.now owner sources.now
        → MatchOption result ((value : ℕ) → ¬ HoldsAt image.now owner slot value address)
        (λ value. HoldsAt image.now owner slot value address) }
{
    if address > 0 && is_only_from(sources, address - 1, address) {
        held_after(image, sources, address - 1, slot)
    } else {
        None
    }
}
