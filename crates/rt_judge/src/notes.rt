// The rule that notes and masks agree, at one point.

ghost use Rattle.std.specs.Prelude.{◌≡◌, ◌↔◌, ℕ, IsTrue};
ghost use Rattle.rt_points.specs.Rules as rules;
ghost use Rattle.rt_judge.specs.Inside.Points.{point};

use crate::execution_priority::execution_priority;
use rt_code::{Image, Instr, Note};
use rt_ids::{BodyId, Section};
use rt_points::{Opened, Owner, SectionKind};

/// Whether a section may be entered on an instruction.
fn opens(instr: &Instr) -> bool
    ensures { result ≡ rules.opens instr.now }
{
    matches!(instr, Instr::Mark | Instr::Raise(_, _) | Instr::Mask(_))
}

/// Whether an instruction undoes how a section was entered.
fn closes(instr: &Instr, kind: SectionKind) -> bool
    ensures { IsTrue result ↔ (instr.now ≡ rules.closing_instr kind) }
{
    match (kind, *instr) {
        (SectionKind::Mark, Instr::Mark) => true,
        (SectionKind::Raise(slot, _), Instr::Restore(from)) => slot == from,
        (SectionKind::Mask(slot), Instr::Unmask(from)) => slot == from,
        _ => false,
    }
}

/// Whether an instruction leaves a section that is the innermost.
fn closes_innermost(opened: &[Opened], section: Section, instr: &Instr) -> bool
    ensures { IsTrue result ↔ rules.ClosesInnermost opened.now section instr.now }
{
    match opened.first() {
        Some(o) => o.section == section && closes(instr, o.kind),
        None => false,
    }
}

/// Whether a note stands where it may.
pub fn stands_on(owner: Owner, opened: &[Opened], note: &Option<Note>, instr: &Instr) -> bool
    ensures { IsTrue result ↔ rules.StandsOn owner opened.now note.now instr.now }
{
    match *note {
        None => true,
        Some(Note::Enter(_)) => opens(instr),
        Some(Note::Leave(section)) => closes_innermost(opened, section, instr),
        Some(Note::End(BodyId::Init)) => matches!(instr, Instr::Serve),
        Some(Note::End(BodyId::Idle)) => {
            matches!(instr, Instr::Jump(_)) && matches!(owner, Owner::Thread)
        }
        Some(_) => false,
    }
}

/// Whether an instruction that changes a mask has its note.
pub fn has_its_note(instr: &Instr, note: &Option<Note>) -> bool
    ensures { IsTrue result ↔ rules.HasItsNote instr.now note.now }
{
    match *instr {
        Instr::Raise(_, _) | Instr::Mask(_) => matches!(note, Some(Note::Enter(_))),
        Instr::Restore(_) | Instr::Unmask(_) => matches!(note, Some(Note::Leave(_))),
        Instr::Serve => matches!(note, Some(Note::End(BodyId::Init))),
        _ => true,
    }
}

/// The slot that an instruction writes.
fn written_slot(instr: &Instr) -> Option<u32>
    ensures { result ≡ rules.written_slot instr.now }
{
    match *instr {
        Instr::Set(slot, _)
        | Instr::Copy(slot, _)
        | Instr::Calc(_, slot, _, _)
        | Instr::Load(slot, _)
        | Instr::LoadAt(slot, _, _)
        | Instr::Clock(slot)
        | Instr::Raise(slot, _)
        | Instr::Mask(slot) => Some(slot),
        _ => None,
    }
}

/// Whether a slot holds what a mask was before a section of the kind.
fn saves(kind: SectionKind, slot: u32) -> bool
    ensures { IsTrue result ↔ rules.Saves kind slot }
{
    match kind {
        SectionKind::Mark => false,
        SectionKind::Raise(saved, _) | SectionKind::Mask(saved) => slot == saved,
    }
}

/// Whether an instruction writes no slot that an open section saved.
pub fn is_unsaved(opened: &[Opened], instr: &Instr) -> bool
    ensures { IsTrue result ↔ rules.IsUnsaved opened.now (rules.written_slot instr.now) }
{
    match written_slot(instr) {
        Some(slot) => opened.iter().all(|o| !saves(o.kind, slot)),
        None => true,
    }
}

/// Whether a section of a kind masks by PRIMASK.
fn is_mask(kind: SectionKind) -> bool
    ensures { IsTrue result ↔ rules.IsMask kind }
{
    matches!(kind, SectionKind::Mask(_))
}

/// Whether a mask is set where it has an effect and can be put back.
pub fn masks_well(image: &Image, owner: Owner, opened: &[Opened], instr: &Instr) -> bool
    ensures { (address : ℕ) → IsTrue result ↔ rules.MasksWell image.now (point address owner opened.now) instr.now }
{
    match *instr {
        Instr::Raise(_, value) => 0 < value && value < execution_priority(image, owner, opened),
        Instr::Mask(_) => {
            !matches!(owner, Owner::Starting) && opened.iter().all(|o| !is_mask(o.kind))
        }
        _ => true,
    }
}

/// Whether a note stands where it may, an instruction that changes a mask has its note, no saved slot is written, and
/// a mask is set where it may be.
pub fn is_noted_well(
    image: &Image,
    owner: Owner,
    opened: &[Opened],
    instr: &Instr,
    note: &Option<Note>,
) -> bool
    ensures { (address : ℕ)
        → IsTrue result ↔ rules.IsNotedWell image.now (point address owner opened.now) instr.now note.now }
{
    stands_on(owner, opened, note, instr)
        && has_its_note(instr, note)
        && is_unsaved(opened, instr)
        && masks_well(image, owner, opened, instr)
}
