// The rule that instructions have what they touch, at one point.

ghost use Rattle.std.specs.Prelude.{◌≡◌, ◌<◌, ◌↔◌, ℕ, IsTrue, option_map};
ghost use Rattle.std.specs.List.{AllByRecursion};
ghost use Rattle.rt_code.specs.Access.{cell_of};
ghost use Rattle.rt_code.specs.Operands.{slots_of};
ghost use Rattle.rt_points.specs.Rules as rules;
ghost use Rattle.rt_judge.specs.Inside.Points.{point};
ghost use Rattle.rt_judge.specs.Inside.Touching.{is_stored};

use crate::execution_priority::frame_of;
use rt_code::{Image, Instr};
use rt_points::{Opened, Owner};

/// Whether an instruction may be used: it computes no cell's number, sets no alarm, and calls no body.
pub fn is_supported(instr: &Instr) -> bool
    ensures { result ≡ rules.is_supported instr.now }
{
    !matches!(
        instr,
        Instr::LoadAt(_, _, _)
            | Instr::StoreAt(_, _, _)
            | Instr::Alarm(_, _)
            | Instr::NoAlarm
            | Instr::Call(_, _)
            | Instr::Back
    )
}

/// Whether the slots of an instruction are in a frame of so many words.
pub fn has_its_slots(instr: &Instr, frame: u32) -> bool
    ensures { IsTrue result ↔ AllByRecursion (λ slot. slot < frame) (slots_of instr.now) }
{
    match *instr {
        Instr::Set(slot, _)
        | Instr::Load(slot, _)
        | Instr::Store(_, slot)
        | Instr::JumpZ(slot, _)
        | Instr::Emit(slot)
        | Instr::Clock(slot)
        | Instr::Alarm(slot, _)
        | Instr::Raise(slot, _)
        | Instr::Restore(slot)
        | Instr::Mask(slot)
        | Instr::Unmask(slot) => slot < frame,
        Instr::Copy(slot, other) | Instr::LoadAt(slot, _, other) | Instr::StoreAt(_, slot, other) =>
            { slot < frame && other < frame }
        Instr::Calc(_, slot, left, right) => slot < frame && left < frame && right < frame,
        _ => true,
    }
}

/// The cell that an instruction names.
pub fn touched_cell(instr: &Instr) -> Option<u32>
    ensures { result ≡ option_map cell_of (rules.touched_cell instr.now) }
{
    match *instr {
        Instr::Load(_, cell) | Instr::Store(cell, _) => Some(cell),
        _ => None,
    }
}

/// Whether an instruction stores the cell that it names.
pub fn is_store(instr: &Instr) -> bool
    ensures { result ≡ is_stored (rules.touched_cell instr.now) }
{
    matches!(instr, Instr::Store(_, _))
}

/// Whether the cell that an instruction names is one of so many.
pub fn has_its_cell(instr: &Instr, cells: usize) -> bool
    ensures { IsTrue result ↔ rules.HasItsCell cells (rules.touched_cell instr.now) }
{
    match touched_cell(instr) {
        Some(cell) => (cell as usize) < cells,
        None => true,
    }
}

/// Whether an instruction that ends a job may stand there.
pub fn may_end(owner: Owner, opened: &[Opened], instr: &Instr) -> bool
    ensures { IsTrue result ↔ rules.MayEnd owner opened.now instr.now }
{
    match *instr {
        Instr::Ret => matches!(owner, Owner::Handling(_)) && opened.is_empty(),
        Instr::Serve => matches!(owner, Owner::Starting) && opened.is_empty(),
        _ => true,
    }
}

/// Whether an instruction may be used, has its slots and its cell, and ends a job where it may.
pub fn is_operable(image: &Image, owner: Owner, opened: &[Opened], instr: &Instr) -> bool
    ensures { (address : ℕ) → IsTrue result ↔ rules.IsOperable image.now (point address owner opened.now) instr.now }
{
    is_supported(instr)
        && has_its_slots(instr, frame_of(image, owner))
        && has_its_cell(instr, image.cells.len())
        && may_end(owner, opened, instr)
}
