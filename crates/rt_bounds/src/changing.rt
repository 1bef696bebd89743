// How instructions change the counter of a loop, and where it is changed already.

ghost use Rattle.std.specs.Prelude.{◌≡◌, MatchOption, Some};
ghost use Rattle.rt_code.specs.declared.instr.Instr.TheVariants as instr;
ghost use Rattle.rt_bounds.specs.Counting as def;
ghost use Rattle.rt_bounds.specs.Inside.Countings as spec;
ghost use Rattle.rt_bounds.specs.declared.counting.Change.{Change as ChangeView};

use crate::counting::{Change, Direction};
use rt_code::{Image, Instr};
use rt_ids::Op;
use rt_judge::exits::line_at;

/// How an operation on two slots changes a counter that it writes, if that is a change.
pub fn change_by(op: Op, counter: u32, one: u32, other: u32) -> Option<Change>
    ensures { MatchOption result
        ((change : ChangeView) → ¬ spec.IsChange counter (instr.Calc op counter one other) change)
        (spec.IsChange counter (instr.Calc op counter one other)) }
{
    match op {
        Op::Add => {
            if one == counter {
                Some(Change {
                    direction: Direction::Rises,
                    by: other,
                })
            } else if other == counter {
                Some(Change {
                    direction: Direction::Rises,
                    by: one,
                })
            } else {
                None
            }
        }
        Op::Sub => {
            if one == counter {
                Some(Change {
                    direction: Direction::Falls,
                    by: other,
                })
            } else {
                None
            }
        }
        _ => None,
    }
}

/// How an instruction changes a counter, if that is all that it does to it.
pub fn change_of(instr: &Instr, counter: u32) -> Option<Change>
    ensures { MatchOption result ((change : ChangeView) → ¬ spec.IsChange counter instr.now change)
        (spec.IsChange counter instr.now) }
{
    match *instr {
        Instr::Calc(op, to, one, other) => {
            if to == counter {
                change_by(op, counter, one, other)
            } else {
                None
            }
        }
        _ => None,
    }
}

/// How the line at an address changes a counter, if that is all that it does to it.
pub fn change_at(image: &Image, address: u32, counter: u32) -> Option<Change>
    ensures { MatchOption result ((change : ChangeView) → ¬ spec.IsChangeAt image.now address counter change)
        (spec.IsChangeAt image.now address counter) }
{
    match line_at(image, address) {
        Some(line) => change_of(&line.0, counter),
        None => None,
    }
}

/// Whether an operation compares.
pub fn is_comparison(op: Op) -> bool
    ensures { result ≡ def.is_comparison op }
{
    matches!(op, Op::Eq | Op::Ne | Op::Lt | Op::Le | Op::Gt | Op::Ge)
}

/// Whether a counter was changed since the jump of its loop, where a line begins.
pub fn is_changed(jump: u32, change: u32, address: u32) -> bool
    ensures { result ≡ def.is_changed jump change address }
{
    if change < jump {
        change < address && address <= jump
    } else {
        change < address || address <= jump
    }
}

/// And whether it was after that line.
pub fn is_changed_after(jump: u32, change: u32, address: u32) -> bool
    ensures { result ≡ def.is_changed_after jump change address }
{
    if address == change {
        true
    } else if address == jump {
        false
    } else {
        is_changed(jump, change, address)
    }
}
