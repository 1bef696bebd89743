// A row of atomic words with the bits of pending interrupts.

ghost use Rattle.std.specs.Prelude.{◌≡◌, ℕ, ◌*◌, ◌%◌, ◌^◌, ◌<◌, ◌≤◌, slice_index, IfOk};
ghost use Rattle.std.specs.Mem.Slots.{slots_items, slots_len, IsFull};
ghost use Rattle.rt_ids.specs.declared.limits.TheConstants.{IRQ_NUMBERS};
ghost use Rattle.rt_words.specs.Object.{IsPending};
ghost use Rattle.rt_words.specs.Account.{IsTally};
ghost use Rattle.rt_words.specs.Inside.Rule.{padded_words};
ghost use Rattle.rt_words.specs.Ending.{AllGathered, OneHistory};
ghost use Rattle.rt_words.specs.Lines.{word_count, new_line};
ghost use Rattle.rt_words.specs.declared.row.TheConstants.{ROW_WORDS};

use crate::line::Line;
use crate::rule::Law;
use crate::tally::Tally;
use crate::view::View;
use atomic_table::{Closed, Table};
use rt_ids::NoMemory;
use rt_ids::limits::IRQ_NUMBERS;
use std::alloc::Global;
use std::marker::Model;

/// What a row of words ended with: the bits that were left, and the counts of the first line's own calls.
#[derive(Drop)]
pub struct Left {
    /// The words that were left: bit b of the row is bit b mod 32 of word b / 32.
    pub bits: [u32; 32],
    /// How often the first line's calls raised, merged and latched each interrupt.
    pub own: Tally,
}

/// A row of atomic words with the bits of pending interrupts, core behind core: interrupt n of core c, from 0, is bit
/// 512 c + n of the row, and bit b is bit b mod 32 of word b / 32. Threads share it by reference, and each calls it
/// through a line of its own. Contracts see which row it is, and the bits that may be pended.
#[derive(Drop)]
pub struct Words {
    pub(crate) table: Table<(), View, [u32; 32], Law, Global>,
}

impl Model for Words {
    ghost use Rattle.rt_words.specs.Lines.{Row};
    ghost use Rattle.rt_words.specs.Inside.Fields.{IsSoundRow};

    ghost Value = { Row };

    ghost view = { λ w. record { table = w.table.shared.table_id; may = w.table.shared.key } };

    ghost invariant = { λ w. IsSoundRow w.table.shared.table_id w.table.shared.key };
}

impl Words {
    /// Makes so many words, 1 to 32 and all 0, for the bits that `may` has, and the first line, which latches words of
    /// core 0 and pends interrupts of the core `there`. The answer is `NoMemory` where memory is wanted and not there.
    pub fn make(
        alloc: Global,
        words: u8,
        may: [u32; 32],
        there: u8,
    ) -> Result<(Words, Line), NoMemory>
        requires some { 1 ≤ words }
        requires most { words ≤ ROW_WORDS }
        requires covered { (bit : ℕ) → IsPending may bit → bit < 32 * words }
        requires in_range { (bit : ℕ) → IsPending may bit → bit % 512 < IRQ_NUMBERS }
        requires far { there < 2 }
        ensures words { IfOk result (λ r. (word_count r.0 ≡ words) × (r.0.may ≡ may)) }
        ensures line { IfOk result (λ r. r.1 ≡ new_line r.0 255 0 there) }
    {
        let zeros = [0u64; 32];
        let (table, seat) = Table::of_words(alloc, &zeros[..usize::from(words)], &may)?;
        let line = Line {
            seat,
            here: 0,
            there,
            tally: Tally::none(),
        };
        Ok((Words { table }, line))
    }

    /// Ends the words, once the first line has gathered every line that it made: answers the bits that are left, and
    /// the counts of the first line's own calls.
    pub fn close(self, line: Line) -> Left
        requires words { line.words ≡ self }
        requires first { line.number ≡ 255 }
        requires gathered { AllGathered line.made line.gathered }
        ensures history { OneHistory line result.bits }
        ensures own { IsTally line.here line.there line.calls result.own }
        ensures behind { (k : ℕ) → word_count self ≤ k → slice_index result.bits k ≡ 0 }
    {
        let Words { table } = self;
        let Line {
            seat,
            here: _,
            there: _,
            tally,
        } = line;
        let bits = bits_in(table.close_with(seat));
        Left { bits, own: tally }
    }
}

// The words of a closed table, with words of 0 behind them.
fn bits_in(closed: Closed<(), Global>) -> [u32; 32]
    requires full { IsFull closed.words }
    requires short { slots_len closed.words ≤ 32 }
    requires low { (k : ℕ) → slice_index (slots_items closed.words) k < 2 ^ 32 }
    requires no_slots { slots_len closed.slots ≡ 0 }
    ensures { result ≡ padded_words (slots_items closed.words) }
{
    let mut bits = [0u32; 32];
    for k in 0..closed.words.len() {
        bits[k] = closed.word(k) as u32;
    }
    closed.free();
    bits
}
