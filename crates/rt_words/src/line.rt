// A line of the words: the calls that one thread makes.

ghost use Rattle.std.specs.Prelude.{◌≡◌, ◌≢◌, ℕ, ◌+◌, ◌-◌, ◌*◌, ◌^◌, ◌<◌, ◌++◌, ◌∷◌, [], length, Contains};
ghost use Rattle.std.specs.Int.{bit_at};
ghost use mathlib.Core.Option.{none};
ghost use Rattle.atomic_table.specs.Table.{step};
ghost use Rattle.rt_words.specs.Row.{bit_in_row, word_in_row};
ghost use Rattle.rt_words.specs.Object.{IsPending};
ghost use Rattle.rt_words.specs.Account.{IsTally};
ghost use Rattle.rt_words.specs.Lines.{word_count, new_line, numbers};
ghost use Rattle.rt_words.specs.Inside.Seats.{IsLive};
ghost use Rattle.rt_words.specs.Inside.Steps.{latch_step, view_after_split, view_of_new};
ghost use Rattle.rt_words.specs.declared.call.Call.{Call};

use crate::call::Pended;
use crate::row::CORE_WORDS;
use crate::rule::{Gather, Glance, Latch, Look, Numbered, Pend, SplitOff};
use crate::tally::{Tally, count_bits};
use crate::view::View;
use crate::words::Words;
use atomic_table::Seat;
use rt_ids::Irq;
use std::marker::{Brand, Model};

/// A line of the words, by which one thread at a time pends interrupts of one core and latches words of one core. The
/// first line, whose number is 255, makes and gathers the others. Contracts see its words, its number, the core `here`
/// whose words it latches, the core `there` whose interrupts it pends, and its calls with the answers that they got. Of
/// the first line they also see the numbers that it made, the lines that it gathered, and how many calls it had when it
/// last made or gathered a line.
#[derive(Drop)]
pub struct Line {
    pub(crate) seat: Seat<(), View>,
    pub(crate) here: u8,
    pub(crate) there: u8,
    pub(crate) tally: Tally,
}

impl Model for Line {
    ghost use Rattle.rt_words.specs.Lines.{Line};
    ghost use Rattle.rt_words.specs.Inside.Fields.{IsSoundLine};

    ghost Value = { Line };

    ghost view = { λ l. record {
      words = record { table = l.seat.table_id; may = l.seat.me.0.may };
      number = l.seat.me.0.line;
      here = l.here;
      there = l.there;
      calls = l.seat.me.0.calls;
      made = l.seat.me.0.made;
      gathered = l.seat.me.0.gathered;
      since = l.seat.me.0.since;
    } };

    ghost invariant = { λ l. IsSoundLine l.seat.id l.seat.me l.here l.there l.tally };
}

// Splits off the seat of a new line of this number, by one load.
fn split_off<N: Numbered>(words: &Words, seat: &mut Seat<(), View>, number: u8) -> Seat<(), View>
    requires table { seat.old.table_id ≡ words.now.table }
    requires first { seat.old.id ≡ 0 }
    requires number { N.number ≡ number }
    requires other { number ≢ 255 }
    requires new { ¬ Contains seat.old.me.0.made number }
    ensures table { (seat.new.table_id ≡ seat.old.table_id) × (result.table_id ≡ seat.old.table_id) }
    ensures first { seat.new.id ≡ seat.old.id }
    ensures maker { seat.new.me ≡ (view_after_split number seat.old.me.0, seat.old.me.1) }
    ensures line { result.me ≡ (view_of_new number seat.old.me.0, []) }
{
    words.table.shared.split_seat::<SplitOff<N>>(seat)
}

// Latches a word of the row. A load that finds 0 is such a latch, since that leaves the word as it is. A load that
// finds anything else is no call, and a fetch_and with 0 latches.
#[inline(always)]
fn latch_word(words: &Words, seat: &mut Seat<(), View>, word: usize) -> u64
    requires table { seat.old.table_id ≡ words.now.table }
    requires live { IsLive seat.old.id seat.old.me.0 }
    requires word { word < word_count words.now }
    ensures id { seat.new.id ≡ seat.old.id }
    ensures table { seat.new.table_id ≡ seat.old.table_id }
    ensures latched { latch_step (step 0 word 0 0 none) seat.old.me result seat.new.me }
{
    let glance = words.table.shared.load::<Glance>(seat, word);
    if glance == 0 {
        return 0;
    }
    words.table.shared.fetch_and::<Latch>(seat, word, 0)
}

impl Line {
    /// Pends an interrupt by one fetch_or. Merged exactly where its bit stood at that moment.
    pub fn pend(&mut self, words: &Words, irq: Irq) -> Pended
        requires words { self.old.words ≡ words.now }
        requires room { length self.old.calls < 2 ^ 32 - 1 }
        requires may { IsPending words.now.may (bit_in_row self.old.there irq) }
        ensures call { self.new
            ≡ record self.old { calls = self.old.calls ++ Call.Pend (bit_in_row self.old.there irq) result ∷ [] } }
    {
        let number = irq.get();
        let word = usize::from(CORE_WORDS * self.there) + usize::from(number / 32);
        let bit = number % 32;
        let found = words
            .table
            .shared
            .fetch_or::<Pend>(&mut self.seat, word, 1 << bit);
        let number = usize::from(number);
        if (found >> bit) & 1 == 1 {
            self.tally.merged[number] += 1;
            Pended::Merged
        } else {
            self.tally.raised[number] += 1;
            Pended::Raised
        }
    }

    /// The number in the row of word 0 of its core.
    #[inline(always)]
    pub fn first_word(&self) -> usize
        ensures { result ≡ word_in_row self.now.here 0 }
    {
        usize::from(CORE_WORDS * self.here)
    }

    /// Latches word `k` of its core, whose first word is `first`: answers the word that stood, and leaves 0. An empty
    /// word costs a load alone.
    #[inline(always)]
    pub fn latch(&mut self, words: &Words, first: usize, k: u8) -> u32
        requires first { first ≡ word_in_row self.old.here 0 }
        requires words { self.old.words ≡ words.now }
        requires room { length self.old.calls < 2 ^ 32 - 1 }
        requires core { k < CORE_WORDS }
        requires word { word_in_row self.old.here k < word_count words.now }
        ensures call { self.new
            ≡ record self.old { calls = self.old.calls ++ Call.Latch (word_in_row self.old.here k) result ∷ [] } }
        ensures may { (bit : ℕ) → bit < 32 → bit_at result bit ≡ 1
            → IsPending words.now.may (32 * word_in_row self.old.here k + bit) }
    {
        let word = first + usize::from(k);
        let found = latch_word(words, &mut self.seat, word);
        let bits = found as u32;
        count_bits(&mut self.tally.latched, k, bits);
        bits
    }

    /// The first line makes another, under a number that has none yet, which latches words of the core `here` and pends
    /// interrupts of the core `there`.
    pub fn split(&mut self, words: &Words, number: u8, here: u8, there: u8) -> Line
        requires first { self.old.number ≡ 255 }
        requires words { self.old.words ≡ words.now }
        requires other { number ≢ 255 }
        requires new { ¬ Contains self.old.made number }
        requires near { here < 2 }
        requires far { there < 2 }
        ensures line { result ≡ new_line words.now number here there }
        ensures maker { self.new ≡ record self.old { made = number ∷ self.old.made; since = length self.old.calls } }
    {
        Line {
            seat: split_off::<Brand>(words, &mut self.seat, number),
            here,
            there,
            tally: Tally::none(),
        }
    }

    /// The first line takes in another, whose thread has ended, and answers the counts of its calls.
    pub fn gather(&mut self, words: &Words, line: Line) -> Tally
        requires first { self.old.number ≡ 255 }
        requires other { line.number ≢ 255 }
        requires words { self.old.words ≡ words.now }
        requires line { line.words ≡ words.now }
        ensures maker { self.new ≡ record self.old {
          gathered = record { line = line.number; calls = line.calls } ∷ self.old.gathered;
          since = length self.old.calls;
        } }
        ensures tally { IsTally line.here line.there line.calls result }
        ensures made { Contains self.old.made line.number }
        ensures once { ¬ Contains (numbers self.old.gathered) line.number }
    {
        let Line {
            seat,
            here: _,
            there: _,
            tally,
        } = line;
        words.table.shared.join_seat::<Gather>(&mut self.seat, seat);
        words.table.shared.load::<Look>(&mut self.seat, 0);
        tally
    }
}
