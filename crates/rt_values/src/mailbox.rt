ghost use Rattle.std.specs.Prelude.{◌≡◌, ◌+◌, true, IfOk};
ghost use Rattle.rt_values.specs.Account.{found_count, merged_count, raised_count, waiting_count};
ghost use Rattle.rt_values.specs.History.{OneHistory};
ghost use Rattle.rt_values.specs.Sides.{new_giver, new_taker};

use crate::giver::Giver;
use crate::rule::{GiverSplit, Law};
use crate::taker::Taker;
use crate::view::View;
use crate::waiting::waiting;
use atomic_table::Table;
use rt_ids::NoMemory;
use std::alloc::Global;
use std::marker::Model;

/// What a mailbox ended with.
#[derive(Drop)]
pub struct Left {
    /// The word that waits, where one does.
    pub word: Option<u32>,
    /// How many gives found no word waiting.
    pub raised: u32,
    /// How many gives took the place of a word that waited.
    pub merged: u32,
    /// How many takes found a word.
    pub found: u32,
}

/// A mailbox, in which one word of a device waits together with its request. Its two sides share it by reference: one
/// thread gives through the giver, and one takes through the taker. Contracts see which mailbox it is.
#[derive(Drop)]
pub struct Mailbox {
    pub(crate) table: Table<(), View, (), Law, Global>,
}

impl Model for Mailbox {
    ghost use Rattle.atomic_table.specs.Seated.{TableId};
    ghost use Rattle.rt_values.specs.Inside.Fields.{IsSoundMailbox};

    ghost Value = { TableId };

    ghost view = { λ m. m.table.shared.table_id };

    ghost invariant = { λ m. IsSoundMailbox m.table.shared.table_id };
}

impl Mailbox {
    /// Makes a mailbox in which no word waits, and its two sides. The answer is `NoMemory` where memory is wanted and
    /// not there.
    pub fn make(alloc: Global) -> Result<(Mailbox, Giver, Taker), NoMemory>
        ensures giver { IfOk result (λ r. r.1 ≡ new_giver r.0) }
        ensures taker { IfOk result (λ r. r.2 ≡ new_taker r.0) }
    {
        let (table, mut seat) = Table::of_words(alloc, &[0u64], &())?;
        let giver = Giver {
            seat: table.shared.split_seat::<GiverSplit>(&mut seat),
            raised: 0,
            merged: 0,
        };
        let taker = Taker {
            seat,
            found: 0,
            raised: 0,
            merged: 0,
        };
        Ok((Mailbox { table }, giver, taker))
    }

    /// Ends a mailbox, once its taker has taken in the giver: answers the word that is left, and the counts of both
    /// sides' calls.
    pub fn close(self, taker: Taker) -> Left
        requires mailbox { taker.mailbox ≡ self }
        requires gathered { taker.gathered ≡ true }
        ensures history { OneHistory taker.given taker.calls taker.last result.word }
        ensures raised { result.raised ≡ raised_count taker.given }
        ensures merged { result.merged ≡ merged_count taker.given }
        ensures found { result.found ≡ found_count taker.calls }
        ensures balanced { result.raised ≡ result.found + waiting_count result.word }
    {
        let Mailbox { table } = self;
        let Taker {
            seat,
            found,
            raised,
            merged,
        } = taker;
        let closed = table.close_with(seat);
        let word = closed.word(0);
        closed.free();
        Left {
            word: waiting(word),
            raised,
            merged,
            found,
        }
    }
}
