ghost use Rattle.std.specs.Prelude.{◌≡◌, ◌-◌, ◌^◌, ◌<◌, ◌++◌, ◌∷◌, [], length};
ghost use Rattle.rt_values.specs.declared.call.Call.{Call};

use crate::call::Given;
use crate::mailbox::Mailbox;
use crate::rule::Give;
use crate::view::View;
use crate::waiting::{waiting, with_request};
use atomic_table::Seat;
use std::marker::Model;

/// The side of a mailbox that gives, which a device has in a thread of its own. Contracts see its mailbox, and its
/// calls with the answers that they got.
#[derive(Drop)]
pub struct Giver {
    pub(crate) seat: Seat<(), View>,
    pub(crate) raised: u32,
    pub(crate) merged: u32,
}

impl Model for Giver {
    ghost use Rattle.rt_values.specs.Sides.{GiverSide};
    ghost use Rattle.rt_values.specs.Inside.Fields.{IsSoundGiver};

    ghost Value = { GiverSide };

    ghost view = { λ g. record { mailbox = g.seat.table_id; calls = g.seat.me.0.given } };

    ghost invariant = { λ g. IsSoundGiver g.seat.me g.raised g.merged };
}

impl Giver {
    /// Gives a word together with a request, by one swap. It takes the place of a word that waits: the request is
    /// merged exactly where one waited at that moment, and else raised.
    pub fn give(&mut self, mailbox: &Mailbox, word: u32) -> Given
        requires mailbox { self.old.mailbox ≡ mailbox.now }
        requires room { length self.old.calls < 2 ^ 32 - 1 }
        ensures call { self.new ≡ record self.old { calls = self.old.calls ++ Call.Give word result ∷ [] } }
    {
        let found = mailbox
            .table
            .shared
            .swap::<Give>(&mut self.seat, 0, with_request(word));
        if waiting(found).is_some() {
            self.merged += 1;
            Given::Merged
        } else {
            self.raised += 1;
            Given::Raised
        }
    }
}
