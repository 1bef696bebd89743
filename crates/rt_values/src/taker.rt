ghost use Rattle.std.specs.Prelude.{◌≡◌, ◌-◌, ◌^◌, ◌<◌, ◌++◌, ◌∷◌, [], length, true};
ghost use Rattle.rt_values.specs.declared.call.Call.{Call};

use crate::giver::Giver;
use crate::mailbox::Mailbox;
use crate::rule::{Meet, Take};
use crate::view::View;
use crate::waiting::waiting;
use atomic_table::Seat;
use std::marker::Model;

/// The side of a mailbox that takes, which a core has. Contracts see its mailbox, its calls with the answers that they
/// got, whether it has taken in the giver, with the giver's calls, and its own calls since then.
#[derive(Drop)]
pub struct Taker {
    pub(crate) seat: Seat<(), View>,
    pub(crate) found: u32,
    pub(crate) raised: u32,
    pub(crate) merged: u32,
}

impl Model for Taker {
    ghost use Rattle.rt_values.specs.Sides.{TakerSide};
    ghost use Rattle.rt_values.specs.Inside.Fields.{IsSoundTaker};

    ghost Value = { TakerSide };

    ghost view = { λ t. record {
      mailbox = t.seat.table_id;
      calls = t.seat.me.0.taken;
      gathered = t.seat.me.0.gives;
      given = t.seat.me.0.given;
      last = t.seat.me.0.last;
    } };

    ghost invariant = { λ t. IsSoundTaker t.seat.me t.found t.raised t.merged };
}

impl Taker {
    /// Takes the word that waits, where one does, by one swap with 0. None waits from then on.
    pub fn take(&mut self, mailbox: &Mailbox) -> Option<u32>
        requires mailbox { self.old.mailbox ≡ mailbox.now }
        requires room { length self.old.calls < 2 ^ 32 - 1 }
        ensures call { self.new ≡ record self.old {
          calls = self.old.calls ++ Call.Take result ∷ [];
          last = self.old.last ++ Call.Take result ∷ [];
        } }
    {
        let found = mailbox.table.shared.swap::<Take>(&mut self.seat, 0, 0);
        let word = waiting(found);
        if word.is_some() {
            self.found += 1;
        }
        word
    }

    /// Takes in the giver, whose thread has ended. Every word that was given comes before what is taken from then on.
    pub fn gather(&mut self, mailbox: &Mailbox, giver: Giver)
        requires mailbox { self.old.mailbox ≡ mailbox.now }
        requires giver { giver.mailbox ≡ mailbox.now }
        ensures { self.new ≡ record self.old { gathered = true; given = giver.calls; last = [] } }
    {
        let Giver {
            seat,
            raised,
            merged,
        } = giver;
        mailbox.table.shared.join_seat::<Meet>(&mut self.seat, seat);
        self.raised = raised;
        self.merged = merged;
    }
}
