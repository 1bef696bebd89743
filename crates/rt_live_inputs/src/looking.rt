// Looks: at the words of the row, and then at the mailboxes.
ghost use Rattle.std.specs.Prelude.{◌≡◌, ◌-◌, ◌^◌, ◌<◌, ◌∷◌, [], length, map, slice_index_or, slice_set};
ghost use Rattle.atomic_table.specs.Seated.{TableId};
ghost use Rattle.rt_app.specs.View.{app_of};
ghost use Rattle.rt_ids.specs.Arrivals.{arrivals};
ghost use Rattle.rt_ids.specs.Event.{Arrive};
ghost use Rattle.rt_ids.specs.Naming.{IsDeclared};
ghost use Rattle.rt_live.specs.Able.{BitsMayArrive};
ghost use Rattle.rt_inputs.specs.Inputs.{Comes};
ghost use Rattle.rt_inputs.specs.Inside.Ran.{moment};
ghost use Rattle.rt_inputs.specs.Script.{given_request};
ghost use Rattle.rt_values.specs.Sides.{TakerSide};
ghost use Rattle.rt_live_inputs.specs.Looking.{Looks};
ghost use Rattle.rt_live_inputs.specs.Inside.Able.{CanLatch, CanTake, CanTurn};
ghost use Rattle.rt_live_inputs.specs.Inside.Going.{CanHappen, CameOf};
ghost use Rattle.rt_live_inputs.specs.Inside.Turning.{IsFoundWord, LooksAtBoxes, LooksAtRow, Turns, took_one};

use crate::boxes::BoxKind;
use crate::happening::{Going, happen};
use rt_app::App;
use rt_board::Board;
use rt_core::Core;
use rt_given::GivenLine;
use rt_ids::Irq;
use rt_outside::Sink;
use rt_values::{Mailbox, Taker};
use rt_words::{CORE_WORDS, Line, Words};

/// Bits of a word.
const WORD_BITS: u16 = 32;

/// The interrupts whose bits a word of the row holds arrive, the lowest first.
fn arrive_word<K: Sink>(
    core: &mut Core,
    app: &App,
    board: &Board,
    going: &mut Going,
    word: u8,
    found: u32,
    out: &mut K,
)
    requires can { CanHappen 1 (app_of app.now) board.now core.old }
    requires may { BitsMayArrive core.old.image.names word found }
    ensures { CameOf (app_of app.now) board.now (map Comes (map Arrive (arrivals word found)))
        going.old.went going.new.went (moment core.old going.old.registers) (moment core.new going.new.registers)
        (K.taken out.old) (K.taken out.new) (K.faults out.old) (K.faults out.new) }
{
    for bit in 0..WORD_BITS {
        if (found >> bit) & 1 != 1 {
            continue;
        }
        let Some(irq) = Irq::new(u16::from(word) * WORD_BITS + bit) else {
            unreachable!()
        };
        happen(core, app, board, going, &GivenLine::Pends(irq, 1), out);
    }
}

/// Latches every word of the row, from word 0 up, and what each holds arrives.
fn look_at_row<K: Sink>(
    core: &mut Core,
    app: &App,
    board: &Board,
    going: &mut Going,
    line: &mut Line,
    words: &Words,
    out: &mut K,
)
    requires can { CanHappen 1 (app_of app.now) board.now core.old }
    requires latches { CanLatch 1 core.old line.old words.now }
    ensures { LooksAtRow (app_of app.now) board.now going.old.went going.new.went line.old line.new
        (moment core.old going.old.registers) (moment core.new going.new.registers)
        (K.taken out.old) (K.taken out.new) (K.faults out.old) (K.faults out.new) }
{
    let first = line.first_word();
    for k in 0..CORE_WORDS {
        let found = line.latch(words, first, k);
        if found == 0 {
            continue;
        }
        arrive_word(core, app, board, going, k, found, out);
    }
}

/// The register of a mailbox's local resource takes a word, and then its interrupt arrives.
fn arrive_with<K: Sink>(
    core: &mut Core,
    app: &App,
    board: &Board,
    going: &mut Going,
    kind: &BoxKind,
    word: u32,
    out: &mut K,
)
    requires can { CanHappen 1 (app_of app.now) board.now core.old }
    requires declared { IsDeclared core.old.image.names kind.now.irq }
    ensures { CameOf (app_of app.now) board.now (given_request kind.now.irq kind.now.local word)
        going.old.went going.new.went (moment core.old going.old.registers) (moment core.new going.new.registers)
        (K.taken out.old) (K.taken out.new) (K.faults out.old) (K.faults out.new) }
{
    let register = GivenLine::Gives(kind.local, word);
    happen(core, app, board, going, &register, out);
    let request = GivenLine::Pends(kind.irq, 1);
    happen(core, app, board, going, &request, out);
}

/// Takes what waits in the mailbox of a place.
fn take_at(boxes: &[Mailbox], takers: &mut [Taker], k: usize) -> Option<u32>
    requires taker { k < length takers.old }
    requires there { k < length boxes.now }
    requires mailbox { (t : TakerSide) (m : TableId) →
        (slice_index_or takers.old k t).mailbox ≡ slice_index_or boxes.now k m }
    requires room { (t : TakerSide) → length (slice_index_or takers.old k t).calls < 2 ^ 32 - 1 }
    ensures call { (t : TakerSide) →
        takers.new ≡ slice_set takers.old k (took_one (slice_index_or takers.old k t) result) }
    ensures small { IsFoundWord result }
{
    takers[k].take(&boxes[k])
}

/// Takes what waits in each mailbox, in order. A word is in its register before its interrupt arrives.
fn look_at_boxes<K: Sink>(
    core: &mut Core,
    app: &App,
    board: &Board,
    going: &mut Going,
    kinds: &[BoxKind],
    boxes: &[Mailbox],
    takers: &mut [Taker],
    out: &mut K,
)
    requires can { CanHappen 1 (app_of app.now) board.now core.old }
    requires takes { CanTake 1 core.old kinds.now boxes.now takers.old }
    ensures { LooksAtBoxes (app_of app.now) board.now kinds.now going.old.went going.new.went takers.old takers.new
        (moment core.old going.old.registers) (moment core.new going.new.registers)
        (K.taken out.old) (K.taken out.new) (K.faults out.old) (K.faults out.new) }
{
    let mut k = 0;
    for kind in kinds {
        let found = take_at(boxes, takers, k);
        k += 1;
        let Some(word) = found else {
            continue;
        };
        arrive_with(core, app, board, going, kind, word, out);
    }
}

/// One look: at all words of the row, and then at each mailbox.
pub(crate) fn look<K: Sink>(
    core: &mut Core,
    app: &App,
    board: &Board,
    going: &mut Going,
    line: &mut Line,
    words: &Words,
    kinds: &[BoxKind],
    boxes: &[Mailbox],
    takers: &mut [Taker],
    out: &mut K,
)
    requires can { CanTurn 1 (app_of app.now) board.now kinds.now core.old line.old words.now boxes.now takers.old }
    ensures { Turns (app_of app.now) board.now kinds.now (Looks ∷ []) going.old.went going.new.went line.old line.new
        takers.old takers.new (moment core.old going.old.registers) (moment core.new going.new.registers)
        (K.taken out.old) (K.taken out.new) (K.faults out.old) (K.faults out.new) }
{
    look_at_row(core, app, board, going, line, words, out);
    look_at_boxes(core, app, board, going, kinds, boxes, takers, out);
}
