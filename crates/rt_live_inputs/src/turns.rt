// Turns of a core beside devices that give words: its own lines of the script, each core step behind a look.
ghost use Rattle.std.specs.Prelude.{◌≡◌, ◌+◌, ◌∷◌, flat_map, replicate};
ghost use Rattle.rt_app.specs.View.{app_of};
ghost use Rattle.rt_script.specs.Script.{HasNames, count};
ghost use Rattle.rt_given.specs.Given.{asked, asked_line, count_of};
ghost use Rattle.rt_inputs.specs.Inside.Ran.{moment};
ghost use Rattle.rt_inputs.specs.Script.{line_happenings};
ghost use Rattle.rt_live_inputs.specs.Looking.{Looks, line_turns, step_turns};
ghost use Rattle.rt_live_inputs.specs.Inside.Able.{CanTurn};
ghost use Rattle.rt_live_inputs.specs.Inside.Going.{CanHappen, CameOf, IsOne};
ghost use Rattle.rt_live_inputs.specs.Inside.Turning.{Turns};

use crate::boxes::BoxKind;
use crate::happening::{Going, happen};
use crate::looking::look;
use rt_app::App;
use rt_board::Board;
use rt_core::Core;
use rt_devices::Gate;
use rt_given::GivenLine;
use rt_outside::Sink;
use rt_values::{Mailbox, Taker};
use rt_words::{Line, Words};

/// So many core steps, each behind a look. The gate is told of each before its look.
pub(crate) fn steps<K: Sink, G: Gate>(
    core: &mut Core,
    app: &App,
    board: &Board,
    going: &mut Going,
    line: &mut Line,
    words: &Words,
    kinds: &[BoxKind],
    boxes: &[Mailbox],
    takers: &mut [Taker],
    times: u64,
    out: &mut K,
    gate: &G,
)
    requires can { CanTurn (times + 1) (app_of app.now) board.now kinds.now core.old line.old words.now
        boxes.now takers.old }
    ensures { Turns (app_of app.now) board.now kinds.now (flat_map (λ t. t) (replicate times step_turns))
        going.old.went going.new.went line.old line.new takers.old takers.new
        (moment core.old going.old.registers) (moment core.new going.new.registers)
        (K.taken out.old) (K.taken out.new) (K.faults out.old) (K.faults out.new) }
{
    for _done in 0..times {
        gate.before_step(core.steps());
        look(
            core, app, board, going, line, words, kinds, boxes, takers, out,
        );
        happen(core, app, board, going, &GivenLine::Steps(1), out);
    }
}

/// What a line of the script stands for, so many times.
fn often<K: Sink>(
    core: &mut Core,
    app: &App,
    board: &Board,
    going: &mut Going,
    line: &GivenLine,
    times: u32,
    out: &mut K,
)
    requires can { CanHappen (times + 1) (app_of app.now) board.now core.old }
    requires one { count_of line.now ≡ 1 }
    requires declared { HasNames core.old.image.names (asked_line line.now) }
    requires alone { IsOne (line_happenings line.now) }
    ensures { CameOf (app_of app.now) board.now (flat_map (λ h. h) (replicate times (line_happenings line.now)))
        going.old.went going.new.went (moment core.old going.old.registers) (moment core.new going.new.registers)
        (K.taken out.old) (K.taken out.new) (K.faults out.old) (K.faults out.new) }
{
    for _done in 0..times {
        happen(core, app, board, going, line, out);
    }
}

/// What a line of the script is for the core's side: of devices' lines nothing.
fn own_line<K: Sink, G: Gate>(
    core: &mut Core,
    app: &App,
    board: &Board,
    going: &mut Going,
    line: &mut Line,
    words: &Words,
    kinds: &[BoxKind],
    boxes: &[Mailbox],
    takers: &mut [Taker],
    asked: &GivenLine,
    out: &mut K,
    gate: &G,
)
    requires can { CanTurn (count_of asked.now + 1) (app_of app.now) board.now kinds.now core.old line.old words.now
        boxes.now takers.old }
    requires declared { HasNames core.old.image.names (asked_line asked.now) }
    ensures { Turns (app_of app.now) board.now kinds.now (line_turns asked.now) going.old.went going.new.went
        line.old line.new takers.old takers.new
        (moment core.old going.old.registers) (moment core.new going.new.registers)
        (K.taken out.old) (K.taken out.new) (K.faults out.old) (K.faults out.new) }
{
    match asked {
        GivenLine::Steps(count) => {
            let times = u64::from(*count);
            steps(
                core, app, board, going, line, words, kinds, boxes, takers, times, out, gate,
            )
        }
        GivenLine::Ticks(count) => {
            let one = GivenLine::Ticks(1);
            often(core, app, board, going, &one, *count, out)
        }
        GivenLine::Pends(irq, count) => {
            let one = GivenLine::Pends(*irq, 1);
            often(core, app, board, going, &one, *count, out)
        }
        GivenLine::Gives(local, word) => {
            let one = GivenLine::Gives(*local, *word);
            happen(core, app, board, going, &one, out)
        }
        GivenLine::Device(_device, _irq, _count) => {}
        GivenLine::Counts(_device, _irq, _count, _local, _first) => {}
        GivenLine::Draws(_device, _irq, _count, _local, _seed) => {}
    }
}

/// The lines of a script that are the core's own, in order; each core step comes behind a look.
pub(crate) fn own_lines<K: Sink, G: Gate>(
    core: &mut Core,
    app: &App,
    board: &Board,
    going: &mut Going,
    line: &mut Line,
    words: &Words,
    kinds: &[BoxKind],
    boxes: &[Mailbox],
    takers: &mut [Taker],
    script: &[GivenLine],
    out: &mut K,
    gate: &G,
)
    requires can { CanTurn (count (asked script.now) + 1) (app_of app.now) board.now kinds.now core.old line.old
        words.now boxes.now takers.old }
    requires declared { HasNames core.old.image.names (asked script.now) }
    ensures { Turns (app_of app.now) board.now kinds.now (flat_map line_turns script.now) going.old.went going.new.went
        line.old line.new takers.old takers.new
        (moment core.old going.old.registers) (moment core.new going.new.registers)
        (K.taken out.old) (K.taken out.new) (K.faults out.old) (K.faults out.new) }
{
    for asked in script {
        own_line(
            core, app, board, going, line, words, kinds, boxes, takers, asked, out, gate,
        );
    }
}

/// A look alone, and so many core steps, each behind a look.
pub(crate) fn last_turns<K: Sink, G: Gate>(
    core: &mut Core,
    app: &App,
    board: &Board,
    going: &mut Going,
    line: &mut Line,
    words: &Words,
    kinds: &[BoxKind],
    boxes: &[Mailbox],
    takers: &mut [Taker],
    times: u64,
    out: &mut K,
    gate: &G,
)
    requires can { CanTurn (times + 2) (app_of app.now) board.now kinds.now core.old line.old words.now
        boxes.now takers.old }
    ensures { Turns (app_of app.now) board.now kinds.now
        (Looks ∷ flat_map (λ t. t) (replicate times step_turns)) going.old.went going.new.went
        line.old line.new takers.old takers.new
        (moment core.old going.old.registers) (moment core.new going.new.registers)
        (K.taken out.old) (K.taken out.new) (K.faults out.old) (K.faults out.new) }
{
    look(
        core, app, board, going, line, words, kinds, boxes, takers, out,
    );
    steps(
        core, app, board, going, line, words, kinds, boxes, takers, times, out, gate,
    );
}
