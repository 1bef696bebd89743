// Running a script beside devices on a core: as a script is run, and at a take devices put the words of the inputs of
// its task.
ghost use Rattle.std.specs.Prelude.{◌≡◌, ◌<◌, ◌≤◌, ◌+◌, ◌^◌, [], ◌++◌, length, replicate, OnOk, OnErr};
ghost use Rattle.rt_ids.specs.Event.{Arrive, Tick, Step};
ghost use Rattle.rt_ids.specs.Naming.{IsDeclared};
ghost use Rattle.rt_outside.specs.Faults.{HasCause};
ghost use Rattle.rt_outside.specs.Bytes.{Took, TookPrefix};
ghost use Rattle.rt_app.specs.Accepted.{IsAccepted};
ghost use Rattle.rt_app.specs.View.{app_of};
ghost use Rattle.rt_build.specs.Image.{IsImageOf};
ghost use Rattle.rt_code.specs.Lines.{HasLines};
ghost use Rattle.rt_core.specs.Machine.{IsFresh};
ghost use Rattle.rt_script.specs.Script.{IsScript, HasNames};
ghost use Rattle.rt_trace.specs.Text.{total_text};
ghost use Rattle.rt_trace.specs.declared.buffer.TheConstants.{BUFFER_BYTES};
ghost use Rattle.rt_run.specs.Writable.{IsWritable};
ghost use Rattle.rt_run.specs.Inside.Writing as writing;
ghost use Rattle.rt_board.specs.Board.{AreInputs};
ghost use Rattle.rt_given.specs.Given.{asked, asked_line, count_of};
ghost use Rattle.rt_given.specs.Words.{given_words};
ghost use Rattle.rt_inputs.specs.Inputs.{Comes};
ghost use Rattle.rt_inputs.specs.Script.{given_request, given_requests, happenings, line_happenings, moves_under};
ghost use Rattle.rt_inputs.specs.Script.{text_with_inputs};
ghost use Rattle.rt_inputs.specs.Going.{BreaksOff, MovesLead, without_words};
ghost use Rattle.rt_inputs.specs.Inside.Placed.{CanRun};
ghost use Rattle.rt_inputs.specs.Inside.Ran.{Ran, Cut, moment};

use crate::event::{run_pend, run_tick, run_to_item};
use crate::held::{Held, put_held};
use crate::registers::Registers;
use rt_app::App;
use rt_board::Board;
use rt_core::Core;
use rt_given::{GivenLine, GivenScript, Source};
use rt_ids::Irq;
use rt_outside::{Failed, Sink};
use rt_run::put_end;
use rt_trace::LineBuffer;

/// So many core steps.
fn run_steps<K: Sink>(
    core: &mut Core,
    app: &App,
    board: &Board,
    registers: &Registers,
    count: u32,
    out: &mut K,
    held: &mut Held,
) -> Result<(), Failed>
    requires can { CanRun (app_of app.now) board.now core.old }
    requires few { core.old.steps + count < 2 ^ 31 }
    ensures ok { OnOk result (Ran (app_of app.now) board.now (replicate count (Comes Step))
        (moment core.old registers.now) (moment core.new registers.now) (K.taken out.old) (K.taken out.new)
        held.old.items held.new.items) }
    ensures err { OnErr result (Cut (app_of app.now) board.now (replicate count (Comes Step))
        (moment core.old registers.now) (moment core.new registers.now) (K.taken out.old) (K.taken out.new)
        held.old.items) }
    ensures none_left { OnErr result (held.new.items ≡ []) }
    ensures cause { HasCause (K.faults out.old) (K.faults out.new) result }
    ensures quiet { OnOk result (K.faults out.new ≡ K.faults out.old) }
{
    let mut left = count;
    while left > 0 {
        left = run_to_item(core, app, board, registers, left, out, held)?;
    }
    Ok(())
}

/// So many ticks.
fn run_ticks<K: Sink>(
    core: &mut Core,
    count: u32,
    out: &mut K,
    held: &mut Held,
) -> Result<(), Failed>
    requires writable { IsWritable core.old }
    requires few { core.old.steps + count < 2 ^ 31 }
    requires early { core.old.core.time + count < 2 ^ 31 }
    ensures ok { OnOk result (writing.Writes (replicate count Tick) core.old core.new
        (K.taken out.old) (K.taken out.new) held.old.items held.new.items) }
    ensures err { OnErr result (writing.Cut (replicate count Tick) core.old core.new
        (K.taken out.old) (K.taken out.new) held.old.items) }
    ensures none_left { OnErr result (held.new.items ≡ []) }
    ensures cause { HasCause (K.faults out.old) (K.faults out.new) result }
    ensures quiet { OnOk result (K.faults out.new ≡ K.faults out.old) }
{
    for _done in 0..count {
        run_tick(core, out, held)?;
    }
    Ok(())
}

/// So many requests of an interrupt.
fn run_pends<K: Sink>(
    core: &mut Core,
    irq: Irq,
    count: u32,
    out: &mut K,
    held: &mut Held,
) -> Result<(), Failed>
    requires writable { IsWritable core.old }
    requires few { core.old.steps + count < 2 ^ 31 }
    requires declared { IsDeclared core.old.image.names irq }
    ensures ok { OnOk result (writing.Writes (replicate count (Arrive irq)) core.old core.new
        (K.taken out.old) (K.taken out.new) held.old.items held.new.items) }
    ensures err { OnErr result (writing.Cut (replicate count (Arrive irq)) core.old core.new
        (K.taken out.old) (K.taken out.new) held.old.items) }
    ensures none_left { OnErr result (held.new.items ≡ []) }
    ensures cause { HasCause (K.faults out.old) (K.faults out.new) result }
    ensures quiet { OnOk result (K.faults out.new ≡ K.faults out.old) }
{
    for _done in 0..count {
        run_pend(core, irq, out, held)?;
    }
    Ok(())
}

/// So many ticks, at which no device puts a word.
fn run_tick_line<K: Sink>(
    core: &mut Core,
    app: &App,
    board: &Board,
    registers: &Registers,
    count: u32,
    out: &mut K,
    held: &mut Held,
) -> Result<(), Failed>
    requires can { CanRun (app_of app.now) board.now core.old }
    requires few { core.old.steps + count < 2 ^ 31 }
    requires early { core.old.core.time + count < 2 ^ 31 }
    ensures ok { OnOk result (Ran (app_of app.now) board.now (replicate count (Comes Tick))
        (moment core.old registers.now) (moment core.new registers.now) (K.taken out.old) (K.taken out.new)
        held.old.items held.new.items) }
    ensures err { OnErr result (Cut (app_of app.now) board.now (replicate count (Comes Tick))
        (moment core.old registers.now) (moment core.new registers.now) (K.taken out.old) (K.taken out.new)
        held.old.items) }
    ensures none_left { OnErr result (held.new.items ≡ []) }
    ensures cause { HasCause (K.faults out.old) (K.faults out.new) result }
    ensures quiet { OnOk result (K.faults out.new ≡ K.faults out.old) }
{
    run_ticks(core, count, out, held)
}

/// So many requests of an interrupt, at which no device puts a word.
fn run_pend_line<K: Sink>(
    core: &mut Core,
    app: &App,
    board: &Board,
    registers: &Registers,
    irq: Irq,
    count: u32,
    out: &mut K,
    held: &mut Held,
) -> Result<(), Failed>
    requires can { CanRun (app_of app.now) board.now core.old }
    requires few { core.old.steps + count < 2 ^ 31 }
    requires declared { IsDeclared core.old.image.names irq }
    ensures ok { OnOk result (Ran (app_of app.now) board.now (replicate count (Comes (Arrive irq)))
        (moment core.old registers.now) (moment core.new registers.now) (K.taken out.old) (K.taken out.new)
        held.old.items held.new.items) }
    ensures err { OnErr result (Cut (app_of app.now) board.now (replicate count (Comes (Arrive irq)))
        (moment core.old registers.now) (moment core.new registers.now) (K.taken out.old) (K.taken out.new)
        held.old.items) }
    ensures none_left { OnErr result (held.new.items ≡ []) }
    ensures cause { HasCause (K.faults out.old) (K.faults out.new) result }
    ensures quiet { OnOk result (K.faults out.new ≡ K.faults out.old) }
{
    run_pends(core, irq, count, out, held)
}

/// One request of an interrupt, with a word that the register of a local resource holds before it arrives.
fn run_word<K: Sink>(
    core: &mut Core,
    app: &App,
    board: &Board,
    registers: &mut Registers,
    irq: Irq,
    local: u8,
    word: u32,
    out: &mut K,
    held: &mut Held,
) -> Result<(), Failed>
    requires can { CanRun (app_of app.now) board.now core.old }
    requires few { core.old.steps + 1 < 2 ^ 31 }
    requires declared { IsDeclared core.old.image.names irq }
    ensures ok { OnOk result (Ran (app_of app.now) board.now (given_request irq local word)
        (moment core.old registers.old) (moment core.new registers.new) (K.taken out.old) (K.taken out.new)
        held.old.items held.new.items) }
    ensures err { OnErr result (Cut (app_of app.now) board.now (given_request irq local word)
        (moment core.old registers.old) (moment core.new registers.new) (K.taken out.old) (K.taken out.new)
        held.old.items) }
    ensures none_left { OnErr result (held.new.items ≡ []) }
    ensures cause { HasCause (K.faults out.old) (K.faults out.new) result }
    ensures quiet { OnOk result (K.faults out.new ≡ K.faults out.old) }
{
    registers.give(local, word);
    run_pend_line(core, app, board, registers, irq, 1, out, held)
}

/// So many requests of an interrupt, each with the next word of a source for a local resource.
fn run_words<K: Sink>(
    core: &mut Core,
    app: &App,
    board: &Board,
    registers: &mut Registers,
    irq: Irq,
    local: u8,
    source: &mut Source,
    count: u32,
    out: &mut K,
    held: &mut Held,
) -> Result<(), Failed>
    requires can { CanRun (app_of app.now) board.now core.old }
    requires few { core.old.steps + count < 2 ^ 31 }
    requires declared { IsDeclared core.old.image.names irq }
    ensures ok { OnOk result (Ran (app_of app.now) board.now (given_requests irq local (given_words count source.old))
        (moment core.old registers.old) (moment core.new registers.new) (K.taken out.old) (K.taken out.new)
        held.old.items held.new.items) }
    ensures err { OnErr result (Cut (app_of app.now) board.now (given_requests irq local (given_words count source.old))
        (moment core.old registers.old) (moment core.new registers.new) (K.taken out.old) (K.taken out.new)
        held.old.items) }
    ensures none_left { OnErr result (held.new.items ≡ []) }
    ensures cause { HasCause (K.faults out.old) (K.faults out.new) result }
    ensures quiet { OnOk result (K.faults out.new ≡ K.faults out.old) }
{
    for _done in 0..count {
        let word = source.next();
        run_word(core, app, board, registers, irq, local, word, out, held)?;
    }
    Ok(())
}

/// What a line of a script beside devices stands for.
pub fn run_line<K: Sink>(
    core: &mut Core,
    app: &App,
    board: &Board,
    registers: &mut Registers,
    line: &GivenLine,
    out: &mut K,
    held: &mut Held,
) -> Result<(), Failed>
    requires can { CanRun (app_of app.now) board.now core.old }
    requires few { core.old.steps + count_of line.now < 2 ^ 31 }
    requires early { core.old.core.time + count_of line.now < 2 ^ 31 }
    requires declared { HasNames core.old.image.names (asked_line line.now) }
    ensures ok { OnOk result (Ran (app_of app.now) board.now (line_happenings line.now)
        (moment core.old registers.old) (moment core.new registers.new) (K.taken out.old) (K.taken out.new)
        held.old.items held.new.items) }
    ensures err { OnErr result (Cut (app_of app.now) board.now (line_happenings line.now)
        (moment core.old registers.old) (moment core.new registers.new) (K.taken out.old) (K.taken out.new)
        held.old.items) }
    ensures none_left { OnErr result (held.new.items ≡ []) }
    ensures cause { HasCause (K.faults out.old) (K.faults out.new) result }
    ensures quiet { OnOk result (K.faults out.new ≡ K.faults out.old) }
{
    match line {
        GivenLine::Steps(count) => run_steps(core, app, board, registers, *count, out, held),
        GivenLine::Ticks(count) => run_tick_line(core, app, board, registers, *count, out, held),
        GivenLine::Pends(irq, count) | GivenLine::Device(_, irq, count) => {
            run_pend_line(core, app, board, registers, *irq, *count, out, held)
        }
        GivenLine::Counts(_, irq, count, local, first) => {
            let mut words = Source::Counting(*first);
            run_words(
                core, app, board, registers, *irq, *local, &mut words, *count, out, held,
            )
        }
        GivenLine::Draws(device, irq, count, local, seed) => {
            let mut words = Source::drawing(*device, *seed);
            run_words(
                core, app, board, registers, *irq, *local, &mut words, *count, out, held,
            )
        }
        GivenLine::Gives(local, word) => {
            registers.give(*local, *word);
            Ok(())
        }
    }
}

/// The lines of a script beside devices, from a core on to which no event has come.
fn run_lines<K: Sink>(
    core: &mut Core,
    app: &App,
    board: &Board,
    registers: &mut Registers,
    lines: &[GivenLine],
    out: &mut K,
    held: &mut Held,
) -> Result<(), Failed>
    requires fresh { IsFresh core.old }
    requires can { CanRun (app_of app.now) board.now core.old }
    requires script { IsScript (asked lines.now) }
    requires declared { HasNames core.old.image.names (asked lines.now) }
    ensures ok { OnOk result (Ran (app_of app.now) board.now (happenings lines.now)
        (moment core.old registers.old) (moment core.new registers.new) (K.taken out.old) (K.taken out.new)
        held.old.items held.new.items) }
    ensures err { OnErr result (Cut (app_of app.now) board.now (happenings lines.now)
        (moment core.old registers.old) (moment core.new registers.new) (K.taken out.old) (K.taken out.new)
        held.old.items) }
    ensures cause { HasCause (K.faults out.old) (K.faults out.new) result }
    ensures quiet { OnOk result (K.faults out.new ≡ K.faults out.old) }
{
    for line in lines {
        run_line(core, app, board, registers, line, out, held)?;
    }
    Ok(())
}

/// Lets out what is held, and the line of the total behind it.
fn put_all_held<K: Sink>(total: u64, out: &mut K, held: &mut Held) -> Result<(), Failed>
    requires { total < 2 ^ 32 }
    ensures ok { OnOk result (Took (K.taken out.old) (K.taken out.new) (held.old.items ++ total_text total)) }
    ensures err { OnErr result (TookPrefix (K.taken out.old) (K.taken out.new) (held.old.items ++ total_text total)) }
    ensures few { length held.old.items ≤ BUFFER_BYTES }
    ensures cause { HasCause (K.faults out.old) (K.faults out.new) result }
    ensures quiet { OnOk result (K.faults out.new ≡ K.faults out.old) }
{
    put_held(out, held)?;
    put_end(out, &mut LineBuffer::new(), total)
}

/// Runs a script beside devices on a core to which no event has come, and writes the text of its trace, with the words
/// that devices put and the total of core steps. The core's image is one of the application, and the board is one of
/// it. It takes no memory: lines gather in a buffer of 4 KiB, which goes out where the next line has no room, and at
/// the end, before the call answers.
pub fn run_with_inputs<K: Sink>(
    core: &mut Core,
    app: &App,
    board: &Board,
    script: &GivenScript,
    out: &mut K,
) -> Result<(), Failed>
    requires accepted { IsAccepted (app_of app.now) }
    requires image { IsImageOf (app_of app.now) core.old.image }
    requires inputs { AreInputs (app_of app.now) board.now.inputs }
    requires fresh { IsFresh core.old }
    requires lines { HasLines core.old.image }
    requires declared { HasNames core.old.image.names (asked script.now) }
    ensures ok { OnOk result (Took (K.taken out.old) (K.taken out.new)
        (text_with_inputs (app_of app.now) core.old.image board.now script.now)) }
    ensures all { OnOk result (MovesLead (app_of app.now)
        (moves_under (app_of app.now) core.old.image board.now script.now) core.old core.new) }

    // At a fault a beginning of the text was taken, and the core has done the first of what happens, as far at least as
    // its lines were taken.
    ensures err { OnErr result (TookPrefix (K.taken out.old) (K.taken out.new)
        (text_with_inputs (app_of app.now) core.old.image board.now script.now)) }
    ensures part { OnErr result (BreaksOff (app_of app.now) board.now (happenings script.now)
        (without_words core.old) core.new (K.taken out.old) (K.taken out.new)) }
    ensures cause { HasCause (K.faults out.old) (K.faults out.new) result }
    ensures quiet { OnOk result (K.faults out.new ≡ K.faults out.old) }
{
    let mut held = Held::new();
    let mut registers = Registers::new();
    let lines = script.lines();
    run_lines(core, app, board, &mut registers, lines, out, &mut held)?;
    put_all_held(core.steps(), out, &mut held)
}
