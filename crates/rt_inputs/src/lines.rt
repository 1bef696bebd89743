// The lines of what a run with inputs shows.
ghost use Rattle.std.specs.Prelude.{◌≡◌, ◌+◌, ◌≤◌, ◌<◌, ◌^◌, [], ◌∷◌, ◌++◌, decimal, flat_map, length};
ghost use Rattle.std.specs.Prelude.{if◌then◌else◌, Some, OnOk, OnErr};
ghost use Rattle.std.specs.List.{AllByRecursion};
ghost use Rattle.rt_ids.specs.declared.limits.TheConstants.{NAME_BYTES};
ghost use Rattle.rt_outside.specs.Faults.{HasCause};
ghost use Rattle.rt_outside.specs.Bytes.{TookPrefix};
ghost use Rattle.rt_app.specs.Names.{names_of};
ghost use Rattle.rt_app.specs.View.{app_of};
ghost use Rattle.rt_trace.specs.Label.{Ticked, Rang, items_of};
ghost use Rattle.rt_trace.specs.Lined.{HasLine};
ghost use Rattle.rt_trace.specs.Text as text;
ghost use Rattle.rt_trace.specs.declared.buffer.TheConstants.{BUFFER_BYTES};
ghost use Rattle.rt_run.specs.Inside.Writing.{HasWords, Wrote};
ghost use Rattle.rt_board.specs.Board.{no_board};
ghost use Rattle.rt_board.specs.declared.board.Input.{Input};
ghost use Rattle.rt_inputs.specs.Inputs.{puts_for, taken};
ghost use Rattle.rt_inputs.specs.Shown as shown;
ghost use Rattle.rt_inputs.specs.Inside.Placed.{text_for, lines_of_words};
ghost use Rattle.rt_inputs.specs.Inside.Ran.{held_in};

use crate::held::{Held, put_line};
use crate::putting::{is_for, taken};
use crate::registers::Registers;
use arrayvec::ArrayVec;
use itoa::Buffer;
use rt_app::App;
use rt_board::{Board, Input};
use rt_ids::{Irq, Names};
use rt_outside::{Failed, Sink};
use rt_run::numbers_fit;
use rt_trace::{Item, What, line};

/// Bytes for which the line of a word has room: two numbers of 10 digits, `input`, a name of 32 bytes, three spaces and
/// the line feed are 61.
const INPUT_BYTES: usize = 64;

/// The line of a word in the making.
type InputLine = ArrayVec<u8, INPUT_BYTES>;

/// Appends bytes.
fn put(line: &mut InputLine, bytes: &[u8])
    requires { length line.old.items + length bytes.now ≤ INPUT_BYTES }
    ensures { line.new.items ≡ line.old.items ++ bytes.now }
{
    let _all = line.try_extend_from_slice(bytes);
}

/// Appends a number.
fn put_number(line: &mut InputLine, number: u32)
    requires { length line.old.items + 10 ≤ INPUT_BYTES }
    ensures written { line.new.items ≡ line.old.items ++ decimal number }
    ensures long { length line.new.items ≤ length line.old.items + 10 }
{
    let mut buffer = Buffer::new();
    put(line, buffer.format(number).as_bytes());
}

/// The name of a local resource.
fn local_name(app: &App, local: u8) -> &[u8]
    ensures { result.now ≡ shown.local_name (app_of app.now) local }
{
    match app.locals.get(usize::from(local)) {
        Some(local) => local.name.bytes(),
        None => b"",
    }
}

/// The line of a word that a device has put into a local resource, with its line feed.
fn input_line(app: &App, step: u32, local: u8, word: u32) -> InputLine
    requires { length (shown.local_name (app_of app.now) local) ≤ NAME_BYTES }
    ensures { result.items ≡ shown.line_text (app_of app.now) (shown.Input step local word) }
{
    let mut line = InputLine::new();
    put_number(&mut line, step);
    put(&mut line, b" input ");
    put(&mut line, local_name(app, local));
    put(&mut line, b" ");
    put_number(&mut line, word);
    put(&mut line, b"\n");
    line
}

/// Writes the line of the word of an input, where the task of the input binds this interrupt.
fn put_input<K: Sink>(
    app: &App,
    registers: &Registers,
    input: Input,
    irq: Irq,
    step: u32,
    out: &mut K,
    held: &mut Held,
) -> Result<(), Failed>
    requires { length (shown.local_name (app_of app.now) input.local) ≤ NAME_BYTES }
    ensures ok { OnOk result (Wrote (K.taken out.old) (K.taken out.new) held.old.items held.new.items
        (text_for (app_of app.now) no_board (held_in registers.now) step irq input)) }
    ensures err { OnErr result (TookPrefix (K.taken out.old) (K.taken out.new)
        (held.old.items ++ text_for (app_of app.now) no_board (held_in registers.now) step irq input)) }
    ensures none_left { OnErr result (held.new.items ≡ []) }
    ensures cause { HasCause (K.faults out.old) (K.faults out.new) result }
    ensures quiet { OnOk result (K.faults out.new ≡ K.faults out.old) }
{
    let local = input.local;
    if !is_for(app, input, irq) {
        return Ok(());
    }
    let line = input_line(app, step, local, registers.word(local));
    put_line(out, held, line.as_slice())
}

/// Writes the lines of the words of all inputs whose task binds this interrupt.
fn put_inputs<K: Sink>(
    app: &App,
    board: &Board,
    registers: &Registers,
    irq: Irq,
    step: u32,
    out: &mut K,
    held: &mut Held,
) -> Result<(), Failed>
    requires { AllByRecursion (λ (input : Input).
        length (shown.local_name (app_of app.now) input.local) ≤ NAME_BYTES) board.now.inputs }
    ensures ok { OnOk result (Wrote (K.taken out.old) (K.taken out.new) held.old.items held.new.items
        (flat_map (text_for (app_of app.now) no_board (held_in registers.now) step irq) board.now.inputs)) }
    ensures err { OnErr result (TookPrefix (K.taken out.old) (K.taken out.new) (held.old.items
        ++ flat_map (text_for (app_of app.now) no_board (held_in registers.now) step irq) board.now.inputs)) }
    ensures none_left { OnErr result (held.new.items ≡ []) }
    ensures cause { HasCause (K.faults out.old) (K.faults out.new) result }
    ensures quiet { OnOk result (K.faults out.new ≡ K.faults out.old) }
{
    let inputs = board.inputs();
    for input in inputs {
        put_input(app, registers, *input, irq, step, out, held)?;
    }
    Ok(())
}

/// Writes the line of an item.
pub(crate) fn put_item<K: Sink>(
    out: &mut K,
    held: &mut Held,
    item: &Item,
    names: &Names,
) -> Result<(), Failed>
    requires { HasLine names.now item.now }
    ensures ok { OnOk result (Wrote (K.taken out.old) (K.taken out.new) held.old.items held.new.items
        (text.text names.now item.now)) }
    ensures err { OnErr result
        (TookPrefix (K.taken out.old) (K.taken out.new) (held.old.items ++ text.text names.now item.now)) }
    ensures few { length held.old.items ≤ BUFFER_BYTES }
    ensures none_left { OnErr result (held.new.items ≡ []) }
    ensures cause { HasCause (K.faults out.old) (K.faults out.new) result }
    ensures quiet { OnOk result (K.faults out.new ≡ K.faults out.old) }
{
    put_line(out, held, line(item, names).as_slice())
}

/// Writes the line of what a core step shows, behind so many steps, and behind that of a take those of the words that
/// devices put there.
pub(crate) fn put_shown<K: Sink>(
    app: &App,
    board: &Board,
    registers: &Registers,
    step: u64,
    what: What,
    names: &Names,
    out: &mut K,
    held: &mut Held,
) -> Result<(), Failed>
    requires few { step < 2 ^ 31 }
    requires words { HasWords names.now what }
    requires names { names.now ≡ names_of (app_of app.now) }
    requires places { AllByRecursion (λ (input : Input).
        length (shown.local_name (app_of app.now) input.local) ≤ NAME_BYTES) board.now.inputs }
    ensures ok { OnOk result (Wrote (K.taken out.old) (K.taken out.new) held.old.items held.new.items
        (flat_map (shown.line_text (app_of app.now)) (shown.Shows (record { step = step; what = what })
        ∷ lines_of_words step (puts_for (app_of app.now) board.now (held_in registers.now) (taken (Some what)))))) }
    ensures err { OnErr result (TookPrefix (K.taken out.old) (K.taken out.new) (held.old.items
        ++ flat_map (shown.line_text (app_of app.now)) (shown.Shows (record { step = step; what = what })
        ∷ lines_of_words step (puts_for (app_of app.now) board.now (held_in registers.now) (taken (Some what)))))) }
    ensures few { length held.old.items ≤ BUFFER_BYTES }
    ensures none_left { OnErr result (held.new.items ≡ []) }
    ensures cause { HasCause (K.faults out.old) (K.faults out.new) result }
    ensures quiet { OnOk result (K.faults out.new ≡ K.faults out.old) }
{
    numbers_fit(&what);
    put_item(out, held, &Item { step, what }, names)?;
    match taken(&what) {
        Some(irq) => put_inputs(app, board, registers, irq, step as u32, out, held),
        None => Ok(()),
    }
}

/// Writes the line of a tick, and that of the alarm where it came.
pub(crate) fn put_tick<K: Sink>(
    step: u64,
    came: bool,
    names: &Names,
    out: &mut K,
    held: &mut Held,
) -> Result<(), Failed>
    requires { step < 2 ^ 31 }
    ensures ok { OnOk result (Wrote (K.taken out.old) (K.taken out.new) held.old.items held.new.items
        (flat_map (text.text names.now) (items_of step (Ticked ∷ (if came then Rang ∷ [] else []))))) }
    ensures err { OnErr result (TookPrefix (K.taken out.old) (K.taken out.new) (held.old.items
        ++ flat_map (text.text names.now) (items_of step (Ticked ∷ (if came then Rang ∷ [] else []))))) }
    ensures few { length held.old.items ≤ BUFFER_BYTES }
    ensures none_left { OnErr result (held.new.items ≡ []) }
    ensures cause { HasCause (K.faults out.old) (K.faults out.new) result }
    ensures quiet { OnOk result (K.faults out.new ≡ K.faults out.old) }
{
    let what = What::Tick;
    put_item(out, held, &Item { step, what }, names)?;
    if !came {
        return Ok(());
    }
    let what = What::Alarm;
    put_item(out, held, &Item { step, what }, names)
}
