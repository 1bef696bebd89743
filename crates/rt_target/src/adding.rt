// Adds what a line of a board's text says.

ghost use Rattle.std.specs.Prelude.{◌≡◌, IfOk, IfErr};
ghost use Rattle.std.specs.List.{list_any};
ghost use Rattle.rt_lines.specs.Answers.{and_make};
ghost use Rattle.rt_lines.specs.Parts.{spaced_words};
ghost use Rattle.rt_app.specs.View.{app_of};
ghost use Rattle.rt_target.specs.Chip as chip;
ghost use Rattle.rt_target.specs.Wording as spec;

use crate::bound::calls_for_none;
use crate::fact::{Fact, has_too_few_bits, is_in_range, overlap, says_same};
use crate::line::{Form, form_of, read_fact};
use crate::refusal::Cause;
use crate::setup::Setup;
use rt_app::App;
use rt_board::add_line;
use rt_ids::{Names, NoMemory};
use rt_lines::next_spaced_word;
use rt_script::{is_blank, is_comment, is_loose};

/// Adds what a line says, or tells what is wrong with the line.
pub(crate) fn take_line(
    setup: &mut Setup,
    names: &Names,
    app: &App,
    line: &[u8],
) -> Result<Result<(), Cause>, NoMemory>
    ensures taken { IfOk result (λ taken.
        spec.with_line names.now (app_of app.now) setup.old line.now ≡ and_make taken (λ _. setup.new)) }
    ensures unchanged { IfOk result (λ taken. IfErr taken (λ _. setup.new ≡ setup.old)) }
{
    if is_blank(line) || is_comment(line) {
        return Ok(Ok(()));
    }
    if is_loose(line) {
        return Ok(Err(Cause::BadLine));
    }
    take_words(setup, names, app, line)
}

/// Adds what the words of a line say, by the first of them.
fn take_words(
    setup: &mut Setup,
    names: &Names,
    app: &App,
    line: &[u8],
) -> Result<Result<(), Cause>, NoMemory>
    ensures taken { IfOk result (λ taken.
        spec.words_say names.now (app_of app.now) setup.old line.now (spaced_words line.now)
        ≡ and_make taken (λ _. setup.new)) }
    ensures unchanged { IfOk result (λ taken. IfErr taken (λ _. setup.new ≡ setup.old)) }
{
    let Some((first, words)) = next_spaced_word(line) else {
        return take_input(setup, names, app, line);
    };
    match form_of(first) {
        Some(form) => take_fact(setup, names, app, form, words),
        None => take_input(setup, names, app, line),
    }
}

/// Adds the input that a line names.
fn take_input(
    setup: &mut Setup,
    names: &Names,
    app: &App,
    line: &[u8],
) -> Result<Result<(), Cause>, NoMemory>
    ensures taken { IfOk result (λ taken.
        spec.input_line names.now (app_of app.now) setup.old line.now ≡ and_make taken (λ _. setup.new)) }
    ensures unchanged { IfOk result (λ taken. IfErr taken (λ _. setup.new ≡ setup.old)) }
{
    match add_line(&mut setup.board, names, app, line)? {
        Ok(()) => Ok(Ok(())),
        Err(cause) => Ok(Err(Cause::of(cause))),
    }
}

/// Adds what the words behind the first say of the chip.
fn take_fact(
    setup: &mut Setup,
    names: &Names,
    app: &App,
    form: Form,
    words: &[u8],
) -> Result<Result<(), Cause>, NoMemory>
    ensures taken { IfOk result (λ taken.
        spec.chip_line names.now (app_of app.now) setup.old form (spaced_words words.now)
        ≡ and_make taken (λ _. setup.new)) }
    ensures unchanged { IfOk result (λ taken. IfErr taken (λ _. setup.new ≡ setup.old)) }
{
    match fact_behind(setup, names, app, form, words) {
        Ok(fact) => Ok(Ok(setup.push(fact)?)),
        Err(cause) => Ok(Err(cause)),
    }
}

/// What the words behind the first say of the chip, where it can come behind what is told.
fn fact_behind(
    setup: &Setup,
    names: &Names,
    app: &App,
    form: Form,
    words: &[u8],
) -> Result<Fact, Cause>
    ensures { result ≡ spec.fact_behind names.now (app_of app.now) setup.now form (spaced_words words.now) }
{
    let fact = read_fact(names, app, setup.board(), form, words)?;
    if_can_follow(app, setup.facts(), fact)
}

/// Whether one of these says the same as a fact.
fn is_said(facts: &[Fact], fact: &Fact) -> bool
    ensures { result ≡ list_any (chip.says_same fact.now) facts.now }
{
    facts.iter().any(|other| says_same(fact, other))
}

/// Whether one of these and a fact have a byte in common, of memory.
fn shares_bytes(facts: &[Fact], fact: &Fact) -> bool
    ensures { result ≡ list_any (chip.overlap fact.now) facts.now }
{
    facts.iter().any(|other| overlap(fact, other))
}

/// A fact, where it can come behind others.
fn if_can_follow(app: &App, facts: &[Fact], fact: Fact) -> Result<Fact, Cause>
    ensures { result ≡ spec.if_can_follow (app_of app.now) facts.now fact }
{
    if is_said(facts, &fact) {
        Err(Cause::NamedTwice)
    } else if is_in_range(&fact) {
        if_apart(app, facts, fact)
    } else {
        Err(Cause::OutOfRange)
    }
}

/// A fact, where it and others have no byte in common, the core has enough bits, and a task binds what is called for.
fn if_apart(app: &App, facts: &[Fact], fact: Fact) -> Result<Fact, Cause>
    ensures { result ≡ spec.if_apart (app_of app.now) facts.now fact }
{
    if shares_bytes(facts, &fact) {
        Err(Cause::Overlap)
    } else if has_too_few_bits(app.bits, &fact) {
        Err(Cause::TooFewBits)
    } else if calls_for_none(app, &fact) {
        Err(Cause::UnboundInterrupt)
    } else {
        Ok(fact)
    }
}
