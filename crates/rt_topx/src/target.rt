// What a program is made for, from what the text of a board tells.

ghost use Rattle.std.specs.Prelude.{◌≡◌, ◌++◌, [], filter_map, find, true, None, IfOk, OnOk};
ghost use Rattle.std.specs.List.{cons_option};
ghost use Rattle.rt_ids.specs.Lists.{is_some_and};
ghost use Rattle.rt_app.specs.Accepted.{IsAccepted};
ghost use Rattle.rt_app.specs.View.{app_of};
ghost use Rattle.rt_target.specs.Chip as chip;
ghost use Rattle.rt_target.specs.Reading.{wanting};
ghost use Rattle.rt_topx.specs.Target as spec;

use rt_app::App;
use rt_board::{Board, Input as BoardInput};
use rt_given::irq_of;
use rt_ids::{Irq, NoMemory};
use rt_native::{Input, Region, Target};
use rt_target::fact::{is_flash, is_port, is_ram, is_tick};
use rt_target::{Fact, Setup};
use std::alloc::Global;

/// What a program of an application is made for, by a board's text that tells all that it takes.
pub(crate) fn target_of(alloc: Global, app: &App, setup: &Setup) -> Result<Target, NoMemory>
    requires accepted { IsAccepted (app_of app.now) }
    requires whole { wanting setup.now.facts ≡ None }
    ensures { IfOk result (λ target. target ≡ spec.target_of (app_of app.now) setup.now) }
{
    let facts = setup.facts();
    Ok(Target {
        flash: region_of(flash_of(facts)),
        ram: region_of(ram_of(facts)),
        port: address_of(port_of(facts)),
        tick: reload_of(tick_of(facts)),
        inputs: inputs_of(alloc, app, setup.board(), facts)?,
        calls: calls_of(alloc, facts)?,
    })
}

/// The interrupt as which a function of C is called first, where a fact says so.
fn irq_called(fact: &Fact) -> Option<Irq>
    ensures { result ≡ spec.irq_called fact.now }
{
    match fact {
        Fact::Call(irq) => Some(*irq),
        _ => None,
    }
}

/// Appends an interrupt, where there is one.
fn push_irq(irqs: &mut Vec<Irq>, irq: Option<Irq>) -> Result<(), NoMemory>
    ensures { OnOk result (irqs.new.items ≡ irqs.old.items ++ cons_option irq []) }
{
    if let Some(irq) = irq {
        irqs.push(irq)?;
    }
    Ok(())
}

/// The interrupts as which functions of C are called first.
fn calls_of(alloc: Global, facts: &[Fact]) -> Result<Vec<Irq>, NoMemory>
    ensures { IfOk result (λ calls. calls.items ≡ filter_map spec.irq_called facts.now) }
{
    let mut calls = Vec::new(alloc);
    for fact in facts {
        push_irq(&mut calls, irq_called(fact))?;
    }
    Ok(calls)
}

/// Where flash lies.
fn flash_of(facts: &[Fact]) -> Option<Fact>
    ensures { result ≡ find chip.is_flash facts.now }
{
    facts.iter().find(|fact| is_flash(fact)).copied()
}

/// Where RAM lies.
fn ram_of(facts: &[Fact]) -> Option<Fact>
    ensures { result ≡ find chip.is_ram facts.now }
{
    facts.iter().find(|fact| is_ram(fact)).copied()
}

/// Which word `emit` writes.
fn port_of(facts: &[Fact]) -> Option<Fact>
    ensures { result ≡ find chip.is_port facts.now }
{
    facts.iter().find(|fact| is_port(fact)).copied()
}

/// How long a tick is.
fn tick_of(facts: &[Fact]) -> Option<Fact>
    ensures { result ≡ find chip.is_tick facts.now }
{
    facts.iter().find(|fact| is_tick(fact)).copied()
}

/// The memory of a fact that is of one.
fn region_of(fact: Option<Fact>) -> Region
    requires { is_some_and chip.is_memory fact ≡ true }
    ensures { result ≡ spec.region_of fact }
{
    match fact {
        Some(Fact::Flash(address, size)) => Region { address, size },
        Some(Fact::Ram(address, size)) => Region { address, size },
        _ => unreachable!(),
    }
}

/// The address of a port.
fn address_of(fact: Option<Fact>) -> u32
    requires { is_some_and chip.is_port fact ≡ true }
    ensures { result ≡ spec.address_of fact }
{
    match fact {
        Some(Fact::Port(address)) => address,
        _ => unreachable!(),
    }
}

/// The reload value of a tick, where there is one.
fn reload_of(fact: Option<Fact>) -> Option<u32>
    ensures { result ≡ spec.reload_of fact }
{
    match fact {
        Some(Fact::Tick(reload)) => Some(reload),
        _ => None,
    }
}

/// The cells that are read from devices, and their addresses.
fn inputs_of(
    alloc: Global,
    app: &App,
    board: &Board,
    facts: &[Fact],
) -> Result<Vec<Input>, NoMemory>
    requires { IsAccepted (app_of app.now) }
    ensures { IfOk result (λ inputs. inputs.items ≡ spec.inputs_of (app_of app.now) board.now facts.now) }
{
    let mut inputs = Vec::new(alloc);
    for fact in facts {
        push_some(&mut inputs, input_read(app, board, fact))?;
    }
    Ok(inputs)
}

/// Appends an input, where there is one.
fn push_some(inputs: &mut Vec<Input>, input: Option<Input>) -> Result<(), NoMemory>
    ensures { OnOk result (inputs.new.items ≡ inputs.old.items ++ cons_option input []) }
{
    if let Some(input) = input {
        inputs.push(input)?;
    }
    Ok(())
}

/// The cell that is read from a device where a fact says so.
fn input_read(app: &App, board: &Board, fact: &Fact) -> Option<Input>
    requires { IsAccepted (app_of app.now) }
    ensures { result ≡ spec.input_read (app_of app.now) board.now fact.now }
{
    let Fact::Word(local, address) = fact else {
        return None;
    };
    let irq = irq_of_local(app, board, *local)?;
    let cell = (app.shared.len() + usize::from(*local)) as u32;
    Some(Input {
        irq,
        cell,
        address: *address,
    })
}

/// The interrupt of the task of the input that is a local resource.
fn irq_of_local(app: &App, board: &Board, local: u8) -> Option<Irq>
    ensures { result ≡ spec.irq_of_local (app_of app.now) board.now local }
{
    irq_of(app, input_of(board.inputs(), local)?)
}

/// The input that is a local resource, where it is one.
fn input_of(inputs: &[BoardInput], local: u8) -> Option<BoardInput>
    ensures { result ≡ find (spec.is_of_local local) inputs.now }
{
    inputs
        .iter()
        .find(|input| is_of_local(input, local))
        .copied()
}

/// Whether an input is this local resource.
fn is_of_local(input: &BoardInput, local: u8) -> bool
    ensures { result ≡ spec.is_of_local local input.now }
{
    input.local == local
}
