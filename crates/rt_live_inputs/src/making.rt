// What a run beside devices that give words is made of.
ghost use Rattle.std.specs.Prelude.{◌≡◌, ◌≤◌, IfOk, length, map, option_to_list};
ghost use Rattle.std.specs.List.{list_any};
ghost use Rattle.rt_given.specs.Given.{asked};
ghost use Rattle.rt_script.specs.Script.{IsScript};
ghost use Rattle.rt_values.specs.Sides.{new_taker};
ghost use Rattle.rt_live_inputs.specs.Boxes as spec;
ghost use Rattle.rt_live_inputs.specs.Giving.{words_in};
ghost use Rattle.rt_live_inputs.specs.Inside.Making.{AreGivers};
ghost use Rattle.rt_live_inputs.specs.declared.making.TheConstants.{MOST_BOXES};

use crate::boxes::BoxKind;
use crate::device::GivingDevice;
use rt_given::GivenLine;
use rt_ids::NoMemory;
use rt_script::{Line, Script};
use rt_values::{Mailbox, Taker};
use std::alloc::Global;

/// More mailboxes than a script can have: one for each of 16 devices and 512 interrupts.
pub const MOST_BOXES: usize = 8192;

/// The line of a script that asks for no words.
fn plain_line(line: &GivenLine) -> Option<Line>
    ensures { option_to_list result ≡ spec.plain_line line.now }
{
    match line {
        GivenLine::Steps(count) => Some(Line::Steps(*count)),
        GivenLine::Ticks(count) => Some(Line::Ticks(*count)),
        GivenLine::Pends(irq, count) => Some(Line::Pends(*irq, *count)),
        GivenLine::Device(device, irq, count) => Some(Line::Device(*device, *irq, *count)),
        GivenLine::Counts(..) | GivenLine::Draws(..) | GivenLine::Gives(..) => None,
    }
}

/// The lines of a script that ask for no words.
pub(crate) fn plain_script(alloc: Global, lines: &[GivenLine]) -> Result<Script, NoMemory>
    requires { IsScript (asked lines.now) }
    ensures { IfOk result (λ script. script ≡ spec.plain lines.now) }
{
    let mut script = Script::new(alloc);
    for line in lines {
        let Some(plain) = plain_line(line) else {
            continue;
        };
        script.push(plain)?;
    }
    Ok(script)
}

/// The mailbox through which the device of a line gives.
fn box_of(line: &GivenLine) -> Option<BoxKind>
    ensures { option_to_list result ≡ spec.box_of line.now }
{
    match line {
        GivenLine::Counts(device, irq, _, local, _) | GivenLine::Draws(device, irq, _, local, _) =>
            {
                Some(BoxKind {
                    device: *device,
                    irq: *irq,
                    local: *local,
                })
            }
        _ => None,
    }
}

/// Whether two mailboxes are of one device and one interrupt.
fn is_same(a: &BoxKind, b: &BoxKind) -> bool
    ensures { result ≡ spec.is_same a.now b.now }
{
    a.device == b.device && a.irq == b.irq
}

/// Whether a mailbox is among these.
fn has_box(kinds: &[BoxKind], kind: &BoxKind) -> bool
    ensures { result ≡ list_any (spec.is_same kind.now) kinds.now }
{
    kinds.iter().any(|other| is_same(kind, other))
}

/// The mailboxes of a script, by the first line of each.
pub(crate) fn kinds_of(alloc: Global, lines: &[GivenLine]) -> Result<Vec<BoxKind>, NoMemory>
    ensures { IfOk result (λ kinds. kinds.items ≡ spec.boxes lines.now) }
{
    let mut kinds: Vec<BoxKind> = Vec::new(alloc);
    for line in lines {
        let Some(kind) = box_of(line) else {
            continue;
        };
        if has_box(&kinds, &kind) {
            continue;
        }
        kinds.push(kind)?;
    }
    Ok(kinds)
}

/// The lines of which the words go through a mailbox, in order.
fn lines_through(
    alloc: Global,
    lines: &[GivenLine],
    kind: &BoxKind,
) -> Result<Vec<GivenLine>, NoMemory>
    ensures { IfOk result (λ through. words_in through.items ≡ spec.words_through lines.now kind.now) }
{
    let mut through = Vec::new(alloc);
    for line in lines {
        if let Some(other) = box_of(line) {
            if is_same(kind, &other) {
                through.push(*line)?;
            }
        }
    }
    Ok(through)
}

/// What a run takes memory for, of devices that give words.
#[derive(Drop)]
pub(crate) struct Places {
    /// What each mailbox is for, in order.
    pub kinds: Vec<BoxKind>,
    /// The mailboxes.
    pub mailboxes: Vec<Mailbox>,
    /// The core's side of each.
    pub takers: Vec<Taker>,
    /// The device that gives through each.
    pub givers: Vec<GivingDevice>,
}

/// Makes the mailboxes of a script, with what is at their sides.
pub(crate) fn places_of(alloc: Global, lines: &[GivenLine]) -> Result<Places, NoMemory>
    ensures few { IfOk result (λ places. length places.kinds.items ≤ MOST_BOXES) }
    ensures kinds { IfOk result (λ places. places.kinds.items ≡ spec.boxes lines.now) }
    ensures takers { IfOk result (λ places. places.takers.items ≡ map new_taker places.mailboxes.items) }
    ensures givers { IfOk result (λ places.
        AreGivers lines.now places.kinds.items places.mailboxes.items places.givers.items) }
{
    let kinds = kinds_of(alloc, lines)?;
    if kinds.len() > MOST_BOXES {
        return Err(NoMemory);
    }
    let mut mailboxes = Vec::new(alloc);
    let mut takers = Vec::new(alloc);
    let mut givers = Vec::new(alloc);
    for kind in &kinds {
        let through = lines_through(alloc, lines, kind)?;
        let (mailbox, giver, taker) = Mailbox::make(alloc)?;
        mailboxes.push(mailbox)?;
        takers.push(taker)?;
        givers.push(GivingDevice {
            giver,
            number: kind.device,
            lines: through,
        })?;
    }
    Ok(Places {
        kinds,
        mailboxes,
        takers,
        givers,
    })
}
