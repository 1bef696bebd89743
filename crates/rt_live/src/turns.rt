// Turns of a core of a row: looks at its words, the events of a script that are its own, and what its posts lead to.
ghost use Rattle.std.specs.Prelude.{OnOk, Option, [], is_ok, length, map, replicate, ℕ, ◌+◌, ◌-◌, ◌<◌, ◌^◌, ◌∷◌, ◌≡◌};
ghost use Rattle.rt_ids.specs.{Arrivals.arrivals, Event.Arrive, Event.Step};
ghost use Rattle.rt_outside.specs.Faults.{HasCause};
ghost use Rattle.rt_run.specs.Writable.{IsWritable};
ghost use Rattle.rt_script.specs.Script.{HasName, count};
ghost use Rattle.rt_live.specs.Able.{BitsMayArrive, CanGo, IsAble, MayRoute};
ghost use Rattle.rt_live.specs.{Going.Comes, Going.Goes, Going.Posts, Interleaving.Looks, Interleaving.event_turns};
ghost use Rattle.rt_live.specs.{Interleaving.with_looks, Shares.HasOwnNames, Shares.event_of, Shares.own_turns};
ghost use Rattle.rt_live.specs.Requests as spec;

use crate::routes::{CoreRole, Routes};
use crate::share::Share;
use crate::showing::show_step;
use rt_core::Core;
use rt_devices::Gate;
use rt_ids::Irq;
use rt_outside::{Failed, Sink};
use rt_run::{send_pend, send_tick};
use rt_script::Line as Asked;
use rt_trace::{LineBuffer, What};
use rt_words::{CORE_WORDS, Line, Words};

/// Bits of a word.
const WORD_BITS: u16 = 32;

/// What goes from turn to turn.
#[derive(Drop)]
pub(crate) struct Between {
    /// Room for the lines of an event before they go out, in which nothing is kept.
    pub held: LineBuffer,
    /// How often a post was forwarded; stands still at its type's end.
    pub forwarded: u64,
}

impl Between {
    /// Before the first turn.
    pub(crate) fn new() -> Between {
        Between {
            held: LineBuffer::new(),
            forwarded: 0,
        }
    }
}

/// The interrupts whose bits a word holds arrive, the lowest first.
#[inline(never)]
fn arrive_word<K: Sink>(
    core: &mut Core,
    word: u8,
    found: u32,
    out: &mut K,
    held: &mut LineBuffer,
) -> Result<(), Failed>
    requires writable { IsWritable core.old }
    requires few { core.old.steps < 2 ^ 31 }
    requires may { BitsMayArrive core.old.image.names word found }
    ensures comes { Comes (is_ok result) (map Arrive (arrivals word found))
        core.old core.new (K.taken out.old) (K.taken out.new) }
    ensures cause { HasCause (K.faults out.old) (K.faults out.new) result }
    ensures quiet { OnOk result (K.faults out.new ≡ K.faults out.old) }
{
    for bit in 0..WORD_BITS {
        if (found >> bit) & 1 != 1 {
            continue;
        }
        let Some(irq) = Irq::new(u16::from(word) * WORD_BITS + bit) else {
            unreachable!()
        };
        held.clear();
        send_pend(core, irq, out, held)?;
    }
    Ok(())
}

/// One look: latches every word of the line's own core, from word 0 up, and what each holds arrives.
pub(crate) fn look<K: Sink>(
    core: &mut Core,
    line: &mut Line,
    words: &Words,
    out: &mut K,
    held: &mut LineBuffer,
) -> Result<(), Failed>
    requires able { IsAble core.old line.old words.now }
    requires few { core.old.steps < 2 ^ 31 }
    requires room { length line.old.calls + 16 < 2 ^ 32 - 1 }
    ensures goes { (route : ℕ → Option ℕ) → Goes route (Looks ∷ []) (is_ok result)
        line.old line.new core.old core.new (K.taken out.old) (K.taken out.new) }
    ensures cause { HasCause (K.faults out.old) (K.faults out.new) result }
    ensures quiet { OnOk result (K.faults out.new ≡ K.faults out.old) }
{
    let first = line.first_word();
    for k in 0..CORE_WORDS {
        let found = line.latch(words, first, k);
        if found == 0 {
            continue;
        }
        arrive_word(core, k, found, out, held)?;
    }
    Ok(())
}

/// The interrupt that an item leads to on the other core.
fn routed<T: Routes>(routes: &T, shown: &Option<What>) -> Option<Irq>
    ensures { result ≡ spec.routed (T.leads routes.now) shown.now }
{
    match shown {
        Some(What::Post(posted)) => routes.route(*posted),
        _ => None,
    }
}

/// Pends on the other core what an item leads to there. The gate is told of each such pend of a core by its number,
/// from 0, before it is made; no clause says so, since a gate's calls leave nothing that a clause could name.
fn forward<G: Gate, T: Routes>(
    line: &mut Line,
    words: &Words,
    role: &CoreRole<T>,
    shown: &Option<What>,
    forwarded: &mut u64,
    gate: &G,
)
    requires words { line.old.words ≡ words.now }
    requires may { MayRoute (T.leads role.now.routes) line.old.there words.now }
    requires room { length line.old.calls < 2 ^ 32 - 1 }
    ensures posts { Posts (T.leads role.now.routes) shown.now line.old line.new }
    ensures counted { forwarded.new ≡ spec.saturating_count forwarded.old
        (length (spec.post_requests (T.leads role.now.routes) line.old.there shown.now)) }
{
    let Some(irq) = routed(&role.routes, shown) else {
        return;
    };
    gate.before_pend(role.share.number(), *forwarded);
    line.pend(words, irq);
    *forwarded = forwarded.saturating_add(1);
}

/// A gate is told of the steps of one core: in a pair of the first.
fn tell<G: Gate>(share: Share, step: u64, gate: &G) {
    if share != Share::Second {
        gate.before_step(step);
    }
}

/// One core step behind a look, and what it leads to on the other core. The gate is told of it before the look.
fn step<K: Sink, G: Gate, T: Routes>(
    core: &mut Core,
    line: &mut Line,
    words: &Words,
    role: &CoreRole<T>,
    out: &mut K,
    between: &mut Between,
    gate: &G,
) -> Result<(), Failed>
    requires can { CanGo 1 (T.leads role.now.routes) core.old line.old words.now }
    ensures goes { Goes (T.leads role.now.routes) (event_turns Step) (is_ok result)
        line.old line.new core.old core.new (K.taken out.old) (K.taken out.new) }
    ensures cause { HasCause (K.faults out.old) (K.faults out.new) result }
    ensures quiet { OnOk result (K.faults out.new ≡ K.faults out.old) }
{
    tell(role.share, core.steps(), gate);
    look(core, line, words, out, &mut between.held)?;
    let shown = show_step(core, out)?;
    forward(line, words, role, &shown, &mut between.forwarded, gate);
    Ok(())
}

/// One of the events that a line of the script counts.
fn turn<K: Sink, G: Gate, T: Routes>(
    core: &mut Core,
    line: &mut Line,
    words: &Words,
    role: &CoreRole<T>,
    asked: &Asked,
    out: &mut K,
    between: &mut Between,
    gate: &G,
) -> Result<(), Failed>
    requires can { CanGo 1 (T.leads role.now.routes) core.old line.old words.now }
    requires declared { HasName core.old.image.names asked.now }
    ensures goes { Goes (T.leads role.now.routes) (event_turns (event_of asked.now)) (is_ok result)
        line.old line.new core.old core.new (K.taken out.old) (K.taken out.new) }
    ensures cause { HasCause (K.faults out.old) (K.faults out.new) result }
    ensures quiet { OnOk result (K.faults out.new ≡ K.faults out.old) }
{
    match asked {
        Asked::Steps(_) => step(core, line, words, role, out, between, gate),
        Asked::Ticks(_) => {
            between.held.clear();
            send_tick(core, out, &mut between.held)
        }
        Asked::Pends(irq, _) | Asked::Device(_, irq, _) => {
            between.held.clear();
            send_pend(core, *irq, out, &mut between.held)
        }
    }
}

/// The event that a line of the script counts, so many times.
pub(crate) fn repeat<K: Sink, G: Gate, T: Routes>(
    core: &mut Core,
    line: &mut Line,
    words: &Words,
    role: &CoreRole<T>,
    asked: &Asked,
    times: u64,
    out: &mut K,
    between: &mut Between,
    gate: &G,
) -> Result<(), Failed>
    requires can { CanGo times (T.leads role.now.routes) core.old line.old words.now }
    requires declared { HasName core.old.image.names asked.now }
    ensures goes { Goes (T.leads role.now.routes) (with_looks (replicate times (event_of asked.now))) (is_ok result)
        line.old line.new core.old core.new (K.taken out.old) (K.taken out.new) }
    ensures cause { HasCause (K.faults out.old) (K.faults out.new) result }
    ensures quiet { OnOk result (K.faults out.new ≡ K.faults out.old) }
{
    for _done in 0..times {
        turn(core, line, words, role, asked, out, between, gate)?;
    }
    Ok(())
}

/// The events of a script that are the core's own, in order; each core step comes behind a look.
pub(crate) fn own_lines<K: Sink, G: Gate, T: Routes>(
    core: &mut Core,
    line: &mut Line,
    words: &Words,
    role: &CoreRole<T>,
    script: &[Asked],
    out: &mut K,
    between: &mut Between,
    gate: &G,
) -> Result<(), Failed>
    requires can { CanGo (count script.now) (T.leads role.now.routes) core.old line.old words.now }
    requires declared { HasOwnNames role.now.share core.old.image.names script.now }
    ensures goes { Goes (T.leads role.now.routes) (own_turns role.now.share script.now) (is_ok result)
        line.old line.new core.old core.new (K.taken out.old) (K.taken out.new) }
    ensures cause { HasCause (K.faults out.old) (K.faults out.new) result }
    ensures quiet { OnOk result (K.faults out.new ≡ K.faults out.old) }
{
    for asked in script {
        if !role.share.takes(asked) {
            continue;
        }
        let times = u64::from(asked.count());
        repeat(core, line, words, role, asked, times, out, between, gate)?;
    }
    Ok(())
}
