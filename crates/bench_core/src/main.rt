// Runs a core for so many steps on a small image with so many declared interrupts, and prints what it showed: `thread N
// I` spins in the thread, `handler N I` in a handler that does arithmetic, and `waiting N I` waits for an interrupt.
// With `pended` behind it the interrupt 1 is not enabled, and pending throughout. bench/run times it.
// Promises: nothing: it is a program to be timed.
// Stands on: rt_ids, rt_code, rt_image_tables, rt_core, rt_trace.
// Read next: bench/run.
#![tactic(auto)]

ghost use Rattle.std.specs.Prelude.{◌≡◌, ◌<◌, ◌^◌, IfSome};

mod images;
mod spin;

use anyhow::Result;
use images::Irqs;
use rt_code::Image;
use rt_core::Core;
use rt_ids::NoMemory;
use rt_ids::limits::IRQS;
use rt_image_tables::is_runnable;
use spin::spin;
use std::alloc::Global;
use std::env;

const USAGE: &str = "usage: bench_core thread|handler|waiting STEPS INTERRUPTS [pended]";

/// What a core does.
#[derive(Clone, Copy)]
enum Duty {
    /// The thread spins.
    Thread,
    /// A handler spins.
    Handler,
    /// The thread waits.
    Waiting,
}

/// What is asked for.
#[derive(Clone, Copy)]
struct Wanted {
    code: Duty,
    /// Core steps, fewer than 2^31.
    steps: u32,
    irqs: Irqs,
}

/// What a core does, by its word.
fn code_of(word: &str) -> Option<Duty> {
    match word {
        "thread" => Some(Duty::Thread),
        "handler" => Some(Duty::Handler),
        "waiting" => Some(Duty::Waiting),
        _ => None,
    }
}

/// The number of core steps that a word says: fewer than 2^31.
fn steps(word: &str) -> Option<u32>
    ensures { IfSome result (λ steps. steps < 2 ^ 31) }
{
    let steps = word.parse::<u32>().ok()?;
    if steps < 1 << 31 { Some(steps) } else { None }
}

/// How many interrupts a word says: at most as many as may be declared.
fn count(word: &str) -> Option<u16> {
    let count = word.parse::<u16>().ok()?;
    if usize::from(count) <= IRQS {
        Some(count)
    } else {
        None
    }
}

/// What words ask for.
fn request_of(words: &[String]) -> Option<Wanted>
    ensures { IfSome result (λ request. request.steps < 2 ^ 31) }
{
    let code = code_of(words.first()?.as_str())?;
    let steps = steps(words.get(1)?.as_str())?;
    let count = count(words.get(2)?.as_str())?;
    let is_second_off = words.get(3).map_or(false, |word| word.as_str() == "pended");
    Some(Wanted {
        code,
        steps,
        irqs: Irqs {
            count,
            is_second_off,
        },
    })
}

/// The image that is asked for.
fn image(alloc: Global, request: Wanted) -> Result<Image, NoMemory> {
    match request.code {
        Duty::Thread => images::thread(alloc, request.irqs),
        Duty::Handler | Duty::Waiting => images::handler(alloc, request.irqs),
    }
}

/// Requests the handler's interrupt, and the one that is not enabled.
fn arrive(core: &mut Core, request: Wanted)
    ensures { core.new.steps ≡ core.old.steps }
{
    if matches!(request.code, Duty::Handler) {
        core.arrive(0, 1);
    }
    if request.irqs.is_second_off {
        core.arrive(0, 2);
    }
}

/// Runs a core as is asked, and prints what it showed.
fn run<R: Print>(rt: &R, core: &mut Core, request: Wanted) -> Result<()>
    requires start { core.old.steps ≡ 0 }
    requires few { request.steps < 2 ^ 31 }
{
    arrive(core, request);
    let shown = spin(core, request.steps);
    println!(rt;
        "steps {}, items {}, values {}, stack {}",
        core.steps(),
        shown.items,
        shown.values,
        core.depth()
    )?;
    Ok(())
}

/// Makes a core of an image that is runnable.
fn start<R: Print + AllocGlobal>(rt: &R, request: Wanted) -> Result<()>
    requires few { request.steps < 2 ^ 31 }
{
    let image = image(rt.alloc(), request)?;
    if !is_runnable(&image) {
        return Ok(());
    }
    let mut core = Core::new(rt.alloc(), image)?;
    run(rt, &mut core, request)
}

fn main(rt: HostRuntime) -> Result<()> {
    let words: Vec<String> = env::args(&rt)?.skip(1).collect(rt.alloc())?;
    match request_of(&words) {
        Some(request) => start(&rt, request),
        None => Ok(println!(rt; "{USAGE}")?),
    }
}
