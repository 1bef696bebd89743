// Makes the script of a number and a stream.

ghost use Rattle.std.specs.Prelude.{◌≡◌, ◌≤◌, IfOk};
ghost use Rattle.rt_script.specs.Generated as spec;
ghost use Rattle.rt_script.specs.Script.{HasDeviceInRange, count_of};

use crate::line::Line;
use crate::script::Script;
use rand_core::utils::NextWord;
use rand_pcg::Lcg64Xsh32;
use rt_ids::{Irq, NoMemory};
use std::alloc::Global;

/// How many words are drawn for a script; each gives a line.
const WORDS: u32 = 200;
/// The remainder of a word by this number says what its line asks for; the quotient says how many, or which interrupt.
const KINDS: u32 = 8;
/// So many of these remainders, the lowest, are for steps, and the next one is for ticks.
const STEP_KINDS: u32 = 5;
/// A line has up to so many steps.
const MOST_STEPS: u32 = 64;
/// A line has up to so many ticks.
const MOST_TICKS: u32 = 16;

/// The script of a number and a stream: 200 lines of steps, ticks and requests of the declared interrupts, which are
/// given in order. Each line comes from a word of O'Neill's generator PCG XSH RR 64/32, started at the number, with the
/// stream as its sequence.
pub fn generated(alloc: Global, number: u64, stream: u64, irqs: &[Irq]) -> Result<Script, NoMemory>
    ensures { IfOk result (λ script. script ≡ spec.generated irqs.now number stream) }
{
    let mut generator = Lcg64Xsh32::new(number, stream);
    let mut script = Script::new(alloc);
    for _drawn in 0..WORDS {
        let word = generator.next_word();
        script.push(line_of(irqs, word))?;
    }
    Ok(script)
}

/// The line of a word.
fn line_of(irqs: &[Irq], word: u32) -> Line
    ensures line { result ≡ spec.generated_line irqs.now word }
    ensures device { HasDeviceInRange result }
    ensures few { count_of result ≤ 64 }
{
    let kind = word % KINDS;
    let rest = word / KINDS;
    if kind < STEP_KINDS {
        Line::Steps(1 + rest % MOST_STEPS)
    } else if kind == STEP_KINDS {
        Line::Ticks(1 + rest % MOST_TICKS)
    } else if irqs.is_empty() {
        Line::Ticks(1)
    } else {
        Line::Pends(irqs[rest as usize % irqs.len()], 1)
    }
}
