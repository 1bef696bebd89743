// Pending words: one line, and two threads.

ghost use Rattle.std.specs.Prelude.{◌≡◌, ℕ, ◌+◌, ◌-◌, ◌^◌, ◌<◌, length};
ghost use Rattle.rt_words.specs.Object.{IsPending};
ghost use Rattle.rt_words.specs.Row.{bit_in_row, word_in_row};
ghost use Rattle.rt_words.specs.Lines.{word_count, new_line};
ghost use Rattle.rt_words.specs.declared.row.TheConstants.{CORE_WORDS};

use crate::part::print_line;
use anyhow::{Result, bail};
use rt_ids::{Irq, NoMemory};
use rt_words::{CORE_WORDS, Left, Line, Pended, ROW_WORDS, Tally, Words};
use std::alloc::Global;
use std::thread::{Threads, join};

// The bit of one interrupt of a core.
fn only(core: u8, irq: Irq) -> [u32; 32]
    requires { core < 2 }
    ensures it { IsPending result (bit_in_row core irq) }
    ensures no_other { (bit : ℕ) → IsPending result bit → bit ≡ bit_in_row core irq }
{
    let number = irq.get();
    let mut may = [0; 32];
    may[usize::from(CORE_WORDS * core) + usize::from(number / 32)] = 1 << (number % 32);
    may
}

// So many pends of an interrupt.
fn pend_often(words: &Words, mut line: Line, irq: Irq, times: u32) -> Line
    requires words { line.words ≡ words.now }
    requires room { length line.calls + times < 2 ^ 32 - 1 }
    requires may { IsPending words.now.may (bit_in_row line.there irq) }
    ensures { result ≡ record line { calls = result.calls } }
{
    for _ in 0..times {
        line.pend(words, irq);
    }
    line
}

// So many latches of a word.
fn latch_often(words: &Words, mut line: Line, k: u8, times: u32) -> Line
    requires words { line.words ≡ words.now }
    requires room { length line.calls + times < 2 ^ 32 - 1 }
    requires core { k < CORE_WORDS }
    requires word { word_in_row line.here k < word_count words.now }
    ensures { result ≡ record line { calls = result.calls } }
{
    let first = line.first_word();
    for _ in 0..times {
        line.latch(words, first, k);
    }
    line
}

// Two threads pend an interrupt, five hundred times each.
fn pend_by_both<R: Threads + Sync>(
    rt: &R,
    words: &Words,
    one: Line,
    two: Line,
    irq: Irq,
) -> (Line, Line)
    requires first { one ≡ new_line words.now 0 0 0 }
    requires second { two ≡ new_line words.now 1 0 0 }
    requires may { IsPending words.now.may (bit_in_row 0 irq) }
    ensures words { (result.0.words ≡ words.now) × (result.1.words ≡ words.now) }
    ensures numbers { (result.0.number ≡ 0) × (result.1.number ≡ 1) }
{
    join(
        rt,
        || pend_often(words, one, irq, 500),
        || pend_often(words, two, irq, 500),
    )
}

// Two threads pend an interrupt of word 1, while the first line latches the word a thousand times.
fn pend_and_latch<R: Threads + Sync>(
    rt: &R,
    alloc: Global,
    irq: Irq,
) -> Result<(Tally, Tally, Left), NoMemory>
    requires { irq < 64 }
{
    let (words, mut first) = Words::make(alloc, 2, only(0, irq), 0)?;
    let one = first.split(&words, 0, 0, 0);
    let two = first.split(&words, 1, 0, 0);
    let (mut first, (one, two)) = join(
        rt,
        || latch_often(&words, first, 1, 1000),
        || -> (Line, Line)
            requires { (one ≡ new_line words 0 0 0) × (two ≡ new_line words 1 0 0)
                × IsPending words.may (bit_in_row 0 irq) }
            ensures { (result.0.words ≡ words) × (result.1.words ≡ words)
                × (result.0.number ≡ 0) × (result.1.number ≡ 1) }
        { pend_by_both(rt, &words, one, two, irq) },
    );
    let of_one = first.gather(&words, one);
    let of_two = first.gather(&words, two);
    Ok((of_one, of_two, words.close(first)))
}

/// Two threads pend an interrupt beside a line that latches: how many pends raised it or merged, and whether as many
/// raised it as were latched or left.
fn pends_of_two_threads<R: Threads + Sync>(
    rt: &R,
    alloc: Global,
    irq: Irq,
) -> Result<(u64, bool), NoMemory>
    requires { irq < 64 }
{
    let (one, two, left) = pend_and_latch(rt, alloc, irq)?;
    let index = usize::from(irq.get());
    let raised = u64::from(one.raised[index]) + u64::from(two.raised[index]);
    let merged = u64::from(one.merged[index]) + u64::from(two.merged[index]);
    let bit = (left.bits[index / 32] >> (index % 32)) & 1;
    let ended = u64::from(left.own.latched[index]) + u64::from(bit);
    Ok((raised + merged, raised == ended))
}

/// What two latches of the second core's line find around two pends of the first line, what became of these and of a
/// pend behind them, and how many of the pends raised the second core's interrupt and merged, which bits were left, and
/// how many were latched.
fn pends_of_one_line(alloc: Global, irq: Irq) -> Result<([u32; 2], [Pended; 3], [u32; 4]), NoMemory>
    requires { irq < 32 }
{
    let (words, mut first) = Words::make(alloc, ROW_WORDS, only(1, irq), 1)?;
    let mut second = first.split(&words, 254, 1, 0);
    let start = second.first_word();
    let before = second.latch(&words, start, 0);
    let one = first.pend(&words, irq);
    let two = first.pend(&words, irq);
    let found = second.latch(&words, start, 0);
    let three = first.pend(&words, irq);
    let tally = first.gather(&words, second);
    let left = words.close(first);
    let index = usize::from(irq.get());
    let pends = [left.own.raised[index], left.own.merged[index]];
    let ends = [left.bits[usize::from(CORE_WORDS)], tally.latched[index]];
    Ok((
        [before, found],
        [one, two, three],
        [pends[0], pends[1], ends[0], ends[1]],
    ))
}

/// Prints what became of pends of one line.
fn print_one_line(rt: &(impl Print + AllocGlobal), irq: Irq) -> Result<()>
    requires { irq < 32 }
{
    let ended = pends_of_one_line(rt.alloc(), irq)?;
    Ok(print_line(rt, "pends of one line", &ended)?)
}

/// Prints what became of pends of two threads.
fn print_two_threads<R: Threads + Sync + Print + AllocGlobal>(rt: &R, irq: Irq) -> Result<()>
    requires { irq < 64 }
{
    let ended = pends_of_two_threads(rt, rt.alloc(), irq)?;
    Ok(print_line(rt, "pends of two threads", &ended)?)
}

/// Prints what became of pends.
pub fn print_pends<R: Threads + Sync + Print + AllocGlobal>(rt: &R) -> Result<()> {
    let (Some(one), Some(two)) = (Irq::new(3), Irq::new(40)) else {
        bail!("no interrupt");
    };
    print_one_line(rt, one)?;
    print_two_threads(rt, two)
}
