// Mailboxes: one thread, and a thread that gives beside one that takes.

ghost use Rattle.std.specs.Prelude.{◌≡◌, ◌+◌, ◌-◌, ◌^◌, ◌<◌, length};
ghost use Rattle.rt_values.specs.Sides.{new_giver, new_taker};

use crate::part::print_line;
use anyhow::Result;
use rt_ids::NoMemory;
use rt_values::{Given, Giver, Left, Mailbox, Taker};
use std::alloc::Global;
use std::thread::{Threads, join};

/// What stands before the first word of a thread that gives, each word being the one before and one.
const BEFORE_WORDS: u32 = 64;

// Gives so many words, counting up.
fn give_often(mailbox: &Mailbox, mut giver: Giver, times: u32) -> Giver
    requires mailbox { giver.mailbox ≡ mailbox.now }
    requires room { length giver.calls + times < 2 ^ 32 - 1 }
    ensures { result ≡ record giver { calls = result.calls } }
{
    let mut word = BEFORE_WORDS;
    for _ in 0..times {
        word = word.wrapping_add(1);
        giver.give(mailbox, word);
    }
    giver
}

// Takes so often, and says whether each word that was found is greater than those before it.
fn take_often(mailbox: &Mailbox, mut taker: Taker, times: u32) -> (Taker, bool)
    requires mailbox { taker.mailbox ≡ mailbox.now }
    requires room { length taker.calls + times < 2 ^ 32 - 1 }
    ensures { result.0 ≡ record taker { calls = result.0.calls; last = result.0.last } }
{
    let mut last = BEFORE_WORDS;
    let mut rising = true;
    for _ in 0..times {
        if let Some(word) = taker.take(mailbox) {
            rising = rising && last < word;
            last = word;
        }
    }
    (taker, rising)
}

// A thread gives five hundred words, while another takes a thousand times.
fn give_and_take<R: Threads + Sync>(rt: &R, alloc: Global) -> Result<(bool, Left), NoMemory> {
    let (mailbox, giver, taker) = Mailbox::make(alloc)?;
    let (giver, (mut taker, rising)) = join(
        rt,
        || -> Giver
            requires { giver ≡ new_giver mailbox }
            ensures { result.mailbox ≡ mailbox }
        { give_often(&mailbox, giver, 500) },
        || -> (Taker, bool)
            requires { taker ≡ new_taker mailbox }
            ensures { result.0.mailbox ≡ mailbox }
        { take_often(&mailbox, taker, 1000) },
    );
    taker.gather(&mailbox, giver);
    Ok((rising, mailbox.close(taker)))
}

// How many gives raised or merged, whether the words that were found rise and a word that is left is the last, and
// whether as many gives raised as words were found or are left.
fn words_of_two_threads<R: Threads + Sync>(
    rt: &R,
    alloc: Global,
) -> Result<(u64, bool, bool), NoMemory> {
    let (rising, left) = give_and_take(rt, alloc)?;
    let gives = u64::from(left.raised) + u64::from(left.merged);
    let ended = u64::from(left.found) + u64::from(left.word.is_some());
    let last = left.word.is_none() || left.word == Some(BEFORE_WORDS + 500);
    Ok((gives, rising && last, u64::from(left.raised) == ended))
}

// What takes find around gives of one thread, what became of the gives, and how many raised, merged and were found;
// and the word that was left.
fn words_of_one_thread(
    alloc: Global,
) -> Result<([Option<u32>; 3], [Given; 3], [u32; 3], Option<u32>), NoMemory> {
    let (mailbox, mut giver, mut taker) = Mailbox::make(alloc)?;
    let before = taker.take(&mailbox);
    let one = giver.give(&mailbox, 65);
    let two = giver.give(&mailbox, u32::MAX);
    let found = taker.take(&mailbox);
    let again = taker.take(&mailbox);
    let three = giver.give(&mailbox, 0);
    taker.gather(&mailbox, giver);
    let left = mailbox.close(taker);
    Ok((
        [before, found, again],
        [one, two, three],
        [left.raised, left.merged, left.found],
        left.word,
    ))
}

/// Prints what became of words.
pub fn print_words<R: Threads + Sync + Print + AllocGlobal>(rt: &R) -> Result<()> {
    let one = words_of_one_thread(rt.alloc())?;
    print_line(rt, "words of one thread", &one)?;
    let two = words_of_two_threads(rt, rt.alloc())?;
    Ok(print_line(rt, "words of two threads", &two)?)
}
