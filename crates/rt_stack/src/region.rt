// The words of a stack that are in use.

ghost use Rattle.std.specs.Prelude.{◌≡◌, ℕ, ◌*◌, ◌%◌, ◌/◌, ◌≤◌, ◌^◌, ◌<◌, ◌↔◌, List, ◌++◌, IsTrue, length, IfOk};
ghost use Rattle.std.specs.Borrow.{sem};
ghost use Rattle.rt_stack.specs.Region as region;
ghost use Rattle.rt_stack.specs.Region.{HasRoomFor};
ghost use Rattle.rt_stack.specs.Top.{with_top, LendsTop};

use rt_ids::NoMemory;
use std::alloc::Global;
use std::marker::Model;

/// Bytes of a word.
const WORD_BYTES: u32 = 4;

/// The words of a stack that are in use, and how many have room: fewer than 2^30. All room is made with the region, so
/// that no later call takes memory.
#[derive(Drop)]
pub struct Region {
    words: Vec<u32>,
    size: u32,
}

impl Model for Region {
    ghost use Rattle.std.specs.Prelude.{◌≤◌, ◌<◌, ◌^◌, vec_len, vec_capacity};
    ghost use Rattle.rt_stack.specs.Region.{Region};

    ghost Value = { Region };

    ghost view = { λ r. record { words = r.words.items; size = r.size } };

    ghost invariant = { λ r. (vec_len r.words ≤ r.size) × (r.size ≤ vec_capacity r.words) × (r.size < 2 ^ 30) };
}

impl Region {
    /// A region of so many bytes, whole pairs of words, with no word in use.
    pub fn new(alloc: Global, bytes: u32) -> Result<Region, NoMemory>
        requires { bytes % 8 ≡ 0 }
        ensures empty { IfOk result (λ made. made ≡ region.empty (bytes / 4)) }
        ensures whole { IfOk result (λ made. 4 * made.size ≡ bytes) }
    {
        let size = bytes / WORD_BYTES;
        let words = Vec::with_capacity(alloc, size as usize)?;
        Ok(Region { words, size })
    }

    /// How many words are in use.
    pub fn used_words(&self) -> u32
        ensures words { result ≡ region.used_words self.now }
        ensures within { result ≤ self.now.size }
        ensures few { self.now.size < 2 ^ 30 }
    {
        self.words.len() as u32
    }

    /// Whether so many words more have room.
    pub fn fits(&self, words: u32) -> bool
        ensures { IsTrue result ↔ HasRoomFor self.now words }
    {
        words <= self.size - self.used_words()
    }

    /// Takes so many words more into use, each 0.
    pub fn push(&mut self, words: u32)
        requires { HasRoomFor self.old words }
        ensures { self.new ≡ region.region_after_push self.old words }
    {
        let used = self.words.len() + words as usize;
        match self.words.resize(used, 0) {
            Ok(()) => {}
            Err(_) => unreachable!(),
        }
    }

    /// Takes the last so many words out of use.
    pub fn pop(&mut self, words: u32)
        requires { words ≤ region.used_words self.old }
        ensures { self.new ≡ region.region_after_pop self.old words }
    {
        self.words.truncate(self.words.len() - words as usize);
    }

    /// Lends the last so many words to be written.
    pub fn top(&mut self, words: u32) -> &mut [u32]
        requires { words ≤ region.used_words self.old }
        ensures value { result.now ≡ region.top self.old words }
        ensures len { length result.now ≡ words }

        // Once the loan ends the region has what was written there. All words below stay, and so does the size.
        ensures* writes_back { sem 𝓛 (LendsTop self.entry words result) }
        ensures below_stays { (ws : List ℕ) → length ws ≡ words → with_top self.old words ws
            ≡ record self.old { words = region.below self.old words ++ ws } }
    {
        let from = self.words.len() - words as usize;
        self.words.slice_mut(from..)
    }

    /// Lends the last so many words to be read.
    pub fn top_ref(&self, words: u32) -> &[u32]
        requires { words ≤ region.used_words self.now }
        ensures value { result.now ≡ region.top self.now words }
        ensures len { length result.now ≡ words }
    {
        let from = self.words.len() - words as usize;
        &self.words[from..]
    }
}
