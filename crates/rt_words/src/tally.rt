// How often a line's calls raised, merged and latched interrupts.
ghost use Rattle.std.specs.Prelude.{◌≡◌, ℕ, ◌+◌, ◌-◌, ◌^◌, ◌<◌, cond, length, replicate, slice_index};
ghost use Rattle.rt_words.specs.Account.{latches};
ghost use Rattle.rt_words.specs.declared.call.Call.TheVariants.{Latch};

/// Interrupt numbers that the counts have room for.
const COUNTS: usize = 512;

/// Bits of a word.
const BITS: usize = 32;

/// How often a line's calls raised, merged and latched each interrupt, by number.
#[derive(Drop)]
pub struct Tally {
    /// How often each interrupt was raised.
    pub raised: [u32; COUNTS],
    /// How often a pend of each interrupt merged into one that was pending.
    pub merged: [u32; COUNTS],
    /// How often each interrupt was latched.
    pub latched: [u32; COUNTS],
}

impl Tally {
    // The counts of a line without calls.
    pub(crate) fn none() -> Tally
        ensures raised { result.raised ≡ replicate 512 0 }
        ensures merged { result.merged ≡ replicate 512 0 }
        ensures latched { result.latched ≡ replicate 512 0 }
    {
        Tally {
            raised: [0; COUNTS],
            merged: [0; COUNTS],
            latched: [0; COUNTS],
        }
    }
}

/// Adds one to the count of each interrupt whose bit this word of a core holds.
#[inline(always)]
pub(crate) fn count_bits(counts: &mut [u32; COUNTS], word: u8, bits: u32)
    requires word { word < 16 }
    requires room { (irq : ℕ) → slice_index counts.old irq < 2 ^ 32 - 1 }
    ensures room { length counts.new ≡ length counts.old }
    ensures counted { (irq : ℕ)
        → slice_index counts.new irq ≡ slice_index counts.old irq + cond (latches irq (Latch word bits)) 1 0 }
{
    // Most words that are latched are empty.
    if bits != 0 {
        count_each(counts, word, bits);
    }
}

// The same by a loop over the bits.
#[inline(never)]
fn count_each(counts: &mut [u32; COUNTS], word: u8, bits: u32)
    requires word { word < 16 }
    requires room { (irq : ℕ) → slice_index counts.old irq < 2 ^ 32 - 1 }
    ensures room { length counts.new ≡ length counts.old }
    ensures counted { (irq : ℕ)
        → slice_index counts.new irq ≡ slice_index counts.old irq + cond (latches irq (Latch word bits)) 1 0 }
{
    let first = usize::from(word) * BITS;
    for bit in 0..BITS {
        if (bits >> bit) & 1 == 1 {
            counts[first + bit] += 1;
        }
    }
}
