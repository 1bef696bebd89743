// One bit of a row of words: that of a number n is bit n mod 32 of word n / 32.
ghost use Rattle.std.specs.Prelude.{◌≡◌, ◌≢◌, ◌==◌, ℕ, ◌/◌, ◌<◌, length};
ghost use Rattle.rt_ids.specs.Arrivals.{bit_of};

/// Whether the bit of a number is set.
#[inline]
pub(crate) fn has_bit(words: &[u32], number: u16) -> bool
    requires { number / 32 < length words.now }
    ensures { result ≡ (bit_of words.now number == 1) }
{
    (words[usize::from(number / 32)] >> (number % 32)) & 1 == 1
}

/// Sets the bit of a number.
#[inline]
pub(crate) fn set_bit(words: &mut [u32], number: u16)
    requires { number / 32 < length words.old }
    ensures same { bit_of words.new number ≡ 1 }
    ensures long { length words.new ≡ length words.old }
    ensures others { (other : ℕ) → other ≢ number → bit_of words.new other ≡ bit_of words.old other }
{
    words[usize::from(number / 32)] |= 1 << (number % 32);
}

/// Clears the bit of a number.
#[inline]
pub(crate) fn clear_bit(words: &mut [u32], number: u16)
    requires { number / 32 < length words.old }
    ensures same { bit_of words.new number ≡ 0 }
    ensures long { length words.new ≡ length words.old }
    ensures others { (other : ℕ) → other ≢ number → bit_of words.new other ≡ bit_of words.old other }
{
    words[usize::from(number / 32)] &= !(1 << (number % 32));
}
