// Reads the numbers of a line.

ghost use Rattle.std.specs.Prelude.{◌≡◌, ◌≤◌, ◌<◌, ◌^◌, length, true, ◌&&◌};
ghost use Rattle.std.specs.List.{list_all};
ghost use Rattle.std.specs.Str.Parse.{digits_value};
ghost use Rattle.rt_ids.specs.Byte.{is_digit};
ghost use Rattle.rt_lines.specs.Numbers as spec;

/// The most digits of a short number.
const SHORT_DIGITS: usize = 9;
/// The most digits of a number of 32 bits.
const MOST_DIGITS: usize = 10;

/// The number that a word of one to nine digits spells. It may begin with 0.
pub fn short_number(word: &[u8]) -> Option<u32>
    ensures { result ≡ spec.short_number word.now }
{
    if are_digits(word, SHORT_DIGITS) {
        Some(value_of(word) as u32)
    } else {
        None
    }
}

/// The number that a word spells in decimal without a leading zero, where it is below a bound.
pub fn number_below(word: &[u8], bound: u64) -> Option<u64>
    requires { bound ≤ 2 ^ 32 }
    ensures { result ≡ spec.number_below bound word.now }
{
    if are_digits(word, MOST_DIGITS) && has_no_leading_zero(word) {
        let value = value_of(word);
        if value < bound { Some(value) } else { None }
    } else {
        None
    }
}

/// Whether a word is digits, at least one and at most so many.
fn are_digits(word: &[u8], most: usize) -> bool
    ensures { result ≡ spec.are_digits most word.now }
{
    !word.is_empty() && word.len() <= most && all_digits(word)
}

/// Whether all bytes are decimal digits.
pub fn all_digits(word: &[u8]) -> bool
    ensures { result ≡ list_all is_digit word.now }
{
    word.iter().all(|b| *b >= b'0' && *b <= b'9')
}

/// Whether the first digit is not 0, or there is no other.
fn has_no_leading_zero(word: &[u8]) -> bool
    ensures { result ≡ spec.has_no_leading_zero word.now }
{
    match word {
        [b'0', ..] => word.len() == 1,
        _ => true,
    }
}

/// The value of at most ten digits.
fn value_of(digits: &[u8]) -> u64
    requires few { length digits.now ≤ 10 }
    requires digits { list_all is_digit digits.now ≡ true }
    ensures value { result ≡ digits_value 10 digits.now }
    ensures short { length digits.now ≤ 9 → result < 2 ^ 32 }
{
    let mut value = 0;
    for digit in digits {
        value = value * 10 + u64::from(*digit - b'0');
    }
    value
}
