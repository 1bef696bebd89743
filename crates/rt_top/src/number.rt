// Reads the numbers among the words.

ghost use Rattle.std.specs.Prelude.{ℕ, IfSome, IfNone};
ghost use Rattle.rt_top.specs.Words.{IsNumber};

use rt_lines::all_digits;

/// The most digits of a number among the program's words.
const MOST_DIGITS: usize = 20;

/// The number that a word of one to twenty decimal digits spells, where it is one of these.
pub(crate) fn number_in(word: &str, least: u64, most: u64) -> Option<u64>
    ensures some { IfSome result (λ n. IsNumber least most word.now n) }
    ensures none { IfNone result ((n : ℕ) → ¬ IsNumber least most word.now n) }
{
    if word.is_empty() || word.len() > MOST_DIGITS || !all_digits(word.as_bytes()) {
        return None;
    }
    match word.parse::<u64>() {
        Ok(number) if least <= number && number <= most => Some(number),
        _ => None,
    }
}
