// Reads one operand of a line.

ghost use Rattle.std.specs.Prelude.{◌≡◌, ◌^◌, ◌∷◌, [], option_map, MatchOption};
ghost use Rattle.rt_lines.specs.Parts.{words_of};
ghost use Rattle.rt_load.specs.Inside.Operand as spec;

use rt_ids::NoMemory;
use rt_lines::{next_word, number_below};

/// Why a line is refused.
#[derive(Clone, Copy, PartialEq, Eq)]
pub enum Wrong {
    /// With it the lines begin no listing.
    Form,
    /// All that is wrong is that a name in it is in no table.
    Name,
    /// Memory was wanted.
    NoMemory,
}

impl From<NoMemory> for Wrong {
    ghost use Rattle.rt_load.specs.declared.operand.Wrong.TheVariants.{NoMemory};

    ghost from_gives = { λ _ r. r ≡ NoMemory };

    fn from(_error: NoMemory) -> Wrong {
        Wrong::NoMemory
    }
}

impl From<rt_lines::Wrong> for Wrong {
    ghost use Rattle.rt_load.specs.Inside.Operand.{wrong_of};

    ghost from_gives = { λ wrong r. r ≡ wrong_of wrong };

    fn from(wrong: rt_lines::Wrong) -> Wrong {
        match wrong {
            rt_lines::Wrong::Form => Wrong::Form,
            rt_lines::Wrong::Name => Wrong::Name,
        }
    }
}

/// A number of 32 bits.
pub fn read_number(word: &[u8]) -> Result<u32, Wrong>
    ensures { result ≡ spec.word_at word.now }
{
    match number_below(word, 1 << 32) {
        Some(number) => Ok(number as u32),
        None => Err(Wrong::Form),
    }
}

/// A number of 8 bits.
pub fn read_byte(word: &[u8]) -> Result<u8, Wrong>
    ensures { result ≡ spec.number_at (2 ^ 8) word.now }
{
    match number_below(word, 1 << 8) {
        Some(number) => Ok(number as u8),
        None => Err(Wrong::Form),
    }
}

/// The next word in front of a semicolon, and the words behind it; None where there is none.
pub fn next_operand(words: Option<&[u8]>) -> Option<(&[u8], Option<&[u8]>)>
    ensures { MatchOption result (spec.in_front (words_of words.entry) ≡ [])
        (λ next. spec.in_front (words_of words.entry) ≡ next.0.now ∷ spec.in_front (words_of next.1)) }
{
    match next_word(words) {
        Some((word, rest)) if word != b";".as_slice() => Some((word, rest)),
        _ => None,
    }
}

/// The words behind the first semicolon, where there is one.
pub fn behind_semicolon(words: Option<&[u8]>) -> Option<Option<&[u8]>>
    ensures { option_map words_of result ≡ spec.behind (words_of words.entry) }
{
    let mut rest = words;
    while let Some((word, behind)) = next_word(rest) {
        if word == b";".as_slice() {
            return Some(behind);
        }
        rest = behind;
    }
    None
}
