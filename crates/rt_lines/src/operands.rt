// Reads several words behind the first of a line, in order.

ghost use Rattle.std.specs.Prelude.{◌≡◌};
ghost use Rattle.rt_lines.specs.Parts.{words_of};
ghost use Rattle.rt_lines.specs.Table as spec;

use crate::operand::{Operand, Wrong};
use crate::part::next_word;
use rt_ids::Names;

/// What two words say. Where one of them is of no form, both are; only where neither is, a name is unknown.
pub fn both<A: Copy, B: Copy>(
    first: Result<A, Wrong>,
    second: Result<B, Wrong>,
) -> Result<(A, B), Wrong>
    ensures { result ≡ spec.both first second }
{
    match (first, second) {
        (Ok(first), Ok(second)) => Ok((first, second)),
        (Err(Wrong::Name), Err(wrong)) => Err(wrong),
        (Err(wrong), _) => Err(wrong),
        (Ok(_), Err(wrong)) => Err(wrong),
    }
}

/// What is said where no word is left.
pub fn none<T: Copy>(said: T, words: Option<&[u8]>) -> Result<T, Wrong>
    ensures { result ≡ spec.none_at said (words_of words.entry) }
{
    if next_word(words).is_none() {
        Ok(said)
    } else {
        Err(Wrong::Form)
    }
}

/// What the only word that is left says.
pub fn one<A: Operand>(names: &Names, words: Option<&[u8]>) -> Result<A, Wrong>
    ensures { result ≡ spec.one_at A.at names.now (words_of words.entry) }
{
    match next_word(words) {
        Some((word, rest)) if next_word(rest).is_none() => A::read(names, word),
        _ => Err(Wrong::Form),
    }
}

/// What the only two words that are left say.
pub fn two<A: Operand + Copy, B: Operand + Copy>(
    names: &Names,
    words: Option<&[u8]>,
) -> Result<(A, B), Wrong>
    ensures { result ≡ spec.two_at A.at B.at names.now (words_of words.entry) }
{
    match next_word(words) {
        Some((first, rest)) => both(A::read(names, first), one(names, rest)),
        None => Err(Wrong::Form),
    }
}

/// What the only three words that are left say.
pub fn three<A: Operand + Copy, B: Operand + Copy, C: Operand + Copy>(
    names: &Names,
    words: Option<&[u8]>,
) -> Result<(A, (B, C)), Wrong>
    ensures { result ≡ spec.three_at A.at B.at C.at names.now (words_of words.entry) }
{
    match next_word(words) {
        Some((first, rest)) => both(A::read(names, first), two(names, rest)),
        None => Err(Wrong::Form),
    }
}
