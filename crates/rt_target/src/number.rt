// The numbers of a line.

ghost use Rattle.std.specs.Prelude.{◌≡◌};
ghost use Rattle.std.specs.List.{list_all};
ghost use Rattle.rt_ids.specs.Byte.{is_digit};
ghost use Rattle.rt_lex.specs.Bytes.{is_hex_digit};
ghost use Rattle.rt_lex.specs.Split as lex;
ghost use Rattle.rt_target.specs.Wording as spec;

use crate::refusal::Cause;
use rt_lex::{Kind, Token};
use rt_lines::all_digits;

/// Whether there are bytes, and all are decimal digits.
fn are_digits(word: &[u8]) -> bool
    ensures { result ≡ lex.is_run is_digit word.now }
{
    match word {
        [first, rest @ ..] => first.is_ascii_digit() && all_digits(rest),
        [] => false,
    }
}

/// Whether all bytes are hexadecimal digits.
fn all_hex_digits(word: &[u8]) -> bool
    ensures { result ≡ list_all is_hex_digit word.now }
{
    word.iter().all(|b| b.is_ascii_hexdigit())
}

/// Whether there are bytes, and all are hexadecimal digits.
fn are_hex_digits(word: &[u8]) -> bool
    ensures { result ≡ lex.is_run is_hex_digit word.now }
{
    match word {
        [first, rest @ ..] => first.is_ascii_hexdigit() && all_hex_digits(rest),
        [] => false,
    }
}

/// Whether a word is a number of an application text.
fn is_number(word: &[u8]) -> bool
    ensures { result ≡ lex.is_number word.now }
{
    are_digits(word) || (word.starts_with(b"0x") && are_hex_digits(&word[2..]))
}

/// The number of 32 bits that a word spells.
pub(crate) fn read_number(word: &[u8]) -> Result<u32, Cause>
    ensures { result ≡ spec.number_told word.now }
{
    if !is_number(word) {
        return Err(Cause::BadLine);
    }
    let (at, kind) = (0, Kind::Num);
    let token = Token {
        text: word,
        at,
        kind,
    };
    token.value().ok_or(Cause::BadLine)
}
