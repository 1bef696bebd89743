// Names and words of application texts, byte by byte.
ghost use Rattle.std.specs.Prelude.{◌≡◌, bytes_eq, IsTrue, ◌↔◌};
ghost use Rattle.std.specs.List.{list_all};
ghost use Rattle.rt_ids.specs.Byte.{is_letter, is_name_byte};
ghost use Rattle.rt_ids.specs.Word.{is_word, is_identifier, IsName};
ghost use Rattle.rt_ids.specs.Inside.Initial.{is_one_of, words_from};

use crate::limits::NAME_BYTES;

/// Whether a name may begin with this byte: a letter of ASCII, or `_`.
pub fn is_letter(b: u8) -> bool
    ensures { result ≡ is_letter b }
{
    b.is_ascii_lowercase() || b.is_ascii_uppercase() || b == b'_'
}

/// Whether a name may go on with this byte: a letter or a digit of ASCII, or `_`.
pub fn is_name_byte(b: u8) -> bool
    ensures { result ≡ is_name_byte b }
{
    is_letter(b) || b.is_ascii_digit()
}

fn spells(text: &[u8], word: &[u8]) -> bool
    ensures { result ≡ bytes_eq text.now word.now }
{
    text == word
}

/// Whether it is a word of the language.
pub fn is_word(text: &[u8]) -> bool
    ensures { result ≡ is_word text.now }
{
    let Some(first) = text.first() else {
        return false;
    };
    match *first {
        b'a' => spells(text, b"app"),
        b'b' => spells(text, b"bits") || spells(text, b"binds"),
        b'c' => spells(text, b"capacity") || spells(text, b"cancel"),
        b'd' => spells(text, b"dispatchers"),
        b'e' => spells(text, b"else") || spells(text, b"emit"),
        b'f' => spells(text, b"for"),
        b'i' => is_word_from_i(text),
        b'l' => is_word_from_l(text),
        b'm' => spells(text, b"monotonic"),
        b'n' => spells(text, b"now"),
        b'p' => spells(text, b"priority") || spells(text, b"pend"),
        b'r' => spells(text, b"reschedule_after"),
        b's' => spells(text, b"shared") || spells(text, b"spawn") || spells(text, b"spawn_after"),
        b't' => spells(text, b"task"),
        b'w' => spells(text, b"with"),
        _ => false,
    }
}

fn is_word_from_i(text: &[u8]) -> bool
    ensures { result ≡ is_one_of (words_from 105) text.now }
{
    spells(text, b"interrupts")
        || spells(text, b"init")
        || spells(text, b"idle")
        || spells(text, b"if")
        || spells(text, b"in")
}

fn is_word_from_l(text: &[u8]) -> bool
    ensures { result ≡ is_one_of (words_from 108) text.now }
{
    spells(text, b"local")
        || spells(text, b"lock_free")
        || spells(text, b"let")
        || spells(text, b"lock")
}

fn are_name_bytes(text: &[u8]) -> bool
    ensures { result ≡ list_all is_name_byte text.now }
{
    text.iter().all(|b| is_name_byte(*b))
}

/// Whether it begins and goes on as a name does, of whatever length, and whatever it is.
pub fn is_identifier(text: &[u8]) -> bool
    ensures { result ≡ is_identifier text.now }
{
    match text.split_first() {
        Some((first, rest)) => is_letter(*first) && are_name_bytes(rest),
        None => false,
    }
}

/// Whether it can be declared as a name.
pub fn is_name(text: &[u8]) -> bool
    ensures { IsTrue result ↔ IsName text.now }
{
    text.len() <= NAME_BYTES && is_identifier(text) && !is_word(text)
}
