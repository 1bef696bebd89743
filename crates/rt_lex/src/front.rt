// What a text begins with: a blank, a comment, or the longest token that fits.

ghost use Rattle.std.specs.Prelude.{◌≡◌, ◌∷◌, List, ℕ, take, take_while};
ghost use Rattle.rt_lex.specs.Bytes.{is_blank, is_hex_digit};
ghost use Rattle.rt_ids.specs.Byte.{is_digit, is_name_byte};
ghost use Rattle.rt_lex.specs.Spelling.{is_long_sign, is_short_sign};
ghost use Rattle.rt_lex.specs.Front.{comment, hex_digits, front_of, name_front, number_front, sign_front};
ghost use Rattle.rt_lex.specs.FrontView.{front_view};

use crate::token::Kind;
use rt_ids::{is_letter, is_name_byte, is_word};

/// So many bytes, which are a token of this kind; of no kind where they are a blank or a comment.
#[derive(Clone, Copy)]
pub(crate) struct Front {
    pub(crate) len: usize,
    pub(crate) kind: Option<Kind>,
}

/// Whether a byte is a space, a tab, a line feed or a carriage return.
fn is_blank(b: u8) -> bool
    ensures { result ≡ is_blank b }
{
    b == b' ' || b == b'\t' || b == b'\n' || b == b'\r'
}

/// Whether a text is a sign of two bytes.
fn is_long_sign(text: &[u8]) -> bool
    ensures { result ≡ is_long_sign text.now }
{
    matches!(text, b"<<" | b">>" | b"==" | b"!=" | b"<=" | b">=" | b"..")
}

/// Whether a byte is a sign of one byte.
fn is_short_sign(b: u8) -> bool
    ensures { result ≡ is_short_sign b }
{
    matches!(
        b,
        b'(' | b')'
            | b'{'
            | b'}'
            | b'['
            | b']'
            | b'='
            | b','
            | b';'
            | b'&'
            | b'|'
            | b'^'
            | b'+'
            | b'-'
            | b'*'
            | b'/'
            | b'%'
            | b'<'
            | b'>'
    )
}

/// The rest of a line, without its end.
fn comment(text: &[u8]) -> &[u8]
    ensures { result.now ≡ comment text.now }
{
    let len = text.iter().take_while(|b| **b != b'\n').count();
    &text[..len]
}

/// The bytes of names that a text begins with.
fn name(text: &[u8]) -> &[u8]
    ensures { result.now ≡ take_while is_name_byte text.now }
{
    let len = text.iter().take_while(|b| is_name_byte(**b)).count();
    &text[..len]
}

/// The decimal digits that a text begins with.
fn digits(text: &[u8]) -> &[u8]
    ensures { result.now ≡ take_while is_digit text.now }
{
    let len = text.iter().take_while(|b| b.is_ascii_digit()).count();
    &text[..len]
}

/// The hexadecimal digits that a text begins with.
fn hex_run(text: &[u8]) -> &[u8]
    ensures { result.now ≡ take_while is_hex_digit text.now }
{
    let len = text.iter().take_while(|b| b.is_ascii_hexdigit()).count();
    &text[..len]
}

/// The hexadecimal digits after a leading `0x`.
fn hex_digits(text: &[u8]) -> &[u8]
    ensures { result.now ≡ hex_digits text.now }
{
    if text.starts_with(b"0x") {
        hex_run(&text[2..])
    } else {
        &[]
    }
}

/// The name that a text begins with.
fn name_front(text: &[u8]) -> Front
    ensures { front_view result ≡ name_front (take_while is_name_byte text.now) }
{
    let name = name(text);
    let kind = if is_word(name) {
        Kind::Word
    } else {
        Kind::Name
    };
    Front {
        len: name.len(),
        kind: Some(kind),
    }
}

/// The number that a text begins with.
fn number_front(text: &[u8]) -> Front
    ensures { front_view result ≡ number_front (take_while is_digit text.now) (hex_digits text.now) }
{
    let hex = hex_digits(text);
    let len = if hex.is_empty() {
        digits(text).len()
    } else {
        2 + hex.len()
    };
    Front {
        len,
        kind: Some(Kind::Num),
    }
}

/// The sign that a text begins with, or its first byte.
fn sign_front(first: u8, text: &[u8]) -> Front
    ensures { front_view result ≡ sign_front first (take 2 text.now) }
{
    let (len, kind) = if is_long_sign(&text[..text.len().min(2)]) {
        (2, Kind::Sign)
    } else if is_short_sign(first) {
        (1, Kind::Sign)
    } else {
        (1, Kind::Foreign)
    };
    Front {
        len,
        kind: Some(kind),
    }
}

/// What a text with this first byte begins with.
pub(crate) fn front_of(first: u8, text: &[u8]) -> Front
    requires { (rest : List ℕ) × (text.now ≡ first ∷ rest) }
    ensures { front_view result ≡ front_of first text.now }
{
    if is_blank(first) {
        Front { len: 1, kind: None }
    } else if text.starts_with(b"//") {
        Front {
            len: comment(text).len(),
            kind: None,
        }
    } else if is_letter(first) {
        name_front(text)
    } else if first.is_ascii_digit() {
        number_front(text)
    } else {
        sign_front(first, text)
    }
}
