// Cuts a text into lines and a line into words.

ghost use Rattle.std.specs.Prelude.{◌≡◌, ◌<◌, ◌==◌, ◌∷◌, [], length, position, MatchOption, IfNone, IfSome};
ghost use Rattle.rt_lines.specs.Parts.{parts, lines, words_of};

/// The index of the first byte of this value in a text.
fn place_of(text: &[u8], byte: u8) -> Option<usize>
    ensures { result ≡ position (λ b. b == byte) text.now }
{
    text.iter().position(|b| *b == byte)
}

/// The part of a text in front of the first byte of a value, and the part after that byte; None where there is no such
/// byte.
pub fn cut(text: &[u8], byte: u8) -> (&[u8], Option<&[u8]>)
    ensures parts { MatchOption result.1 (parts byte text.now ≡ result.0.now ∷ [])
        (λ rest. parts byte text.now ≡ result.0.now ∷ parts byte rest.now) }
    ensures whole { IfNone result.1 (result.0.now ≡ text.now) }
    ensures shorter { IfSome result.1 (λ rest. length rest.now < length text.now) }
{
    match place_of(text, byte) {
        Some(at) => (&text[..at], Some(&text[at + 1..])),
        None => (text, None),
    }
}

/// The first line of a text that is not empty, without its line feed, and the text after it.
pub fn first_line(text: &[u8]) -> (&[u8], &[u8])
    requires { 0 < length text.now }
    ensures lines { lines text.now ≡ result.0.now ∷ lines result.1.now }
    ensures shorter { length result.1.now < length text.now }
{
    let (line, behind) = cut(text, b'\n');
    match behind {
        Some(rest) => (line, rest),
        None => (line, &[]),
    }
}

/// The first of the words that are left, and the words after it; None where no word is left. Single spaces separate
/// words.
pub fn next_word(words: Option<&[u8]>) -> Option<(&[u8], Option<&[u8]>)>
    ensures { MatchOption result (words_of words.entry ≡ [])
        (λ next. words_of words.entry ≡ next.0.now ∷ words_of next.1) }
{
    Some(cut(words?, b' '))
}
