// Cuts a line whose words one or more spaces separate.

ghost use Rattle.std.specs.Prelude.{◌≡◌, ◌<◌, ◌≢◌, ◌∷◌, [], length, slice_index, MatchOption};
ghost use Rattle.rt_ids.specs.Word as words;
ghost use Rattle.rt_lines.specs.Parts.{spaced_words};

use crate::part::cut;

/// A text without the spaces that it begins with.
fn without_spaces(text: &[u8]) -> &[u8]
    ensures words { spaced_words result.now ≡ spaced_words text.now }
    ensures begins { 0 < length result.now → slice_index result.now 0 ≢ 32 }
{
    let mut rest = text;
    while let [b' ', behind @ ..] = rest {
        rest = behind;
    }
    rest
}

/// The first word of a text whose words one or more spaces separate, and the text after it; None where there is no
/// word.
pub fn next_spaced_word(text: &[u8]) -> Option<(&[u8], &[u8])>
    ensures { MatchOption result (spaced_words text.now ≡ [])
        (λ next. spaced_words text.now ≡ next.0.now ∷ spaced_words next.1.now) }
{
    let text = without_spaces(text);
    if text.is_empty() {
        return None;
    }
    let (word, behind) = cut(text, b' ');
    match behind {
        Some(rest) => Some((word, rest)),
        None => Some((word, &[])),
    }
}
