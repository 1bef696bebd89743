// The line and the column of an offset.

ghost use Rattle.std.specs.Prelude.{◌≡◌, ◌≤◌, ◌==◌, not, length, count_by, take_while, reverse};
ghost use Rattle.rt_ids.specs.declared.limits.TheConstants.{TEXT_BYTES};
ghost use Rattle.rt_lex.specs.Place.{place_of};

use rt_ids::Place;

/// The line and the column of an offset in a text. A carriage return counts as a column.
pub fn place(src: &[u8], at: u32) -> Place
    requires in_limit { length src.now ≤ TEXT_BYTES }
    requires within { at ≤ length src.now }
    ensures { result ≡ place_of src.now at }
{
    let before = &src[..at as usize];
    Place {
        line: 1 + line_feeds(before) as u32,
        col: 1 + last_line_len(before) as u32,
    }
}

/// How many line feeds a text has.
fn line_feeds(text: &[u8]) -> usize
    ensures { result ≡ count_by (λ b. b == 10) text.now }
{
    text.iter().filter(|b| **b == b'\n').count()
}

/// How many bytes are after the last line feed.
fn last_line_len(text: &[u8]) -> usize
    ensures { result ≡ length (take_while (λ b. not (b == 10)) (reverse text.now)) }
{
    text.iter().rev().take_while(|b| **b != b'\n').count()
}
