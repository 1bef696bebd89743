// Which line of a text begins with a word.

ghost use Rattle.std.specs.Prelude.{◌≡◌, ◌≤◌, length};
ghost use Rattle.std.specs.Str.Lines.{lines};
ghost use Rattle.rt_ids.specs.declared.limits.TheConstants.{SCRIPT_BYTES};
ghost use Rattle.rt_target.specs.Text as spec;

use rt_lines::next_spaced_word;
use rt_script::first_line;

/// Whether the first word of a line is this.
fn begins_with(line: &[u8], word: &[u8]) -> bool
    ensures { result ≡ spec.begins_with word.now line.now }
{
    match next_spaced_word(line) {
        Some((first, _)) => first == word,
        None => false,
    }
}

/// The number of the first line of a text that begins with a word; where there is none, of the line behind the last.
pub fn line_number(text: &[u8], word: &[u8]) -> u32
    requires { length text.now ≤ SCRIPT_BYTES }
    ensures { result ≡ spec.line_number word.now (lines text.now) }
{
    let mut rest = text;
    let mut number = 1;
    while !rest.is_empty() {
        let (line, behind) = first_line(rest);
        if begins_with(line, word) {
            return number;
        }
        number += 1;
        rest = behind;
    }
    number
}
