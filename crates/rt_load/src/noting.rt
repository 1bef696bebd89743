// Reads a line of code with its note.

ghost use Rattle.std.specs.Prelude.{◌≡◌};
ghost use Rattle.rt_lines.specs.Parts.{words_of};
ghost use Rattle.rt_lines.specs.Table.{said_at};
ghost use Rattle.rt_listing.specs.Words.{note_rows};
ghost use Rattle.rt_load.specs.Inside.Operand.{behind};
ghost use Rattle.rt_load.specs.Inside.Noting as spec;

use crate::coding::read_instr;
use crate::operand::behind_semicolon;
use rt_code::{Line, Note};
use rt_ids::Names;
use rt_lines::{Wrong, both, next_word, one, read_number, three, two};

/// The note of words.
fn read_note(names: &Names, words: Option<&[u8]>) -> Result<Note, Wrong>
    ensures { result ≡ spec.words_at note_rows names.now (words_of words.entry) }
{
    match next_word(words) {
        Some((first, words)) => read_named_note(names, first, words),
        None => Err(Wrong::Form),
    }
}

/// The note of a first word and the words behind it.
fn read_named_note(names: &Names, first: &[u8], words: Option<&[u8]>) -> Result<Note, Wrong>
    ensures { result ≡ said_at note_rows names.now first.now (words_of words.entry) }
{
    if first == b"enter".as_slice() {
        one(names, words).map(Note::Enter)
    } else if first == b"leave".as_slice() {
        one(names, words).map(Note::Leave)
    } else if first == b"ok".as_slice() {
        one(names, words).map(Note::Placed)
    } else if first == b"full".as_slice() {
        one(names, words).map(Note::Full)
    } else if first == b"ready".as_slice() {
        one(names, words).map(Note::Ready)
    } else if first == b"start".as_slice() {
        two(names, words).map(|(task, slot)| Note::Start(task, slot))
    } else if first == b"free".as_slice() {
        one(names, words).map(Note::Free)
    } else if first == b"arm".as_slice() {
        two(names, words).map(|(task, slot)| Note::Arm(task, slot))
    } else if first == b"fire".as_slice() {
        one(names, words).map(Note::Fire)
    } else if first == b"cancel".as_slice() {
        two(names, words).map(|(task, slot)| Note::Cancel(task, slot))
    } else if first == b"move".as_slice() {
        three(names, words).map(|(task, (slot, from))| Note::Move(task, slot, from))
    } else if first == b"end".as_slice() {
        one(names, words).map(Note::End)
    } else {
        Err(Wrong::Form)
    }
}

/// The note of the words behind a semicolon, where there is one.
fn note_after(names: &Names, words: Option<&[u8]>) -> Result<Option<Note>, Wrong>
    ensures { result ≡ spec.note_after names.now (behind (words_of words.entry)) }
{
    match behind_semicolon(words) {
        Some(words) => {
            let note = read_note(names, words)?;
            Ok(Some(note))
        }
        None => Ok(None),
    }
}

/// The line of code of an address, of the words behind its first.
pub fn read_line(names: &Names, address: usize, words: Option<&[u8]>) -> Result<Line, Wrong>
    ensures { result ≡ spec.line_at names.now address (words_of words.entry) }
{
    let (number, words) = next_word(words).ok_or(Wrong::Form)?;
    if read_number(number)? as usize == address {
        both(read_instr(names, words), note_after(names, words))
    } else {
        Err(Wrong::Form)
    }
}
