// Reads a source line by line, and keeps one line at a time.

ghost use Rattle.std.specs.Prelude.{◌≡◌, ℕ, suc, ◌+◌, ◌-◌, ◌^◌, ◌<◌, ◌≤◌, List, [], ◌∷◌, ◌++◌, length, IfOk, OnOk};
ghost use Rattle.std.specs.Prelude.{OnErr, IsErrOf, IfSome, MatchOption};
ghost use Rattle.rt_lines.specs.Parts.{lines, parts};
ghost use Rattle.rt_outside.specs.Faults.{Rose};
ghost use Rattle.rt_outside.specs.Bytes.{given_since, HasGiven, IsAtEnd};
ghost use Rattle.rt_outside.specs.Lines.{HasHanded};
ghost use Rattle.rt_outside.specs.Inside.Handed.{HoldsLast, IsUnended};

use crate::source::PIECE;
use crate::{ReadFail, Source};
use rt_ids::NoMemory;
use rt_lines::cut;
use std::alloc::Global;

/// Takes the lines of a text, one after another.
pub trait LineSink {
    /// These lines came, in order.
    ghost came: { Self → List (List ℕ) → Type 0 };

    /// Takes the next line, without a line feed. Its number counts from 1.
    fn take(&mut self, number: u32, line: &[u8]) -> Result<(), NoMemory>
        requires { (ls : List (List ℕ)) × (suc (length ls) ≡ number) × came self.old ls }
        ensures { OnOk result ((ls : List (List ℕ)) → suc (length ls) ≡ number → came self.old ls
            → came self.new (ls ++ line.now ∷ [])) };
}

/// Reads all bytes up to the end of the source, where the first read gives none, and reads no further. Their lines go
/// to the sink as soon as they end, so that no more of the text is kept than a piece of it and a line; says how many
/// lines there are. After an error the source has lost what was taken, and the sink has had the first lines of it; no
/// clause says which where memory is not there.
pub fn read_lines<S: Source, L: LineSink>(
    alloc: Global,
    source: &mut S,
    limit: u32,
    sink: &mut L,
) -> Result<u32, ReadFail>
    requires limit { limit < 2 ^ 32 - 1 }
    requires begun { L.came sink.old [] }
    ensures given { HasGiven S.past S.left source.old source.new }
    ensures handed { let text = given_since (S.past source.old) (S.past source.new) in
        IfOk result (λ n. (n ≡ length (lines text)) × L.came sink.new (lines text)) }
    ensures ended { OnOk result (IsAtEnd S.past S.left source.new) }
    ensures within { OnOk result (length (given_since (S.past source.old) (S.past source.new)) ≤ limit) }

    // It is too long exactly where one byte more than the limit was given.
    ensures too_long { IsErrOf result ReadFail.TooLong →
        length (given_since (S.past source.old) (S.past source.new)) ≡ limit + 1 }
    ensures not_longer { OnErr result (¬ IsErrOf result ReadFail.TooLong →
        length (given_since (S.past source.old) (S.past source.new)) ≤ limit) }

    // Where the text is too long or the source fails, the sink has had the first lines of what was given.
    ensures long_handed { IsErrOf result ReadFail.TooLong →
        HasHanded (L.came sink.new) (given_since (S.past source.old) (S.past source.new)) }
    ensures fault_handed { IsErrOf result ReadFail.Fault →
        HasHanded (L.came sink.new) (given_since (S.past source.old) (S.past source.new)) }

    // A fault is reported, and nothing else is reported as one.
    ensures fault { IsErrOf result ReadFail.Fault → Rose (S.faults source.old) (S.faults source.new) }
    ensures quiet { ¬ IsErrOf result ReadFail.Fault → S.faults source.new ≡ S.faults source.old }
    ensures later { S.faults source.old ≤ S.faults source.new }
{
    let most = limit as usize + 1;
    let mut piece = vec![in alloc; 0u8; PIECE.min(most)]?;
    let mut held = Vec::new(alloc);
    let mut taken = 0;
    let mut count = 0;
    // Each turn takes at least one byte.
    for _turn in 0..most + 1 {
        let room = piece.len().min(most - taken);
        let moved = source.read(piece.slice_mut(..room))?;
        if moved == 0 {
            let all = give_last(&held, count, sink)?;
            return Ok(all);
        }
        taken += moved;
        if taken == most {
            return Err(ReadFail::TooLong);
        }
        count = give_piece(&mut held, count, &piece[..moved], sink)?;
    }
    unreachable!()
}

/// Hands out the lines that end in the next piece, the first of them with its beginning, which is held, and then
/// holds the beginning of the line that goes on; says how many lines are out.
fn give_piece<L: LineSink>(
    held: &mut Vec<u8>,
    count: u32,
    piece: &[u8],
    sink: &mut L,
) -> Result<u32, NoMemory>
    requires holds { (text : List ℕ) × HoldsLast (L.came sink.old) text held.old.items count }
    requires room { count + length held.old.items + length piece.now < 2 ^ 32 }
    ensures holds { IfOk result (λ n. (text : List ℕ) → HoldsLast (L.came sink.old) text held.old.items count
        → HoldsLast (L.came sink.new) (text ++ piece.now) held.new.items n) }
    ensures few { IfOk result (λ n.
        n + length held.new.items ≤ count + length held.old.items + length piece.now) }
{
    let mut out = count;
    let mut rest = piece;
    while let Some((end, behind)) = ended_line(rest) {
        out += 1;
        give(held, out, end, sink)?;
        rest = behind;
    }
    held.extend_from_slice(rest)?;
    Ok(out)
}

/// The bytes before the first line feed, and those after it; None where there is no line feed.
fn ended_line(text: &[u8]) -> Option<(&[u8], &[u8])>
    ensures splits { MatchOption result (IsUnended text.now)
        (λ next. parts 10 text.now ≡ next.0.now ∷ parts 10 next.1.now) }
    ensures shorter { IfSome result (λ next. length next.1.now < length text.now) }
{
    let (line, behind) = cut(text, b'\n');
    match behind {
        Some(behind) => Some((line, behind)),
        None => None,
    }
}

/// Hands out the line of this number, whose beginning is held and whose end this is; nothing is held then.
fn give<L: LineSink>(
    held: &mut Vec<u8>,
    number: u32,
    end: &[u8],
    sink: &mut L,
) -> Result<(), NoMemory>
    requires { (ls : List (List ℕ)) × (suc (length ls) ≡ number) × L.came sink.old ls }
    ensures came { OnOk result ((ls : List (List ℕ)) → suc (length ls) ≡ number → L.came sink.old ls
        → L.came sink.new (ls ++ (held.old.items ++ end.now) ∷ [])) }
    ensures held { OnOk result (held.new.items ≡ []) }
{
    if held.is_empty() {
        return sink.take(number, end);
    }
    held.extend_from_slice(end)?;
    sink.take(number, held.as_slice())?;
    held.clear();
    Ok(())
}

/// Hands out the last line, where it has no line feed at its end; says how many lines are out.
fn give_last<L: LineSink>(held: &[u8], count: u32, sink: &mut L) -> Result<u32, NoMemory>
    requires holds { (text : List ℕ) × HoldsLast (L.came sink.old) text held.now count }
    requires room { count < 2 ^ 32 - 1 }
    ensures { IfOk result (λ n. (text : List ℕ) → HoldsLast (L.came sink.old) text held.now count
        → (n ≡ length (lines text)) × L.came sink.new (lines text)) }
{
    if held.is_empty() {
        return Ok(count);
    }
    sink.take(count + 1, held)?;
    Ok(count + 1)
}
