// What a source is: where bytes come from, with a count of its faults; and how a whole text is read.

ghost use Rattle.std.specs.Prelude.{◌≡◌, ℕ, ◌+◌, ◌-◌, ◌^◌, ◌<◌, ◌≤◌, ◌&&◌, nat_lt, List, Option, length, take};
ghost use Rattle.std.specs.Prelude.{IfOk, OnOk, OnErr, IsErrOf, vec_len};
ghost use Rattle.rt_ids.specs.Lists.{is_empty};
ghost use Rattle.rt_outside.specs.Faults.{Rose, HasCause};
ghost use Rattle.rt_outside.specs.Bytes.{Past, after_read, given_since, Moves, HasGiven, IsAtEnd};

use crate::Failed;
use rt_ids::NoMemory;
use std::alloc::{AllocError, Global};
use thiserror::Error;

/// Where bytes come from.
pub trait Source {
    /// What its reads have given so far.
    ghost past: { Self → Past };

    /// What is left to read, where it tells that.
    ghost left: { Self → Option (List ℕ) };

    /// How often it has failed. It never falls.
    ghost faults: { Self → ℕ };

    /// Moves the next bytes into the front of the buffer, and says how many. None in a buffer with room is the end.
    fn read(&mut self, buffer: &mut [u8]) -> Result<usize, Failed>
        ensures within { IfOk result (λ n. n ≤ length buffer.old) }
        ensures given { IfOk result (λ n. past self.new
            ≡ after_read (past self.old) (take n buffer.new) (length buffer.old)) }
        ensures moved { IfOk result (λ n. Moves (left self.old) (left self.new) buffer.new n) }
        ensures none_given { OnErr result (past self.new ≡ past self.old) }
        ensures none_moved { OnErr result (left self.new ≡ left self.old) }
        ensures cause { HasCause (faults self.old) (faults self.new) result }
        ensures quiet { OnOk result (faults self.new ≡ faults self.old) };
}

/// Whether a read that gave this piece to a buffer with so much room told that this is the end.
pub(crate) fn is_end(piece: &[u8], room: usize) -> bool
    ensures { result ≡ (is_empty piece.now && nat_lt 0 room) }
{
    piece.is_empty() && room > 0
}

/// Why a text was not read.
#[derive(Clone, Copy, Debug, PartialEq, Eq, Error)]
pub enum ReadFail {
    /// There are more bytes than the limit.
    #[error("the text is too long")]
    TooLong,
    /// The source failed.
    #[error("the source failed")]
    Fault,
    #[error("out of memory")]
    NoMemory,
}

impl From<Failed> for ReadFail {
    ghost use Rattle.rt_outside.specs.declared.source.ReadFail.TheVariants.{Fault};

    ghost from_gives = { λ _ r. r ≡ Fault };

    fn from(_error: Failed) -> ReadFail {
        ReadFail::Fault
    }
}

impl From<AllocError> for ReadFail {
    ghost use Rattle.rt_outside.specs.declared.source.ReadFail.TheVariants.{NoMemory};

    ghost from_gives = { λ _ r. r ≡ NoMemory };

    fn from(_error: AllocError) -> ReadFail {
        ReadFail::NoMemory
    }
}

impl From<NoMemory> for ReadFail {
    ghost use Rattle.rt_outside.specs.declared.source.ReadFail.TheVariants.{NoMemory};

    ghost from_gives = { λ _ r. r ≡ NoMemory };

    fn from(_error: NoMemory) -> ReadFail {
        ReadFail::NoMemory
    }
}

/// How many bytes a text is read at a time, at most.
pub(crate) const PIECE: usize = 4096;

/// Reads all bytes up to the end of the source, where the first read gives none, and reads no further: the text is what
/// the source has given since. After an error the source has lost what was taken.
pub fn read_text<S: Source>(alloc: Global, source: &mut S, limit: u32) -> Result<Vec<u8>, ReadFail>
    requires { limit < 2 ^ 32 - 1 }
    ensures given { HasGiven S.past S.left source.old source.new }
    ensures whole { IfOk result (λ text. text.items ≡ given_since (S.past source.old) (S.past source.new)) }
    ensures ended { OnOk result (IsAtEnd S.past S.left source.new) }
    ensures within { IfOk result (λ text. vec_len text ≤ limit) }

    // It is too long exactly where one byte more than the limit was given.
    ensures too_long { IsErrOf result ReadFail.TooLong →
        length (given_since (S.past source.old) (S.past source.new)) ≡ limit + 1 }
    ensures not_longer { OnErr result (¬ IsErrOf result ReadFail.TooLong →
        length (given_since (S.past source.old) (S.past source.new)) ≤ limit) }

    // A fault is reported, and nothing else is reported as one.
    ensures fault { IsErrOf result ReadFail.Fault → Rose (S.faults source.old) (S.faults source.new) }
    ensures quiet { ¬ IsErrOf result ReadFail.Fault → S.faults source.new ≡ S.faults source.old }
    ensures later { S.faults source.old ≤ S.faults source.new }
{
    let most = limit as usize + 1;
    let mut piece = vec![in alloc; 0u8; PIECE.min(most)]?;
    let mut text = Vec::new(alloc);
    // Each turn takes at least one byte.
    for _turn in 0..most + 1 {
        let room = piece.len().min(most - text.len());
        let count = source.read(piece.slice_mut(..room))?;
        if count == 0 {
            return Ok(text);
        }
        if text.len() + count == most {
            return Err(ReadFail::TooLong);
        }
        text.extend_from_slice(&piece[..count])?;
    }
    unreachable!()
}
