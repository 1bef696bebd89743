// Standard output as a sink of bytes.

ghost use Rattle.std.specs.Prelude.{◌≡◌, ◌<◌, ◌≤◌, nat_lt, if◌then◌else◌, Some, None, [], length, take, IfOk, OnOk};
ghost use Rattle.std.specs.Prelude.{OnErr};
ghost use Rattle.rt_outside.specs.Faults.{HasCause};
ghost use Rattle.rt_outside.specs.Bytes.{Took};
ghost use Rattle.rt_outside.specs.Memory.{next_fault};

use crate::passed::Passed;
use crate::{Failed, Sink};
use std::marker::Model;

/// Standard output as a sink. It has no buffer: what a write took is out when the call returns. What no contract says,
/// and what is trusted here: that a write hands its piece to standard output, and that this takes the first bytes, as
/// many as it says.
#[derive(Drop)]
pub struct OutSink<'a, R: Print> {
    rt: &'a R,
    taken: Passed,
    failed: u64,
}

impl<'a, R: Print> Model for OutSink<'a, R> {
    ghost use Rattle.rt_outside.specs.Outside.{StandardOutput};
    ghost use Rattle.rt_outside.specs.Passed.{passed_bytes};

    ghost Value = { StandardOutput };

    ghost view = { λ s. record { taken = passed_bytes s.taken; faults = s.failed } };
}

impl<'a, R: Print> OutSink<'a, R> {
    /// Standard output, which no write has been handed yet.
    pub fn of(rt: &'a R) -> OutSink<'a, R>
        ensures { result ≡ record { taken = []; faults = 0 } }
    {
        OutSink {
            rt,
            taken: Passed::Nothing,
            failed: 0,
        }
    }
}

/// How many bytes a write took, by its answer: none is a failure.
fn taken_count<E: Drop>(answer: Result<usize, E>) -> Option<usize>
    ensures ok { IfOk answer (λ n. result ≡ (if nat_lt 0 n then Some n else None)) }
    ensures err { OnErr answer (result ≡ None) }
{
    match answer {
        Ok(count) if count > 0 => Some(count),
        _ => None,
    }
}

impl<R: Print> Sink for OutSink<'_, R> {
    ghost taken = { λ s. s.taken };

    ghost faults = { λ s. s.faults };

    fn write(&mut self, piece: &[u8]) -> Result<usize, Failed>
        ensures within { IfOk result (λ n. n ≤ length piece.now) }
        ensures some { IfOk result (λ n. 0 < length piece.now → 0 < n) }
        ensures took { IfOk result (λ n. Took self.old.taken self.new.taken (take n piece.now)) }
        ensures err { OnErr result (self.new.taken ≡ self.old.taken) }
        ensures cause { HasCause self.old.faults self.new.faults result }

        ensures quiet { OnOk result (self.new.faults ≡ self.old.faults) }
        ensures counted { OnErr result (self.new.faults ≡ next_fault self.old.faults) }
    {
        if piece.is_empty() {
            return Ok(0);
        }
        match taken_count(self.rt.write_some(piece)) {
            Some(count) => {
                self.taken.add(&piece[..count]);
                Ok(count)
            }
            None => {
                self.failed = self.failed.saturating_add(1);
                Err(Failed)
            }
        }
    }
}
