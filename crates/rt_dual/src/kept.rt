// The text of a core, which is kept until both have ended.

ghost use Rattle.std.specs.Prelude.{IfOk, OnErr, OnOk, length, take, ◌<◌, ◌≡◌, ◌≤◌};
ghost use Rattle.rt_outside.specs.{Bytes.Took, Faults.HasCause, Memory.next_fault};

use rt_outside::{Failed, Sink};

/// The text of a core, which is kept in memory until both cores have ended. As a sink it fails where memory is wanted
/// and not there.
#[derive(Drop)]
pub struct KeptText {
    pub bytes: Vec<u8>,
    /// How often memory was not there; stands still at its type's end.
    pub failed: u64,
}

impl Sink for KeptText {
    ghost taken = { λ kept. kept.bytes.items };

    ghost faults = { λ kept. kept.failed };

    fn write(&mut self, piece: &[u8]) -> Result<usize, Failed>
        ensures within { IfOk result (λ n. n ≤ length piece.now) }
        ensures some { IfOk result (λ n. 0 < length piece.now → 0 < n) }
        ensures took { IfOk result (λ n. Took self.old.bytes.items self.new.bytes.items (take n piece.now)) }
        ensures err { OnErr result (self.new.bytes.items ≡ self.old.bytes.items) }
        ensures cause { HasCause self.old.failed self.new.failed result }
        ensures quiet { OnOk result (self.new.failed ≡ self.old.failed) }
        ensures counted { OnErr result (self.new.failed ≡ next_fault self.old.failed) }
    {
        match self.bytes.extend_from_slice(piece) {
            Ok(()) => Ok(piece.len()),
            Err(_) => {
                self.failed = self.failed.saturating_add(1);
                Err(Failed)
            }
        }
    }
}
