// What a sink is: where bytes go to, with a count of its faults.

ghost use Rattle.std.specs.Prelude.{◌≡◌, ℕ, ◌<◌, ◌≤◌, List, length, take, IfOk, OnOk, OnErr};
ghost use Rattle.rt_outside.specs.Faults.{HasCause};
ghost use Rattle.rt_outside.specs.Bytes.{Took, TookPrefix};

use crate::Failed;

/// Where bytes go to.
pub trait Sink {
    /// What its writes have taken so far.
    ghost taken: { Self → List ℕ };

    /// How often it has failed. It never falls.
    ghost faults: { Self → ℕ };

    /// Takes the first bytes of a piece, at least one where there is one, and says how many. An error takes none.
    fn write(&mut self, piece: &[u8]) -> Result<usize, Failed>
        ensures within { IfOk result (λ n. n ≤ length piece.now) }
        ensures some { IfOk result (λ n. 0 < length piece.now → 0 < n) }
        ensures took { IfOk result (λ n. Took (taken self.old) (taken self.new) (take n piece.now)) }
        ensures err { OnErr result (taken self.new ≡ taken self.old) }
        ensures cause { HasCause (faults self.old) (faults self.new) result }
        ensures quiet { OnOk result (faults self.new ≡ faults self.old) };
}

/// Writes all bytes, in as many pieces as the sink takes them. At a fault it took a beginning of them, not all.
pub fn put_all<K: Sink>(sink: &mut K, bytes: &[u8]) -> Result<(), Failed>
    ensures ok { OnOk result (Took (K.taken sink.old) (K.taken sink.new) bytes.now) }
    ensures err { OnErr result (TookPrefix (K.taken sink.old) (K.taken sink.new) bytes.now) }
    ensures cause { HasCause (K.faults sink.old) (K.faults sink.new) result }
    ensures quiet { OnOk result (K.faults sink.new ≡ K.faults sink.old) }
{
    let mut done = 0;
    // Each turn takes at least one byte.
    for _turn in 0..bytes.len() {
        if done == bytes.len() {
            return Ok(());
        }
        done += sink.write(&bytes[done..])?;
    }
    Ok(())
}
