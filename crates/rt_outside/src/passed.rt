// The bytes that have passed, which clauses alone know.

ghost use Rattle.std.specs.Prelude.{◌≡◌, [], ◌∷◌, ◌++◌};
ghost use Rattle.rt_outside.specs.Passed.{passed_bytes};

use std::snapshot::Snapshot;

/// The bytes that have passed, as clauses see them. It keeps none of them, so it does not grow as they pass.
#[derive(Drop)]
pub(crate) enum Passed {
    Nothing,
    Then(Snapshot<Passed>, Snapshot<u8>),
}

/// One more byte has passed.
fn with_byte(earlier: &Passed, byte: &u8) -> Passed
    ensures { passed_bytes result ≡ passed_bytes earlier.now ++ byte.now ∷ [] }
{
    Passed::Then(Snapshot::of(earlier), Snapshot::of(byte))
}

impl Passed {
    /// These bytes have passed too.
    pub(crate) fn add(&mut self, bytes: &[u8])
        ensures { passed_bytes self.new ≡ passed_bytes self.old ++ bytes.now }
    {
        for byte in bytes {
            *self = with_byte(self, byte);
        }
    }
}
