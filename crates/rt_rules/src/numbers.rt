// A set of small numbers.

ghost use Rattle.std.specs.Prelude.{◌≡◌, ℕ, ◌==◌, ◌||◌, false, OnOk};
ghost use Rattle.rt_rules.specs.Inside.Tables.{has};

use rt_ids::NoMemory;
use std::alloc::Global;

/// A set of numbers.
#[derive(Drop)]
pub(crate) struct Numbers {
    /// Whether each number is in; those behind the end are not.
    marks: Vec<bool>,
}

impl Numbers {
    /// No numbers.
    pub(crate) fn new(alloc: Global) -> Numbers
        ensures { (k : ℕ) → has result k ≡ false }
    {
        Numbers {
            marks: Vec::new(alloc),
        }
    }

    /// Whether a number is in.
    pub(crate) fn has(&self, number: u16) -> bool
        ensures { result ≡ has self.now number }
    {
        self.marks.get(number as usize).copied().unwrap_or(false)
    }

    /// Puts a number in.
    pub(crate) fn insert(&mut self, number: u16) -> Result<(), NoMemory>
        ensures { OnOk result ((k : ℕ) → has self.new k ≡ (number == k || has self.old k)) }
    {
        let index = number as usize;
        if self.marks.len() <= index {
            self.marks.resize(index + 1, false)?;
        }
        self.marks[index] = true;
        Ok(())
    }
}
