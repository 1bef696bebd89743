// The six counts, and their lines.

ghost use Rattle.std.specs.Prelude.{◌≡◌, ◌^◌, [], ◌++◌, IfOk, OnOk};
ghost use Rattle.rt_count.specs.Summary as spec;
ghost use Rattle.rt_count.specs.Joining.{joined_summary, CountsAtMost, SumsFit};
ghost use Rattle.rt_count.specs.Inside.Adding.{summary_with_item};
ghost use Rattle.rt_count.specs.Text as text;

use itoa::Buffer;
use rt_ids::{NoMemory, push_bytes};
use rt_trace::What;
use std::alloc::Global;

/// What runs show, counted.
#[derive(Clone, Copy, PartialEq, Eq)]
pub struct Summary {
    /// The runs.
    pub runs: u64,
    /// Exception entries.
    pub takes: u64,
    /// Emitted values.
    pub emits: u64,
    /// Refused messages: all places of their task were out.
    pub full: u64,
    /// The sum of the emitted values modulo 2^64.
    pub sum: u64,
    /// The greatest number of stack bytes in use behind an exception entry, and 0 where there was none.
    pub depth: u64,
}

impl Summary {
    /// Of so many runs that show nothing.
    pub fn of_silent_runs(runs: u64) -> Summary
        ensures { result ≡ spec.summary_of runs [] }
    {
        Summary {
            runs,
            takes: 0,
            emits: 0,
            full: 0,
            sum: 0,
            depth: 0,
        }
    }

    /// Counts what one more core step shows.
    #[inline(always)]
    pub(crate) fn count(&mut self, what: &What)
        requires { CountsAtMost (2 ^ 31) self.old }
        ensures { self.new ≡ summary_with_item self.old what.now }
    {
        match what {
            What::Take(_, depth) => {
                self.takes += 1;
                self.depth = self.depth.max(u64::from(*depth));
            }
            What::Emit(value) => {
                self.emits += 1;
                self.sum = self.sum.wrapping_add(u64::from(*value));
            }
            What::Full(_) => self.full += 1,
            _ => {}
        }
    }

    /// Counts other runs behind these.
    pub fn join(&mut self, other: &Summary)
        requires { SumsFit self.old other.now }
        ensures { self.new ≡ joined_summary self.old other.now }
    {
        self.runs += other.runs;
        self.takes += other.takes;
        self.emits += other.emits;
        self.full += other.full;
        self.sum = self.sum.wrapping_add(other.sum);
        self.depth = self.depth.max(other.depth);
    }

    /// Its text, a line for each number: `runs`, `takes`, `emits`, `full`, `sum`, `depth`.
    pub fn text(&self, alloc: Global) -> Result<Vec<u8>, NoMemory>
        ensures { IfOk result (λ made. made.items ≡ text.summary_text self.now) }
    {
        let mut out = Vec::new(alloc);
        push_line(&mut out, b"runs ", self.runs)?;
        push_line(&mut out, b"takes ", self.takes)?;
        push_line(&mut out, b"emits ", self.emits)?;
        push_line(&mut out, b"full ", self.full)?;
        push_line(&mut out, b"sum ", self.sum)?;
        push_line(&mut out, b"depth ", self.depth)?;
        Ok(out)
    }
}

/// Appends the line of a number.
fn push_line(out: &mut Vec<u8>, word: &[u8], number: u64) -> Result<(), NoMemory>
    ensures { OnOk result (out.new.items ≡ out.old.items ++ text.line word.now number) }
{
    let mut buffer = Buffer::new();
    push_bytes(out, word)?;
    push_bytes(out, buffer.format(number).as_bytes())?;
    push_bytes(out, b"\n")
}
