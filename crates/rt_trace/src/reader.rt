// Reads a trace line by line.

ghost use Rattle.std.specs.Prelude.{◌≡◌, ◌+◌, ◌-◌, ◌^◌, ◌<◌, Some, None, Ok, Err, IfOk, IfErr, OnErr};
ghost use Rattle.rt_trace.specs.Reader.{refusal_of};
ghost use Rattle.rt_trace.specs.Reading.{line_told, missing, row_told, total_of};
ghost use Rattle.rt_lines.specs.declared.operand.Wrong.{Wrong};

use crate::item::Item;
use crate::refusal::TraceRefused;
use crate::row::{TraceRow, read_row};
use rt_ids::Names;
use rt_lines::Wrong;

/// A trace text that is read line by line.
#[derive(Clone, Copy)]
pub struct TraceReader {
    phase: Phase,
}

/// Where a reader stands.
#[derive(Clone, Copy)]
enum Phase {
    /// In front of the first line.
    Start,
    /// In a listing that stands in front.
    Listing,
    /// Among the items.
    Items,
    /// Behind this total.
    Closed(u64),
}

impl TraceReader {
    /// A reader of no line yet.
    pub fn new() -> TraceReader
        ensures { result.phase ≡ Phase.Start }
    {
        TraceReader {
            phase: Phase::Start,
        }
    }

    /// Takes the next line, of this number from 1, and tells the item that it says, where it says one. A wrong line is
    /// refused, and leaves the reader as it was: as of no form where it is, and else for a name in it that is in no
    /// table.
    pub fn take(
        &mut self,
        names: &Names,
        number: u32,
        line: &[u8],
    ) -> Result<Option<Item>, TraceRefused>
        ensures read { IfOk result (λ item. line_told names.now self.old.phase line.now ≡ Ok (self.new.phase, item)) }
        ensures refused { IfErr result (λ refusal. (wrong : Wrong)
            × (line_told names.now self.old.phase line.now ≡ Err wrong) × (refusal ≡ refusal_of wrong number)) }
        ensures unchanged { OnErr result (self.new ≡ self.old) }
    {
        let told = self.phase.behind(names, line);
        let (phase, item) = told.map_err(|wrong| refusal(wrong, number))?;
        self.phase = phase;
        Ok(item)
    }

    /// Ends the text behind so many lines, and tells the total of core steps, where a line told it. In a listing that
    /// does not end, the line behind the last is refused.
    pub fn end(&self, count: u32) -> Result<Option<u64>, TraceRefused>
        requires { count < 2 ^ 32 - 1 }
        ensures whole { IfOk result (λ total. (missing self.now.phase ≡ None) × (total ≡ total_of self.now.phase)) }
        ensures unended { IfErr result (λ refusal. (wrong : Wrong) × (missing self.now.phase ≡ Some wrong)
            × (refusal ≡ refusal_of wrong (count + 1))) }
    {
        match self.phase {
            Phase::Start | Phase::Items => Ok(None),
            Phase::Listing => Err(refusal(Wrong::Form, count + 1)),
            Phase::Closed(total) => Ok(Some(total)),
        }
    }
}

impl Phase {
    /// The phase behind the next line, and the item that the line tells, where it tells one.
    fn behind(self, names: &Names, line: &[u8]) -> Result<(Phase, Option<Item>), Wrong>
        ensures { result ≡ line_told names.now self line.now }
    {
        match self {
            Phase::Start if line.starts_with(b"image ") => Ok((Phase::Listing, None)),
            Phase::Start | Phase::Items => behind_row(names, line),
            Phase::Listing if line == b"trace".as_slice() => Ok((Phase::Items, None)),
            Phase::Listing => Ok((self, None)),
            Phase::Closed(_) if line.starts_with(b"account ") => Ok((self, None)),
            Phase::Closed(_) => Err(Wrong::Form),
        }
    }
}

/// The phase behind a line that is to be a row, and the item of the row.
fn behind_row(names: &Names, line: &[u8]) -> Result<(Phase, Option<Item>), Wrong>
    ensures { result ≡ row_told names.now line.now }
{
    match read_row(names, line)? {
        TraceRow::Shown(item) => Ok((Phase::Items, Some(item))),
        TraceRow::Total(total) => Ok((Phase::Closed(total), None)),
    }
}

/// The refusal of the line of a number, with which this is wrong.
fn refusal(wrong: Wrong, number: u32) -> TraceRefused
    ensures { result ≡ refusal_of wrong number }
{
    match wrong {
        Wrong::Form => TraceRefused::BadLine(number),
        Wrong::Name => TraceRefused::UnknownName(number),
    }
}
