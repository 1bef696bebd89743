// Reads a whole trace in memory.

ghost use Rattle.std.specs.Prelude.{◌≡◌, ◌<◌, ◌⊎◌, [], ◌∷◌, ◌++◌, length, Ok, Err, IfOk, IfErr, OnOk};
ghost use Rattle.rt_ids.specs.declared.limits.TheConstants.{TRACE_BYTES};
ghost use Rattle.rt_trace.specs.Reader.{refusal_of, standing};
ghost use Rattle.rt_trace.specs.Reading.{reader_step};
ghost use Rattle.rt_trace.specs.Reading as spec;
ghost use Rattle.rt_lines.specs.declared.operand.Wrong.{Wrong};

use crate::item::Item;
use crate::reader::TraceReader;
use crate::refusal::TraceRefused;
use crate::trace::Trace;
use rt_ids::limits::TRACE_BYTES;
use rt_ids::{Names, NoMemory};
use rt_lines::first_line;
use std::alloc::Global;

/// Reads the trace of a text, over the names of an application. It refuses a text of more than 268,435,456 bytes as
/// too long. Else the first wrong line is refused: as of no form where it is, and else for a name in it that is in no
/// table. Lines count from 1, those of a listing in front too.
pub fn read_trace(alloc: Global, bytes: &[u8], names: &Names) -> Result<Trace, TraceRefused>
    ensures read { IfOk result (λ trace. spec.IsTraceText names.now bytes.now trace) }
    ensures refused { IfErr result (λ refusal. spec.IsTraceRefused names.now bytes.now refusal) }
    ensures long { TRACE_BYTES < length bytes.now → result ≡ Err TraceRefused.TooLong }
{
    if bytes.len() > TRACE_BYTES as usize {
        return Err(TraceRefused::TooLong);
    }
    let mut reader = TraceReader::new();
    let mut items = Vec::new(alloc);
    let mut rest = bytes;
    let mut count = 0;
    while !rest.is_empty() {
        let (line, behind) = first_line(rest);
        count += 1;
        take_line(&mut reader, &mut items, names, count, line)?;
        rest = behind;
    }
    let total = reader.end(count)?;
    Ok(Trace::new(items, total))
}

/// Takes the line of a number, and adds the item that it says, where it says one.
fn take_line(
    reader: &mut TraceReader,
    items: &mut Vec<Item>,
    names: &Names,
    number: u32,
    line: &[u8],
) -> Result<(), TraceRefused>
    ensures taken { OnOk result (reader_step names.now (standing reader.old items.old.items) line.now
        ≡ Ok (standing reader.new items.new.items)) }
    ensures refused { IfErr result (λ refusal. (refusal ≡ TraceRefused.NoMemory) ⊎ ((wrong : Wrong)
        × (reader_step names.now (standing reader.old items.old.items) line.now ≡ Err wrong)
        × (refusal ≡ refusal_of wrong number))) }
{
    match reader.take(names, number, line) {
        Ok(Some(item)) => Ok(add(items, item)?),
        Ok(None) => Ok(()),
        Err(refusal) => Err(refusal),
    }
}

/// Adds an item.
fn add(items: &mut Vec<Item>, item: Item) -> Result<(), NoMemory>
    ensures { OnOk result (items.new.items ≡ items.old.items ++ item ∷ []) }
{
    items.extend_from_slice(&[item])?;
    Ok(())
}
