// What is told of the texts of traces and scripts.

use crate::image::image;
use crate::play::write_item;
use anyhow::{Result, bail};
use rt_ids::Names;
use rt_script::{Line, Script, ScriptRefused, read_script};
use rt_trace::{Item, Trace, TraceRefused, read_trace};
use std::alloc::Global;
use test_tables::Case;

/// Writes the lines of items.
fn write_items(out: &mut Vec<u8>, items: &[Item], names: &Names) -> Result<()> {
    for item in items {
        write_item(out, item, names)?;
    }
    Ok(())
}

/// Writes a text.
fn write_text(out: &mut Vec<u8>, text: &str) -> Result<()> {
    Ok(out.extend_from_slice(text.as_bytes())?)
}

/// Writes a trace.
fn write_trace(alloc: Global, out: &mut Vec<u8>, trace: &Trace, names: &Names) -> Result<()> {
    write_items(out, trace.items(), names)?;
    match trace.total() {
        Some(total) => write_text(out, format!(in alloc; "total {total}\n")?.as_str()),
        None => Ok(()),
    }
}

/// A trace, written again.
fn trace_text(alloc: Global, trace: &Trace, names: &Names) -> Result<Vec<u8>> {
    let mut out = Vec::new(alloc);
    write_trace(alloc, &mut out, trace, names)?;
    Ok(out)
}

/// What is told of a trace text.
fn told_of_trace(alloc: Global, text: &[u8], names: &Names) -> Result<Vec<u8>> {
    match read_trace(alloc, text, names) {
        Ok(trace) => trace_text(alloc, &trace, names),
        Err(TraceRefused::NoMemory) => bail!("out of memory"),
        Err(refused) => Ok(format!(in alloc; "{refused}\n")?.into_bytes()),
    }
}

/// What is told of the trace text of a case, over the names of its image.
pub fn trace_told(alloc: Global, case: &Case) -> Result<Vec<u8>> {
    let image = image(alloc, case)?;
    told_of_trace(alloc, case.bytes("text"), &image.value.names)
}

/// What a line of a script asks for, in words.
fn request_text(alloc: Global, line: &Line) -> Result<String> {
    Ok(match line {
        Line::Steps(count) => format!(in alloc; "steps {count}\n")?,
        Line::Ticks(count) => format!(in alloc; "ticks {count}\n")?,
        Line::Pends(irq, count) => format!(in alloc; "pends {} {count}\n", irq.get())?,
        Line::Device(device, irq, count) => {
            format!(in alloc; "device {device} {} {count}\n", irq.get())?
        }
    })
}

/// Writes what the lines of a script ask for.
fn write_lines(alloc: Global, out: &mut Vec<u8>, lines: &[Line]) -> Result<()> {
    for line in lines {
        write_text(out, request_text(alloc, line)?.as_str())?;
    }
    Ok(())
}

/// What a script asks for, and how many events it is.
fn requests_text(alloc: Global, script: &Script) -> Result<Vec<u8>> {
    let mut out = Vec::new(alloc);
    write_lines(alloc, &mut out, script.lines())?;
    let last = format!(in alloc; "events {}\n", script.events())?;
    write_text(&mut out, last.as_str())?;
    Ok(out)
}

/// What is told of a script text.
fn told_of_script(alloc: Global, text: &[u8], names: &Names) -> Result<Vec<u8>> {
    match read_script(alloc, text, names) {
        Ok(script) => requests_text(alloc, &script),
        Err(ScriptRefused::NoMemory) => bail!("out of memory"),
        Err(refused) => Ok(format!(in alloc; "{refused}\n")?.into_bytes()),
    }
}

/// What is told of the script text of a case, over the names of its image.
pub fn script_told(alloc: Global, case: &Case) -> Result<Vec<u8>> {
    let image = image(alloc, case)?;
    told_of_script(alloc, case.bytes("text"), &image.value.names)
}
