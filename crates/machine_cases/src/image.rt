// The image of a case.

use crate::code::take_code;
use crate::held::Held;
use crate::instr::number;
use crate::names::{add_irq, add_resources, add_tasks, irq_of, task};
use crate::part::{push, text, words_of};
use anyhow::{Context, Result, bail};
use rt_code::{BodyRow, Handler, Image, IrqRow};
use rt_ids::{CellRow, Irq, Name, Names};
use std::alloc::Global;
use test_tables::Case;

/// Takes the sizes that the first line says, whose form 2 is that of the floating-point extension.
fn take_sizes(image: &mut Image, words: &[&str]) -> Option<()> {
    let [form, bits, stack, thread, _code, _cells] = words else {
        return None;
    };
    image.fpu = *form == "2";
    image.bits = bits.parse::<u8>().ok()?;
    image.stack_bytes = number(stack)?;
    image.thread_words = number(thread)?;
    Some(())
}

/// The first value and the name of a cell.
fn cell<'a>(words: &[&'a str]) -> Option<(u32, &'a str)> {
    match words {
        [_number, first, name] => Some((number(first)?, *name)),
        _ => None,
    }
}

/// Appends a cell.
fn take_cell(alloc: Global, cells: &mut Vec<CellRow>, words: &[&str]) -> Result<()> {
    let Some((first, name)) = cell(words) else {
        bail!("no cell");
    };
    let name = Name::of(alloc, name.as_bytes())?;
    Ok(push(cells, CellRow { name, first })?)
}

/// How an interrupt is served, where a dash stands in place of one that is not enabled.
fn handler(words: &[&str]) -> Option<Option<Handler>> {
    match words {
        [_dash] => Some(None),
        [value, entry, frame] => Some(Some(Handler {
            value: value.parse::<u8>().ok()?,
            entry: number(entry)?,
            frame: number(frame)?,
        })),
        _ => None,
    }
}

/// The name and the number of an interrupt, and how it is served.
fn irq<'a>(words: &[&'a str]) -> Option<(&'a str, Irq, Option<Handler>)> {
    match words {
        [name, number, service @ ..] => Some((*name, irq_of(number)?, handler(service)?)),
        _ => None,
    }
}

/// Takes an interrupt: its name, and its row.
fn take_irq(alloc: Global, image: &mut Image, words: &[&str]) -> Result<()> {
    let Some((name, number, handler)) = irq(words) else {
        bail!("no interrupt");
    };
    add_irq(alloc, &mut image.names, name.as_bytes(), number)?;
    let name = Name::of(alloc, name.as_bytes())?;
    let row = IrqRow {
        name,
        number,
        handler,
    };
    Ok(push(&mut image.irqs, row)?)
}

/// The row of a body.
fn body(names: &Names, words: &[&str]) -> Option<BodyRow> {
    match words {
        [name, entry, frame, args] => Some(BodyRow {
            task: task(names, name)?,
            entry: number(entry)?,
            frame: number(frame)?,
            args: args.parse::<u8>().ok()?,
        }),
        _ => None,
    }
}

/// Appends a body.
fn take_body(image: &mut Image, words: &[&str]) -> Result<()> {
    match body(&image.names, words) {
        Some(row) => Ok(push(&mut image.bodies, row)?),
        None => bail!("no body"),
    }
}

/// Takes a row of a kind, of the words behind that.
fn take_kind(alloc: Global, image: &mut Image, kind: &str, words: &[&str]) -> Result<()> {
    match kind {
        "image" => take_sizes(image, words).context("no sizes"),
        "cell" => take_cell(alloc, &mut image.cells, words),
        "irq" => take_irq(alloc, image, words),
        _ => take_body(image, words),
    }
}

/// Takes a line of another kind than code.
fn take_row(alloc: Global, image: &mut Image, line: &str) -> Result<()> {
    let words = words_of(alloc, line)?;
    match words.as_slice() {
        [kind, words @ ..] => take_kind(alloc, image, kind, words),
        [] => bail!("no words"),
    }
}

/// Takes a line of the text of an image.
fn take_line(alloc: Global, image: &mut Image, line: &str) -> Result<()> {
    match line.strip_prefix("code ") {
        Some(rest) => {
            let (_address, code) = rest.split_once(' ').context("no address")?;
            take_code(alloc, &mut image.code, &image.names, code)
        }
        None => take_row(alloc, image, line),
    }
}

/// Takes the lines of the text of an image.
fn take_lines(alloc: Global, image: &mut Image, listing: &str) -> Result<()> {
    for line in listing.lines() {
        take_line(alloc, image, line)?;
    }
    Ok(())
}

/// Takes the names of a case, and the lines of its image.
fn take_case(alloc: Global, image: &mut Image, case: &Case) -> Result<()> {
    add_tasks(alloc, &mut image.names, text(case, "tasks")?)?;
    add_resources(alloc, &mut image.names, text(case, "shared")?)?;
    take_lines(alloc, image, text(case, "image")?)
}

/// An image without rows.
fn empty(alloc: Global) -> Image {
    Image {
        bits: 0,
        fpu: false,
        stack_bytes: 0,
        thread_words: 0,
        cells: Vec::new(alloc),
        irqs: Vec::new(alloc),
        bodies: Vec::new(alloc),
        code: Vec::new(alloc),
        names: Names::new(alloc),
    }
}

/// The image of a case.
pub fn image(alloc: Global, case: &Case) -> Result<Held<Image>> {
    let mut image = Held {
        value: empty(alloc),
    };
    take_case(alloc, &mut image.value, case)?;
    Ok(image)
}
