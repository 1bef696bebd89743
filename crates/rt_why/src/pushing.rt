// Appends the lines of a point.

ghost use Rattle.std.specs.Prelude.{◌≡◌, ◌++◌, flat_map, OnOk};
ghost use Rattle.rt_lines.specs.Table.{spaced_text};
ghost use Rattle.rt_listing.specs.Listing.{line};
ghost use Rattle.rt_why.specs.Inside.Places.{place_text};
ghost use Rattle.rt_why.specs.Text as spec;

use crate::point::Point;
use crate::witness::Uncovered;
use rt_code::Image;
use rt_ids::{NoMemory, push_bytes};
use rt_judge::exits::line_at;
use rt_listing::{push_instr, push_note, push_section, push_spaced};
use rt_points::{Opened, Owner, SectionKind};

/// Appends the name of the row at an index.
pub fn push_row_name(out: &mut Vec<u8>, image: &Image, index: usize) -> Result<(), NoMemory>
    ensures { OnOk result (out.new.items ≡ out.old.items ++ spec.row_name image.now index) }
{
    match image.irqs.get(index) {
        Some(row) => push_bytes(out, row.name.bytes()),
        None => Ok(()),
    }
}

/// Appends whose code runs.
fn push_owner(out: &mut Vec<u8>, image: &Image, owner: Owner) -> Result<(), NoMemory>
    ensures { OnOk result (out.new.items ≡ out.old.items ++ spaced_text (spec.owner_words image.now owner)) }
{
    match owner {
        Owner::Starting => push_bytes(out, b" init"),
        Owner::Thread => push_bytes(out, b" thread"),
        Owner::Handling(index) => {
            push_bytes(out, b" handler ")?;
            push_row_name(out, image, index)
        }
    }
}

/// Appends how a section holds others off.
fn push_kind(out: &mut Vec<u8>, kind: SectionKind) -> Result<(), NoMemory>
    ensures { OnOk result (out.new.items ≡ out.old.items ++ spaced_text (spec.kind_words kind)) }
{
    match kind {
        SectionKind::Mark => push_bytes(out, b" mark"),
        SectionKind::Raise(slot, value) => {
            push_bytes(out, b" raise")?;
            push_spaced(out, slot)?;
            push_spaced(out, value)
        }
        SectionKind::Mask(slot) => {
            push_bytes(out, b" mask")?;
            push_spaced(out, slot)
        }
    }
}

/// Appends the line of an open section.
fn push_opened(out: &mut Vec<u8>, image: &Image, opened: Opened) -> Result<(), NoMemory>
    ensures { OnOk result (out.new.items ≡ out.old.items ++ spec.open_line image.now opened) }
{
    push_bytes(out, b"open ")?;
    push_section(out, opened.section, &image.names)?;
    push_kind(out, opened.kind)?;
    push_bytes(out, b"\n")
}

/// Appends the lines of open sections.
fn push_all_opened(out: &mut Vec<u8>, image: &Image, opened: &[Opened]) -> Result<(), NoMemory>
    ensures { OnOk result (out.new.items ≡ out.old.items ++ flat_map (spec.open_line image.now) opened.now) }
{
    for o in opened {
        push_opened(out, image, *o)?;
    }
    Ok(())
}

/// Appends the instruction at an address with its note, where one is there.
fn push_line_at(out: &mut Vec<u8>, image: &Image, address: u32) -> Result<(), NoMemory>
    ensures { OnOk result (out.new.items ≡ out.old.items ++ spaced_text (spec.words_at image.now address)) }
{
    match line_at(image, address) {
        Some(line) => {
            push_instr(out, line.0, &image.names)?;
            push_note(out, line.1, &image.names)
        }
        None => Ok(()),
    }
}

/// Appends what there is at a point: who runs there, the address, the instruction, and a line for each open section.
fn push_place(out: &mut Vec<u8>, image: &Image, point: &Point) -> Result<(), NoMemory>
    ensures { OnOk result (out.new.items ≡ out.old.items ++ place_text image.now point.now) }
{
    push_owner(out, image, point.owner)?;
    push_spaced(out, point.address)?;
    push_line_at(out, image, point.address)?;
    push_bytes(out, b"\n")?;
    push_all_opened(out, image, &point.inside)
}

/// Appends a word, and what there is at a point.
pub fn push_point(
    out: &mut Vec<u8>,
    image: &Image,
    word: &[u8],
    point: &Point,
) -> Result<(), NoMemory>
    ensures { OnOk result (out.new.items ≡ out.old.items ++ spec.point_text image.now word.now point.now) }
{
    push_bytes(out, word)?;
    push_place(out, image, point)
}

/// Appends a section and a point outside it.
pub fn push_outside(out: &mut Vec<u8>, image: &Image, outside: &Uncovered) -> Result<(), NoMemory>
    ensures { OnOk result (out.new.items ≡ out.old.items ++ spec.outside_text image.now outside.now) }
{
    push_bytes(out, b"without ")?;
    push_section(out, outside.section, &image.names)?;
    push_place(out, image, &outside.point)
}
