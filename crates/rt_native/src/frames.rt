// Which frame an instruction of an image ends.

ghost use Rattle.std.specs.Prelude.{◌≡◌};
ghost use Rattle.rt_native.specs.Frames as spec;

use rt_code::{BodyRow, Handler, IrqRow};

/// A part of the code that has a frame: the address in the image at which it is entered, and the frame's words.
#[derive(Clone, Copy)]
pub(crate) struct Frame {
    pub entry: u32,
    pub words: u32,
}

/// No frame.
const NO_FRAME: Frame = Frame { entry: 0, words: 0 };

/// Of two parts that begin at or before an address the one that begins later.
fn later(address: usize, found: Frame, frame: Frame) -> Frame
    ensures { result ≡ spec.later address found frame }
{
    if found.entry <= frame.entry && frame.entry as usize <= address {
        frame
    } else {
        found
    }
}

/// The same, of a handler.
fn later_handler(address: usize, found: Frame, handler: Option<Handler>) -> Frame
    ensures { result ≡ spec.later_handler address found handler }
{
    match handler {
        Some(handler) => {
            let (entry, words) = (handler.entry, handler.frame);
            later(address, found, Frame { entry, words })
        }
        None => found,
    }
}

/// The words of the frame of the handler that is entered last at or before an address.
pub(crate) fn handler_words(rows: &[IrqRow], address: usize) -> u32
    ensures { result ≡ spec.handler_words rows.now address }
{
    let mut found = NO_FRAME;
    for row in rows {
        found = later_handler(address, found, row.handler);
    }
    found.words
}

/// The words of the frame of the body that is entered last at or before an address.
pub(crate) fn body_words(rows: &[BodyRow], address: usize) -> u32
    ensures { result ≡ spec.body_words rows.now address }
{
    let mut found = NO_FRAME;
    for row in rows {
        let (entry, words) = (row.entry, row.frame);
        found = later(address, found, Frame { entry, words });
    }
    found.words
}
