// The one public call for texts: the image of a listing, or its first wrong line.

ghost use Rattle.std.specs.Prelude.{◌≡◌, ◌≢◌, ◌<◌, ◌∷◌, [], length, Ok, Err, IfOk, IfErr, OnOk, IfSome, MatchOption};
ghost use Rattle.rt_lines.specs.Parts.{parts};
ghost use Rattle.rt_load.specs.Reading.{IsListingText, IsListingRefused};
ghost use Rattle.rt_load.specs.Inside.Reader as spec;
ghost use Rattle.rt_load.specs.declared.refusal.TheConstants.{IMAGE_BYTES};

use crate::front::Front;
use crate::operand::Wrong;
use crate::refusal::{IMAGE_BYTES, LoadRefused};
use rt_code::Image;
use rt_lines::cut;
use std::alloc::Global;

/// The image whose listing the bytes are. More than `IMAGE_BYTES` bytes are too long. Other bytes that are the listing
/// of no loadable image are refused at the first line with which the lines begin no such listing.
pub fn load(alloc: Global, bytes: &[u8]) -> Result<Image, LoadRefused>
    ensures read { IfOk result (λ img. IsListingText bytes.now img) }
    ensures refused { IfErr result (λ refusal. IsListingRefused bytes.now refusal) }
    ensures long { IMAGE_BYTES < length bytes.now → result ≡ Err LoadRefused.TooLong }
{
    if bytes.len() > IMAGE_BYTES as usize {
        return Err(LoadRefused::TooLong);
    }
    let mut front = None;
    let mut rest = bytes;
    let mut number = 0;
    while let Some((line, behind)) = next_line(rest) {
        number += 1;
        match take(alloc, &mut front, line) {
            Ok(()) => rest = behind,
            Err(wrong) => return Err(refusal(number, wrong)),
        }
    }
    match front {
        Some(front) if rest.is_empty() && front.is_complete() => Ok(image_of(front)),
        _ => Err(LoadRefused::BadLine(number + 1)),
    }
}

/// The first line of a text, and what stands behind its line feed; None where there is no line feed.
fn next_line(text: &[u8]) -> Option<(&[u8], &[u8])>
    ensures parts { MatchOption result (parts 10 text.now ≡ text.now ∷ [])
        (λ next. parts 10 text.now ≡ next.0.now ∷ parts 10 next.1.now) }
    ensures shorter { IfSome result (λ next. length next.1.now < length text.now) }
{
    let (line, behind) = cut(text, b'\n');
    Some((line, behind?))
}

/// Takes a line: the first makes a front, and each line behind it leads it on. After an error the front is of no use.
fn take(alloc: Global, front: &mut Option<Front>, line: &[u8]) -> Result<(), Wrong>
    ensures taken { OnOk result (spec.told (spec.take front.old line.now) ≡ Ok front.new) }
    ensures refused { IfErr result (λ w. w ≢ Wrong.NoMemory → spec.take front.old line.now ≡ Err w) }
{
    match front {
        Some(front) => front.take(alloc, line),
        None => {
            *front = Some(Front::begin(alloc, line)?);
            Ok(())
        }
    }
}

/// The refusal of the line of a number.
fn refusal(number: u64, wrong: Wrong) -> LoadRefused
    ensures { result ≡ spec.refusal_of number wrong }
{
    match wrong {
        Wrong::Form => LoadRefused::BadLine(number),
        Wrong::Name => LoadRefused::UnknownName(number),
        Wrong::NoMemory => LoadRefused::NoMemory,
    }
}

/// The image that a front tells.
fn image_of(front: Front) -> Image
    ensures { result ≡ front.image }
{
    let Front {
        image,
        code: _,
        cells: _,
    } = front;
    image
}
