// Reads a text of limits for an image.

ghost use Rattle.std.specs.Prelude.{◌≡◌, IfOk, IfErr};
ghost use Rattle.rt_lines.specs.Answers.{and_make};
ghost use Rattle.rt_rta.specs.Text.{refusal_of};
ghost use Rattle.rt_image_times.specs.Limits.{AreImageLimits};
ghost use Rattle.rt_image_times.specs.Text as spec;

use crate::line::read_line;
use rt_code::Image;
use rt_ids::NoMemory;
use rt_ids::limits::SCRIPT_BYTES;
use rt_rta::line::Wrong;
use rt_rta::{Limits, LimitsRefused};
use rt_script::first_line;
use std::alloc::Global;

/// Reads the limits of a text, over the enabled interrupts of an image. The first wrong line is refused; where it is of
/// no form, or a second one for its interrupt, and its interrupt is unknown too, the first of these.
pub fn read_image_limits(
    alloc: Global,
    bytes: &[u8],
    image: &Image,
) -> Result<Limits, LimitsRefused>
    ensures read { IfOk result (λ limits. spec.IsImageLimitsText image.now bytes.now limits) }
    ensures fine { IfOk result (λ limits. AreImageLimits image.now limits) }
    ensures refused { IfErr result (λ refusal. spec.AreImageLimitsRefused image.now bytes.now refusal) }
{
    if bytes.len() > SCRIPT_BYTES as usize {
        return Err(LimitsRefused::TooLong);
    }
    let mut limits = Limits::new(alloc);
    let mut rest = bytes;
    let mut number = 0;
    while !rest.is_empty() {
        let (line, behind) = first_line(rest);
        number += 1;
        match take_line(&mut limits, image, line) {
            Ok(Ok(())) => rest = behind,
            Ok(Err(wrong)) => return Err(refusal(number, wrong)),
            Err(NoMemory) => return Err(LimitsRefused::NoMemory),
        }
    }
    Ok(limits)
}

/// Adds what a line tells, or says what is wrong with the line.
fn take_line(limits: &mut Limits, image: &Image, line: &[u8]) -> Result<Result<(), Wrong>, NoMemory>
    ensures taken { IfOk result (λ taken.
        (spec.image_limits_reader image.now).step limits.old line.now ≡ and_make taken (λ _. limits.new)) }
    ensures unchanged { IfOk result (λ taken. IfErr taken (λ _. limits.new ≡ limits.old)) }
{
    match read_line(image, limits, line) {
        Ok(None) => Ok(Ok(())),
        Ok(Some(limit)) => Ok(Ok(limits.push(limit)?)),
        Err(wrong) => Ok(Err(wrong)),
    }
}

/// The refusal of a text whose first wrong line has this number.
fn refusal(number: u32, wrong: Wrong) -> LimitsRefused
    ensures { result ≡ refusal_of number wrong }
{
    match wrong {
        Wrong::Form => LimitsRefused::BadLine(number),
        Wrong::Interrupt => LimitsRefused::UnknownInterrupt(number),
    }
}
