// Which images response times are told of.

ghost use Rattle.std.specs.Prelude.{◌≡◌};
ghost use Rattle.rt_image_times.specs.Form as spec;

use rt_code::{Image, Instr, Line};

/// Whether a line requests an interrupt.
fn is_request(line: &Line) -> bool
    ensures { result ≡ spec.is_request line.now }
{
    matches!(line.0, Instr::Post(_))
}

/// Whether an instruction of an image requests an interrupt, so that requests do not come from outside alone.
pub fn requests_itself(image: &Image) -> bool
    ensures { result ≡ spec.requests_itself image.now }
{
    image.code.iter().any(|line| is_request(line))
}
