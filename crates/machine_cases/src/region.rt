// Cases of the stack's region.

ghost use Rattle.std.specs.Prelude.{◌≡◌, ◌<◌, ◌≤◌, ◌++◌, slice_set};
ghost use Rattle.rt_stack.specs.Region.{used_words, top, below};

use crate::checks::OK;
use anyhow::Result;
use rt_stack::Region;
use std::alloc::Global;

/// Writes one of the last words: the word alone is another.
fn write(region: &mut Region, words: u32, at: u32, value: u32)
    requires within { words ≤ used_words region.old }
    requires at { at < words }
    ensures { region.new ≡ record region.old {
      words = below region.old words
          ++ slice_set (top region.old words) at value;
    } }
{
    region.top(words)[at as usize] = value;
}

/// Frames of two words, of eight and of two fill a region of twelve.
pub fn region_difference(alloc: Global) -> Result<&'static str> {
    let mut region = Region::new(alloc, 48)?;
    for (words, at, value, left) in [(2, 1, 5, 10), (8, 0, 6, 2), (2, 0, 7, 0)] {
        if !region.fits(words) {
            return Ok("there is no room");
        }
        region.push(words);
        if region.used_words() < words {
            return Ok("the words in use differ");
        }
        write(&mut region, words, at, value);
        if (region.fits(left), region.fits(left + 1)) != (true, false) {
            return Ok("what is left differs");
        }
    }
    if region.used_words() != 12 {
        return Ok("the words of all differ");
    }
    let whole = [0, 5, 6, 0, 0, 0, 0, 0, 0, 0, 7, 0];
    if region.top_ref(12) != whole.as_slice() {
        return Ok("the whole stack differs");
    }
    region.pop(3);
    region.push(1);
    let rest = [0, 5, 6, 0, 0, 0, 0, 0, 0, 0];
    if region.top_ref(10) != rest.as_slice() {
        return Ok("the rest differs");
    }
    Ok(OK)
}
