// The architecture's frame at the end of a region.
ghost use Rattle.std.specs.Prelude.{◌≡◌, ◌+◌, ◌≤◌, ◌++◌, None, slice_index};
ghost use Rattle.rt_ids.specs.declared.exception.TheConstants.{BASIC_FRAME_WORDS};
ghost use Rattle.rt_stack.specs.Region.{HasRoomFor, used_words, top, region_after_pop};
ghost use Rattle.rt_context.specs.Frames.{Saved, exception_frame};

use rt_stack::Region;

/// The index of LR, which holds the size of the interrupted frame.
const LINK: usize = 5;
/// The index of the return address.
const RETURN_ADDRESS: usize = 6;
/// The index of xPSR, which holds the interrupted exception's number.
const STATUS: usize = 7;

/// Where an interrupted frame runs on.
#[derive(Clone, Copy)]
pub(crate) struct Interrupted {
    /// Words of the frame.
    pub(crate) frame: u32,
    /// The code address.
    pub(crate) address: u32,
}

/// Pushes the frame of so many words for the exception of a number, interrupted at a code address with the last so many
/// words as its frame.
pub(crate) fn push(region: &mut Region, entry: u32, frame: u32, number: u32, address: u32)
    requires basic { BASIC_FRAME_WORDS ≤ entry }
    requires frame { frame ≤ used_words region.old }
    requires fits { HasRoomFor region.old entry }
    ensures { let interrupted : Saved = record {
      number = number;
      address = address;
      slots = top region.old frame;
      caller = None;
    } in
        region.new ≡ record region.old { words = region.old.words ++ exception_frame entry interrupted } }
{
    region.push(entry);
    let pushed = region.top(entry);
    pushed[LINK] = frame;
    pushed[RETURN_ADDRESS] = address;
    pushed[STATUS] = number;
}

/// Pops the last so many words and the architecture's frame of so many below them, and answers where the interrupted
/// frame runs on.
pub(crate) fn leave(region: &mut Region, entry: u32, words: u32) -> Interrupted
    requires basic { BASIC_FRAME_WORDS ≤ entry }
    requires there { words + entry ≤ used_words region.old }
    ensures frame { result.frame ≡ slice_index (top (region_after_pop region.old words) entry) LINK }
    ensures address { result.address ≡ slice_index (top (region_after_pop region.old words) entry) RETURN_ADDRESS }
    ensures popped { region.new ≡ region_after_pop (region_after_pop region.old words) entry }
{
    region.pop(words);
    let pushed = region.top_ref(entry);
    let interrupted = Interrupted {
        frame: pushed[LINK],
        address: pushed[RETURN_ADDRESS],
    };
    region.pop(entry);
    interrupted
}
