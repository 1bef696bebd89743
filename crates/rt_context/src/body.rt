// The frame of a called body at the end of a region, above that of the handler that calls it.
ghost use Rattle.std.specs.Prelude.{◌≡◌, ◌+◌, ◌-◌, ◌<◌, ◌≤◌, ◌==◌, ◌||◌, nat_le, ◌++◌, length, replicate};
ghost use Rattle.std.specs.Prelude.{take, drop, slice_set};
ghost use Rattle.rt_stack.specs.Region.{HasRoomFor, used_words, top, below};
ghost use Rattle.rt_context.specs.declared.sizes.TheConstants.{STACK_WORDS};

use rt_stack::Region;

/// Whether so many arguments, from a slot on, are in a frame of so many words.
pub(crate) fn arguments_fit(frame: u32, from: u32, args: u32) -> bool
    ensures { result ≡ ((args == 0) || nat_le (from + args) frame) }
{
    args == 0 || (args <= frame && from <= frame - args)
}

/// Copies so many slots of the caller, from one on, to the first of the body: the caller's are the first so many of
/// all.
fn copy_arguments(slots: &mut [u32], caller: usize, from: usize, args: usize)
    requires there { 0 < args → from + args ≤ caller }
    requires room { caller + args ≤ length slots.old }
    ensures { slots.new ≡ take caller slots.old ++ (take args (drop from slots.old) ++ drop (caller + args) slots.old) }
{
    if args > 0 {
        slots.copy_within(from..from + args, caller);
    }
}

/// Pushes the frame of a body, of so many words: it begins with as many arguments, which stand in the caller's slots
/// from one on. The return address goes into the caller's last slot.
pub(crate) fn push(region: &mut Region, caller: u32, frame: u32, from: u32, args: u32, address: u32)
    requires small { region.old.size ≤ STACK_WORDS }
    requires slot { 0 < caller }
    requires caller { caller ≤ used_words region.old }
    requires fits { HasRoomFor region.old frame }
    requires there { 0 < args → from + args ≤ caller }
    requires taken { args ≤ frame }
    ensures { let slots = slice_set (top region.old caller) (caller - 1) address in
        region.new ≡ record region.old {
          words = below region.old caller
              ++ (slots ++ (take args (drop from slots) ++ replicate (frame - args) 0));
        } }
{
    region.push(frame);
    let slots = region.top(caller + frame);
    slots[caller as usize - 1] = address;
    copy_arguments(slots, caller as usize, from as usize, args as usize);
}
