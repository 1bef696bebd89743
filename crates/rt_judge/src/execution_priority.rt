// The execution priority of a point.

ghost use Rattle.std.specs.Prelude.{◌≡◌};
ghost use Rattle.rt_ids.specs.declared.limits.TheConstants.{THREAD_VALUE};
ghost use Rattle.rt_points.specs.Leading.{handler_at};
ghost use Rattle.rt_points.specs.ExecutionPriority.{owner_value, frame_of, lowered_value, execution_priority};
ghost use Rattle.rt_judge.specs.Inside.Values.{outside_value};

use rt_code::{Handler, Image};
use rt_ids::limits::THREAD_VALUE;
use rt_points::{Opened, Owner, SectionKind};

/// The handler of the interrupt at an index, where it is enabled.
pub fn handler_at(image: &Image, index: usize) -> Option<Handler>
    ensures { result ≡ handler_at image.now index }
{
    match image.irqs.get(index) {
        Some(row) => row.handler,
        None => None,
    }
}

/// The priority value of an owner: 0 to 256.
pub fn owner_value(image: &Image, owner: Owner) -> u32
    ensures { result ≡ owner_value image.now owner }
{
    match owner {
        Owner::Starting => 0,
        Owner::Thread => u32::from(THREAD_VALUE),
        Owner::Handling(index) => match handler_at(image, index) {
            Some(handler) => u32::from(handler.value),
            None => u32::from(THREAD_VALUE),
        },
    }
}

/// The priority value of an owner, `init` aside.
pub fn outside_value(image: &Image, owner: Owner) -> Option<u32>
    ensures { result ≡ outside_value image.now owner }
{
    match owner {
        Owner::Starting => None,
        Owner::Thread | Owner::Handling(_) => Some(owner_value(image, owner)),
    }
}

/// The words of an owner's frame.
pub fn frame_of(image: &Image, owner: Owner) -> u32
    ensures { result ≡ frame_of image.now owner }
{
    match owner {
        Owner::Starting | Owner::Thread => image.thread_words,
        Owner::Handling(index) => match handler_at(image, index) {
            Some(handler) => handler.frame,
            None => 0,
        },
    }
}

/// The execution priority inside a section of a kind.
pub fn lowered_value(kind: SectionKind, value: u32) -> u32
    ensures { result ≡ lowered_value kind value }
{
    match kind {
        SectionKind::Mark => value,
        SectionKind::Raise(_, raised) => raised.min(value),
        SectionKind::Mask(_) => 0,
    }
}

/// The execution priority of an owner with these sections open.
pub fn execution_priority(image: &Image, owner: Owner, opened: &[Opened]) -> u32
    ensures { result ≡ execution_priority image.now owner opened.now }
{
    let mut value = owner_value(image, owner);
    for o in opened {
        value = lowered_value(o.kind, value);
    }
    value
}
