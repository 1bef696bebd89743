// The command `bounds`.

ghost use Rattle.std.specs.Prelude.{◌≡◌, ℕ, List, IfOk};
ghost use Rattle.rt_bounds.specs.Bounds.{AreBounds};
ghost use Rattle.rt_bounds.specs.Text.{bounds_text};
ghost use Rattle.rt_bounds.specs.declared.bound.Bounds.{Bounds as BoundsView};
ghost use Rattle.rt_load.specs.Loadable.{IsLoadable};
ghost use Rattle.rt_points.specs.Checked.{IsChecked};
ghost use Rattle.rt_top.specs.Program.{inputs};
ghost use Rattle.rt_top.specs.Inside.Decides.{AnswersOne};
ghost use Rattle.rt_top.specs.Inside.Replies.{Replies};
ghost use Rattle.rt_top.specs.Inside.Using.{HasUse};
ghost use Rattle.rt_top.specs.Reads.{given_by};
ghost use Rattle.rt_topx.specs.declared.command.Command.TheVariants as command;
ghost use Rattle.rt_topx.specs.Bounded as spec;
ghost use Rattle.rt_topx.specs.Kinds as kind;
ghost use Rattle.rt_topx.specs.Rticx.{rticx_program};

use rt_bounds::bounds_text;
use rt_code::Image;
use rt_ids::{NoMemory, Status};
use rt_load::{Verified, verify};
use rt_outside::Source;
use rt_top::reading::read_listing;
use rt_top::reply::{Reply, reply_number, reply_of_text};
use std::alloc::Global;

/// `bounds IMAGE`: the bounds of the image of a listing, whatever made it, or the least rule that it breaks.
#[inline(never)]
pub(crate) fn bounds<S: Source>(alloc: Global, source: &mut S) -> Reply
    ensures { (second third : List ℕ) → let gave = given_by S.past source.old source.new in
        AnswersOne rticx_program command.Bounds kind.Listing (inputs gave second third) gave
        (HasUse S.past S.left S.faults source.old source.new) result }
{
    match read_listing(alloc, source) {
        Ok(image) => bound(alloc, &image),
        Err(reply) => reply,
    }
}

/// The reply to an image.
fn bound(alloc: Global, image: &Image) -> Reply
    requires { IsLoadable image.now }
    ensures { Replies (spec.TellsBounds image.now) result }
{
    match verify(alloc, image) {
        Ok(Verified::Yes) => reply_of_text(Status::Done, text_of_bounds(alloc, image)),
        Ok(Verified::No(rule)) => reply_number(alloc, Status::No, b"no ", u64::from(rule), b"\n"),
        Err(NoMemory) => Reply::Stop(Status::Memory),
    }
}

/// The bounds of an image that keeps the rules, as they are written.
fn text_of_bounds(alloc: Global, image: &Image) -> Result<Vec<u8>, NoMemory>
    requires loadable { IsLoadable image.now }
    requires checked { IsChecked image.now }
    ensures { IfOk result (λ text. (b : BoundsView) × AreBounds image.now b
        × (text.items ≡ bounds_text image.now b)) }
{
    let found = rt_bounds::bounds(alloc, image)?;
    let text = bounds_text(alloc, image, &found)?;
    Ok(text)
}
