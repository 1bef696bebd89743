// The command `verify`, which prints `yes` or `no K`.

ghost use Rattle.std.specs.Prelude.{ℕ, List};
ghost use Rattle.rt_load.specs.Loadable.{IsLoadable};
ghost use Rattle.rt_top.specs.Kinds as kind;
ghost use Rattle.rt_top.specs.Words as word;
ghost use Rattle.rt_top.specs.Program.{inputs};
ghost use Rattle.rt_top.specs.Rtic.{rtic_program};
ghost use Rattle.rt_top.specs.Reads.{given_by};
ghost use Rattle.rt_top.specs.Verified.{TellsImage};
ghost use Rattle.rt_top.specs.Inside.Decides.{AnswersOne};
ghost use Rattle.rt_top.specs.Inside.Replies.{Replies};
ghost use Rattle.rt_top.specs.Inside.Using.{HasUse};

use crate::reading::read_listing;
use crate::reply::{Reply, line, reply_number};
use rt_code::Image;
use rt_ids::{NoMemory, Status};
use rt_load::Verified;
use rt_outside::Source;
use std::alloc::Global;

/// `verify IMAGE`: whether the image of a listing, whatever made it, keeps the rules by which it is safe, and else the
/// least rule that it breaks.
pub(crate) fn verify<S: Source>(alloc: Global, source: &mut S) -> Reply
    ensures { (second third : List ℕ) → let gave = given_by S.past source.old source.new in
        AnswersOne rtic_program word.Verify kind.Listing (inputs gave second third) gave
        (HasUse S.past S.left S.faults source.old source.new) result }
{
    match read_listing(alloc, source) {
        Ok(image) => image_reply(alloc, &image),
        Err(reply) => reply,
    }
}

/// The reply to an image.
fn image_reply(alloc: Global, image: &Image) -> Reply
    requires { IsLoadable image.now }
    ensures { Replies (TellsImage image.now) result }
{
    match rt_load::verify(alloc, image) {
        Ok(Verified::Yes) => line(alloc, Status::Done, b"yes\n"),
        Ok(Verified::No(rule)) => reply_number(alloc, Status::No, b"no ", u64::from(rule), b"\n"),
        Err(NoMemory) => Reply::Stop(Status::Memory),
    }
}
