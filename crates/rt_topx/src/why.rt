// The command `why`.

ghost use Rattle.std.specs.Prelude.{◌≡◌, ℕ, List};
ghost use Rattle.rt_load.specs.Loadable.{IsLoadable};
ghost use Rattle.rt_top.specs.Program.{inputs};
ghost use Rattle.rt_top.specs.Inside.Decides.{AnswersOne};
ghost use Rattle.rt_top.specs.Inside.Replies.{Replies};
ghost use Rattle.rt_top.specs.Inside.Using.{HasUse};
ghost use Rattle.rt_top.specs.Reads.{given_by};
ghost use Rattle.rt_topx.specs.declared.command.Command.TheVariants as command;
ghost use Rattle.rt_topx.specs.Explained as spec;
ghost use Rattle.rt_topx.specs.Kinds as kind;
ghost use Rattle.rt_topx.specs.Rticx.{rticx_program};

use rt_code::Image;
use rt_ids::{NoMemory, Status};
use rt_outside::Source;
use rt_top::reading::read_listing;
use rt_top::reply::{Reply, reply_of_text};
use rt_why::{Why, why_text};
use std::alloc::Global;

/// `why IMAGE`: whether the image of a listing, whatever made it, keeps the rules by which it is safe, and else the
/// least rule that it breaks, and where.
#[inline(never)]
pub(crate) fn why<S: Source>(alloc: Global, source: &mut S) -> Reply
    ensures { (second third : List ℕ) → let gave = given_by S.past source.old source.new in
        AnswersOne rticx_program command.Why kind.Listing (inputs gave second third) gave
        (HasUse S.past S.left S.faults source.old source.new) result }
{
    match read_listing(alloc, source) {
        Ok(image) => explain(alloc, &image),
        Err(reply) => reply,
    }
}

/// The reply to an image.
fn explain(alloc: Global, image: &Image) -> Reply
    requires { IsLoadable image.now }
    ensures { Replies (spec.Explains image.now) result }
{
    match rt_why::why(alloc, image) {
        Ok(answer) => reply_of_text(status_of(&answer), why_text(alloc, image, &answer)),
        Err(NoMemory) => Reply::Stop(Status::Memory),
    }
}

/// The status of an answer.
fn status_of(answer: &Why) -> Status
    ensures { result ≡ spec.status_of answer.now }
{
    match answer {
        Why::Yes => Status::Done,
        Why::No(_) => Status::No,
    }
}
