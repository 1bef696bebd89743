// Reads an application or a listing from a source.

ghost use Rattle.std.specs.Prelude.{◌≡◌, ◌<◌, ◌-◌, ◌^◌, ℕ, List, IfOk, IfErr};
ghost use Rattle.rt_ids.specs.declared.status.Status.TheVariants as status;
ghost use Rattle.rt_ast.specs.View.{app_of};
ghost use Rattle.rt_grammar.specs.Text.{IsText};
ghost use Rattle.rt_app.specs.View as resolved;
ghost use Rattle.rt_app.specs.Accepted.{IsAccepted};
ghost use Rattle.rt_build.specs.Accepted.{KeepsRules, IsApplication};
ghost use Rattle.rt_load.specs.Loadable.{IsLoadable};
ghost use Rattle.rt_load.specs.Reading.{IsListingText};
ghost use Rattle.rt_top.specs.Kinds as kind;
ghost use Rattle.rt_top.specs.Rtic.{rtic_program};
ghost use Rattle.rt_top.specs.Reads.{given_by};
ghost use Rattle.rt_top.specs.Inside.Decides.{Tells, IsBrokenBy};
ghost use Rattle.rt_top.specs.Inside.Using.{HasUse, Reads, ReadsBytes};

use crate::reply::{Reply, of_second, refuse, refuse_image};
use rt_app::App;
use rt_ast::AppTree;
use rt_build::judge;
use rt_code::Image;
use rt_ids::limits::TEXT_BYTES;
use rt_ids::{Fault, Place, Refusal, Refused, Status};
use rt_load::{IMAGE_BYTES, LoadRefused, load};
use rt_outside::{ReadFail, Source, read_text};
use rt_parse::parse;
use std::alloc::Global;

/// A text that is too long is refused at its first byte.
const TOO_LONG: Fault = Fault {
    place: Place { line: 1, col: 1 },
    refusal: Refusal::TooLong,
};

/// The text of an application, and the tree that it was read as.
#[derive(Drop)]
pub(crate) struct Written {
    pub(crate) text: Vec<u8>,
    pub(crate) tree: AppTree,
}

/// Reads the bytes of a source, None where it has more than the limit. An error is the status to end with.
pub fn read_within<S: Source>(
    alloc: Global,
    source: &mut S,
    limit: u32,
) -> Result<Option<Vec<u8>>, Status>
    requires { limit < 2 ^ 32 - 1 }
    ensures { ReadsBytes limit (given_by S.past source.old source.new)
        (HasUse S.past S.left S.faults source.old source.new) result }
{
    match read_text(alloc, source, limit) {
        Ok(text) => Ok(Some(text)),
        Err(ReadFail::TooLong) => Ok(None),
        Err(ReadFail::Fault) => Err(Status::Read),
        Err(ReadFail::NoMemory) => Err(Status::Memory),
    }
}

/// Reads the tree of an application.
pub(crate) fn read_tree<S: Source>(alloc: Global, source: &mut S) -> Result<Written, Reply>
    ensures { let gave = given_by S.past source.old source.new in
        Reads rtic_program kind.Tree gave gave (HasUse S.past S.left S.faults source.old source.new)
        (λ written. IsText written.text.items (app_of written.tree) × (written.text.items ≡ gave)) result }
{
    let text = match read_within(alloc, source, TEXT_BYTES) {
        Ok(Some(text)) => text,
        Ok(None) => return Err(refuse(alloc, TOO_LONG)),
        Err(status) => return Err(Reply::Stop(status)),
    };
    match parse(alloc, &text) {
        Ok(tree) => Ok(Written { text, tree }),
        Err(Refused::At(fault)) => Err(refuse(alloc, fault)),
        Err(Refused::NoMemory) => Err(Reply::Stop(Status::Memory)),
    }
}

/// The application of what was read, where it breaks no rule.
fn judged_app(alloc: Global, written: &Written) -> Result<App, Reply>
    requires { IsText written.now.text.items (app_of written.now.tree) }
    ensures ok { IfOk result (λ app. KeepsRules (app_of written.now.tree) (resolved.app_of app)) }
    ensures kept { IfOk result (λ app. IsAccepted (resolved.app_of app)) }
    ensures broken { IfErr result (Tells status.App (IsBrokenBy written.now.text.items (app_of written.now.tree))) }
{
    match judge(alloc, &written.text, &written.tree) {
        Ok(app) => Ok(app),
        Err(Refused::At(fault)) => Err(refuse(alloc, fault)),
        Err(Refused::NoMemory) => Err(Reply::Stop(Status::Memory)),
    }
}

/// Reads an application, where it breaks no rule.
pub fn read_accepted<S: Source>(alloc: Global, source: &mut S) -> Result<App, Reply>
    ensures reads { let gave = given_by S.past source.old source.new in
        Reads rtic_program kind.Application gave gave (HasUse S.past S.left S.faults source.old source.new)
        (λ app. IsApplication gave (resolved.app_of app)) result }
    ensures kept { IfOk result (λ app. IsAccepted (resolved.app_of app)) }
{
    let written = read_tree(alloc, source)?;
    judged_app(alloc, &written)
}

/// Reads a second application, likewise; its refusal says that it is of the second.
pub(crate) fn read_other<S: Source>(alloc: Global, source: &mut S) -> Result<App, Reply>
    ensures reads { (first : List ℕ) → let gave = given_by S.past source.old source.new in
        Reads rtic_program kind.OtherApplication first gave (HasUse S.past S.left S.faults source.old source.new)
        (λ app. IsApplication gave (resolved.app_of app)) result }
    ensures kept { IfOk result (λ app. IsAccepted (resolved.app_of app)) }
{
    match read_accepted(alloc, source) {
        Ok(app) => Ok(app),
        Err(reply) => Err(of_second(alloc, reply)),
    }
}

/// Reads the image of a listing, whatever made it.
pub fn read_listing<S: Source>(alloc: Global, source: &mut S) -> Result<Image, Reply>
    ensures reads { let gave = given_by S.past source.old source.new in
        Reads rtic_program kind.Listing gave gave (HasUse S.past S.left S.faults source.old source.new)
        (λ image. IsListingText gave image) result }
    ensures loadable { IfOk result (λ image. IsLoadable image) }
{
    let text = match read_within(alloc, source, IMAGE_BYTES) {
        Ok(Some(text)) => text,
        Ok(None) => return Err(refuse_image(alloc, LoadRefused::TooLong)),
        Err(status) => return Err(Reply::Stop(status)),
    };
    match load(alloc, &text) {
        Ok(image) => Ok(image),
        Err(refusal) => Err(refuse_image(alloc, refusal)),
    }
}
