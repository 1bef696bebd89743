// The command `bounds` with limits.

ghost use Rattle.std.specs.Prelude.{◌≡◌, ℕ, List, ◌++◌, codes, decimal, IfOk};
ghost use Rattle.rt_ids.specs.declared.status.Status.TheVariants as status;
ghost use Rattle.rt_bounds.specs.Bounds.{AreBounds};
ghost use Rattle.rt_bounds.specs.Text.{bounds_text};
ghost use Rattle.rt_bounds.specs.declared.bound.Bounds.{Bounds as BoundsView};
ghost use Rattle.rt_image_times.specs.Limits.{AreImageLimits};
ghost use Rattle.rt_image_times.specs.Report.{times_text};
ghost use Rattle.rt_image_times.specs.Response.{AreTimes};
ghost use Rattle.rt_image_times.specs.Text.{IsImageLimitsText};
ghost use Rattle.rt_image_times.specs.declared.response.TimeBound.{TimeBound as TimeView};
ghost use Rattle.rt_load.specs.Loadable.{IsLoadable};
ghost use Rattle.rt_load.specs.Reading.{IsListingText};
ghost use Rattle.rt_points.specs.Checked.{IsChecked};
ghost use Rattle.rt_top.specs.Program.{Inputs, inputs};
ghost use Rattle.rt_top.specs.Inside.Decides.{AnswersOne, Tells};
ghost use Rattle.rt_top.specs.Inside.Replies.{Replies};
ghost use Rattle.rt_top.specs.Inside.Using.{HasUse, Reads};
ghost use Rattle.rt_top.specs.Reads.{given_by};
ghost use Rattle.rt_top.specs.SecondRefusal.{SaysLimits};
ghost use Rattle.rt_topx.specs.declared.command.Command.TheVariants as command;
ghost use Rattle.rt_topx.specs.Bounded as spec;
ghost use Rattle.rt_topx.specs.Kinds as kind;
ghost use Rattle.rt_topx.specs.Rticx.{rticx_program};

use rt_bounds::bounds_text;
use rt_code::Image;
use rt_ids::limits::SCRIPT_BYTES;
use rt_ids::{NoMemory, Status, push_bytes};
use rt_image_times::{read_image_limits, requests_itself, times, times_text};
use rt_load::{Verified, verify};
use rt_outside::Source;
use rt_rta::{Limits, LimitsRefused};
use rt_top::reading::read_within;
use rt_top::reply::{Reply, reply_number, reply_of_text};
use std::alloc::Global;

/// `bounds IMAGE LIMITS`: the bounds of an image and its response times, or the least rule that it breaks, or that it
/// requests interrupts itself.
#[inline(never)]
pub(crate) fn timed_bounds<S: Source>(alloc: Global, image: &Image, source: &mut S) -> Reply
    requires { IsLoadable image.now }
    ensures { (first third : List ℕ) → IsListingText first image.now →
        let gave = given_by S.past source.old source.new in
        AnswersOne rticx_program command.TimedBounds kind.ImageLimits (inputs first gave third) gave
        (HasUse S.past S.left S.faults source.old source.new) result }
{
    match read_limits_of(alloc, image, source) {
        Ok(limits) => timed_reply(alloc, image, &limits),
        Err(reply) => reply,
    }
}

/// Reads limits for an image.
fn read_limits_of<S: Source>(alloc: Global, image: &Image, source: &mut S) -> Result<Limits, Reply>
    ensures reads { (t : Inputs) → IsListingText t.first image.now →
        let gave = given_by S.past source.old source.new in
        Reads rticx_program kind.ImageLimits t gave (HasUse S.past S.left S.faults source.old source.new)
        (λ limits. IsImageLimitsText image.now gave limits) result }
    ensures limits { IfOk result (λ limits. AreImageLimits image.now limits) }
{
    let text = match read_within(alloc, source, SCRIPT_BYTES) {
        Ok(Some(text)) => text,
        Ok(None) => return Err(refuse_limits(alloc, LimitsRefused::TooLong)),
        Err(status) => return Err(Reply::Stop(status)),
    };
    match read_image_limits(alloc, &text, image) {
        Ok(limits) => Ok(limits),
        Err(refusal) => Err(refuse_limits(alloc, refusal)),
    }
}

/// The reply of a refusal of limits.
fn refuse_limits(alloc: Global, refusal: LimitsRefused) -> Reply
    ensures { Tells status.Text (SaysLimits refusal) result }
{
    match refusal {
        LimitsRefused::TooLong => limits_line(alloc, 1, b" 1 too long\n"),
        LimitsRefused::BadLine(line) => limits_line(alloc, line, b" 2 bad line\n"),
        LimitsRefused::UnknownInterrupt(line) => limits_line(
            alloc,
            line,
            b" 3 unknown interrupt\n",
        ),
        LimitsRefused::NoMemory => Reply::Stop(Status::Memory),
    }
}

/// The reply that a line of limits is refused in these words.
fn limits_line(alloc: Global, line: u32, words: &[u8]) -> Reply
    ensures { Tells status.Text (λ bytes. bytes ≡ codes "limits:" ++ decimal line ++ words.now) result }
{
    reply_number(alloc, Status::Text, b"limits:", u64::from(line), words)
}

/// The reply to limits.
fn timed_reply(alloc: Global, image: &Image, limits: &Limits) -> Reply
    requires loadable { IsLoadable image.now }
    requires limits { AreImageLimits image.now limits.now }
    ensures { Replies (spec.TellsTimedBounds image.now limits.now) result }
{
    match verify(alloc, image) {
        Ok(Verified::Yes) => checked_reply(alloc, image, limits),
        Ok(Verified::No(rule)) => reply_number(alloc, Status::No, b"no ", u64::from(rule), b"\n"),
        Err(NoMemory) => Reply::Stop(Status::Memory),
    }
}

/// The reply to limits for an image that keeps the rules.
fn checked_reply(alloc: Global, image: &Image, limits: &Limits) -> Reply
    requires loadable { IsLoadable image.now }
    requires checked { IsChecked image.now }
    requires limits { AreImageLimits image.now limits.now }
    ensures { Replies (spec.TellsTimedBounds image.now limits.now) result }
{
    if requests_itself(image) {
        reply_of_text(Status::No, no_text(alloc))
    } else {
        reply_of_text(Status::Done, text_of_times(alloc, image, limits))
    }
}

/// The line of an image that requests interrupts itself.
fn no_text(alloc: Global) -> Result<Vec<u8>, NoMemory>
    ensures { IfOk result (λ text. text.items ≡ codes "no\n") }
{
    let mut text = Vec::new(alloc);
    push_bytes(&mut text, b"no\n")?;
    Ok(text)
}

/// The bounds and the response times of an image that keeps the rules, as they are written.
fn text_of_times(alloc: Global, image: &Image, limits: &Limits) -> Result<Vec<u8>, NoMemory>
    requires loadable { IsLoadable image.now }
    requires checked { IsChecked image.now }
    requires limits { AreImageLimits image.now limits.now }
    ensures { IfOk result (λ text. (b : BoundsView) × (rows : List TimeView) × AreBounds image.now b
        × AreTimes image.now b limits.now rows × (text.items ≡ bounds_text image.now b ++ times_text rows)) }
{
    let found = rt_bounds::bounds(alloc, image)?;
    let rows = times(alloc, image, &found, limits)?;
    let mut text = bounds_text(alloc, image, &found)?;
    let lines = times_text(alloc, &rows)?;
    push_bytes(&mut text, &lines)?;
    Ok(text)
}
