// What a command replies, and how it is written.

ghost use Rattle.std.specs.Prelude.{◌≡◌, ◌⊎◌, ◌++◌, codes, decimal, IfOk, OnErr};
ghost use Rattle.rt_top.specs.Refusal.{refusal_line};
ghost use Rattle.rt_top.specs.SecondRefusal.{SaysScript, SaysTrace, SaysLimits};
ghost use Rattle.rt_top.specs.Verified.{SaysImage};
ghost use Rattle.rt_top.specs.Ends.{Wrote};
ghost use Rattle.rt_top.specs.Inside.Decides.{Tells, Finishes};
ghost use Rattle.rt_top.specs.Inside.Replies.{IsOfSecond};
ghost use Rattle.rt_ids.specs.declared.status.Status.TheVariants as status;

use crate::refusal::refusal_line;
use itoa::Buffer;
use rt_ids::{Fault, NoMemory, Status, push_bytes};
use rt_load::LoadRefused;
use rt_outside::{Sink, put_all};
use rt_rta::LimitsRefused;
use rt_script::ScriptRefused;
use rt_trace::TraceRefused;
use std::alloc::Global;

/// The line for an application that is not of the form that a command is for.
pub(crate) const NOT_OF_FORM: &[u8] = b"no\n";

/// What a command replies. Nothing is written yet.
#[derive(Drop)]
pub enum Reply {
    /// A text, and the status once it is written.
    Write { status: Status, text: Vec<u8> },
    /// The program stops with this status, and writes nothing.
    Stop(Status),
}

/// The reply of a text, where no memory was wanted for it.
pub fn reply_of_text<E: Drop>(status: Status, made: Result<Vec<u8>, E>) -> Reply
    ensures text { IfOk made (λ text. result ≡ Reply.Write status text) }
    ensures memory { OnErr made (result ≡ Reply.Stop Status.Memory) }
{
    match made {
        Ok(text) => Reply::Write { status, text },
        Err(_) => Reply::Stop(Status::Memory),
    }
}

/// The reply of a fixed line.
pub(crate) fn line(alloc: Global, status: Status, line: &[u8]) -> Reply
    ensures { Tells status (λ bytes. bytes ≡ line.now) result }
{
    reply_of_text(status, Vec::from_slice(alloc, line))
}

/// The reply of a refusal of the application.
pub(crate) fn refuse(alloc: Global, fault: Fault) -> Reply
    ensures { Tells status.App (λ bytes. bytes ≡ refusal_line fault) result }
{
    reply_of_text(Status::App, refusal_line(alloc, fault))
}

/// The reply of a line that has a number between two texts.
pub fn reply_number(alloc: Global, status: Status, front: &[u8], number: u64, back: &[u8]) -> Reply
    ensures { Tells status (λ bytes. bytes ≡ front.now ++ decimal number ++ back.now) result }
{
    reply_of_text(status, numbered_line(alloc, front, number, back))
}

/// A number between two texts.
fn numbered_line(alloc: Global, front: &[u8], number: u64, back: &[u8]) -> Result<Vec<u8>, NoMemory>
    ensures { IfOk result (λ line. line.items ≡ front.now ++ decimal number ++ back.now) }
{
    let mut buffer = Buffer::new();
    let mut line = Vec::new(alloc);
    push_bytes(&mut line, front)?;
    push_bytes(&mut line, buffer.format(number).as_bytes())?;
    push_bytes(&mut line, back)?;
    Ok(line)
}

/// The reply about a second application: the one that it would be of a first, with a word in front of its line.
pub(crate) fn of_second(alloc: Global, reply: Reply) -> Reply
    ensures { IsOfSecond reply result }
{
    match reply {
        Reply::Write { status, text } => reply_of_text(status, second_line(alloc, &text)),
        Reply::Stop(status) => Reply::Stop(status),
    }
}

/// A line with a word in front.
fn second_line(alloc: Global, line: &[u8]) -> Result<Vec<u8>, NoMemory>
    ensures { IfOk result (λ text. text.items ≡ codes "second " ++ line.now) }
{
    let mut text = Vec::new(alloc);
    push_bytes(&mut text, b"second ")?;
    push_bytes(&mut text, line)?;
    Ok(text)
}

/// The reply of a refusal of a script.
pub(crate) fn refuse_script(alloc: Global, refusal: ScriptRefused) -> Reply
    ensures { Tells status.Text (SaysScript refusal) result }
{
    match refusal {
        ScriptRefused::TooLong => script_line(alloc, 1, b" 1 too long\n"),
        ScriptRefused::BadLine(line) => script_line(alloc, line, b" 2 bad line\n"),
        ScriptRefused::UnknownInterrupt(line) => script_line(
            alloc,
            line,
            b" 3 unknown interrupt\n",
        ),
        ScriptRefused::TooManyEvents(line) => script_line(alloc, line, b" 4 too many events\n"),
        ScriptRefused::TooManyDevices(line) => script_line(alloc, line, b" 5 too many devices\n"),
        ScriptRefused::NoMemory => Reply::Stop(Status::Memory),
    }
}

/// The reply that a line of a script is refused in these words.
fn script_line(alloc: Global, line: u32, words: &[u8]) -> Reply
    ensures { Tells status.Text (λ bytes. bytes ≡ codes "script:" ++ decimal line ++ words.now) result }
{
    reply_number(alloc, Status::Text, b"script:", u64::from(line), words)
}

/// The reply of a refusal of a trace.
pub fn refuse_trace(alloc: Global, refusal: TraceRefused) -> Reply
    ensures { Tells status.Text (SaysTrace refusal) result }
{
    match refusal {
        TraceRefused::TooLong => trace_line(alloc, 1, b" 1 too long\n"),
        TraceRefused::BadLine(line) => trace_line(alloc, line, b" 2 bad line\n"),
        TraceRefused::UnknownName(line) => trace_line(alloc, line, b" 3 unknown name\n"),
        TraceRefused::NoMemory => Reply::Stop(Status::Memory),
    }
}

/// The reply that a line of a trace is refused in these words.
fn trace_line(alloc: Global, line: u32, words: &[u8]) -> Reply
    ensures { Tells status.Text (λ bytes. bytes ≡ codes "trace:" ++ decimal line ++ words.now) result }
{
    reply_number(alloc, Status::Text, b"trace:", u64::from(line), words)
}

/// The reply of a refusal of limits.
pub(crate) fn refuse_limits(alloc: Global, refusal: LimitsRefused) -> Reply
    ensures { Tells status.Text (SaysLimits refusal) result }
{
    match refusal {
        LimitsRefused::TooLong => limits_line(alloc, 1, b" 1 too long\n"),
        LimitsRefused::BadLine(line) => limits_line(alloc, line, b" 2 bad line\n"),
        LimitsRefused::UnknownInterrupt(line) => limits_line(
            alloc,
            line,
            b" 3 unknown interrupt\n",
        ),
        LimitsRefused::NoMemory => Reply::Stop(Status::Memory),
    }
}

/// The reply that a line of limits is refused in these words.
fn limits_line(alloc: Global, line: u32, words: &[u8]) -> Reply
    ensures { Tells status.Text (λ bytes. bytes ≡ codes "limits:" ++ decimal line ++ words.now) result }
{
    reply_number(alloc, Status::Text, b"limits:", u64::from(line), words)
}

/// The reply of a refusal of a listing.
pub(crate) fn refuse_image(alloc: Global, refusal: LoadRefused) -> Reply
    ensures { Tells status.Text (SaysImage refusal) result }
{
    match refusal {
        LoadRefused::TooLong => image_line(alloc, 1, b" 1 too long\n"),
        LoadRefused::BadLine(line) => image_line(alloc, line, b" 2 bad line\n"),
        LoadRefused::UnknownName(line) => image_line(alloc, line, b" 3 unknown name\n"),
        LoadRefused::NoMemory => Reply::Stop(Status::Memory),
    }
}

/// The reply that a line of a listing is refused in these words.
fn image_line(alloc: Global, line: u64, words: &[u8]) -> Reply
    ensures { Tells status.Text (λ bytes. bytes ≡ codes "image:" ++ decimal line ++ words.now) result }
{
    reply_number(alloc, Status::Text, b"image:", line, words)
}

/// Writes a reply, and answers the status that the program ends with.
pub fn finish<K: Sink>(out: &mut K, reply: &Reply) -> Status
    ensures finished { Finishes (K.taken out.old) (K.taken out.new) (K.faults out.old) (K.faults out.new)
        reply.now result }
    ensures heard { (K.faults out.new ≡ K.faults out.old) ⊎ (result ≡ Status.Write) }
{
    match reply {
        Reply::Write { status, text } => answer(out, text, *status),
        Reply::Stop(status) => *status,
    }
}

/// Writes one text, with its status.
pub fn answer<K: Sink>(out: &mut K, bytes: &[u8], status: Status) -> Status
    ensures wrote { Wrote (K.taken out.old) (K.taken out.new) (K.faults out.old) (K.faults out.new)
        status result bytes.now }
    ensures heard { (K.faults out.new ≡ K.faults out.old) ⊎ (result ≡ Status.Write) }
{
    match put_all(out, bytes) {
        Ok(()) => status,
        Err(_) => Status::Write,
    }
}
