// A file as a source of bytes.

ghost use Rattle.std.specs.Prelude.{◌≡◌, ◌≢◌, ◌≤◌, ◌↔◌, [], Some, None, Ok, IsErr, IsTrue, length, take, IfOk};
ghost use Rattle.std.specs.Prelude.{IfSome, OnOk, OnErr};
ghost use Rattle.rt_outside.specs.Faults.{HasCause};
ghost use Rattle.rt_outside.specs.Bytes.{after_read, no_past, Moves};
ghost use Rattle.rt_outside.specs.Memory.{next_fault};
ghost use Rattle.rt_outside.specs.Outside.{opening_of, no_bytes_told, Untried, Opened, Missing};
ghost use Rattle.rt_outside.specs.declared.file_source.FileState.TheVariants as state;

use crate::passed::Passed;
use crate::source::is_end;
use crate::{Failed, Source};
use std::fs;
use std::io::Read;
use std::marker::Model;
use std::rt::Files;

/// A file as a source. It is opened at the first read, and a file that does not open fails at each read. An empty path
/// is an empty input. What no contract says, and what is trusted here: that the file at this path is opened, and that a
/// read of an open file puts the next bytes of the file into the buffer's front, as many as it says.
#[derive(Drop)]
pub struct FileSource<'a, R: Files> {
    rt: &'a R,
    path: &'a str,
    state: FileState<R::File>,
    given: Passed,
    at_end: bool,
    failed: u64,
}

/// How far the file has come.
#[derive(Drop)]
enum FileState<F> {
    Closed,
    Open(F),
    Missing,
}

impl<'a, R: Files> Model for FileSource<'a, R> {
    ghost use Rattle.rt_outside.specs.Outside.{FileInput, opening_of};
    ghost use Rattle.rt_outside.specs.Passed.{passed_bytes};

    ghost Value = { FileInput };

    ghost view = { λ s. record {
      path = s.path.now;
      opening = opening_of s.state;
      past = record { bytes = passed_bytes s.given; at_end = s.at_end };
      faults = s.failed;
    } };
}

impl<'a, R: Files> FileSource<'a, R> {
    /// The file at this path, not yet opened.
    pub fn of(rt: &'a R, path: &'a str) -> FileSource<'a, R>
        ensures { result ≡ record { path = path.now; opening = Untried; past = no_past; faults = 0 } }
    {
        FileSource {
            rt,
            path,
            state: FileState::Closed,
            given: Passed::Nothing,
            at_end: false,
            failed: 0,
        }
    }
}

/// Whether there is a file at a path: an empty path is an empty input.
fn names_file(path: &str) -> bool
    ensures { IsTrue result ↔ (path.now ≢ []) }
{
    !path.is_empty()
}

/// The file that an opening gave, or that it gave none.
fn state_after_opening<F: Drop, E: Drop>(answer: Result<F, E>) -> FileState<F>
    ensures ok { IfOk answer (λ file. result ≡ state.Open file) }
    ensures err { OnErr answer (result ≡ state.Missing) }
{
    match answer {
        Ok(file) => FileState::Open(file),
        Err(_) => FileState::Missing,
    }
}

/// Opens the file where that was not tried yet.
fn open_once<R: Files>(rt: &R, path: &str, state: &mut FileState<R::File>)
    ensures tried { opening_of state.new ≢ Untried }
    ensures once { opening_of state.old ≢ Untried → state.new ≡ state.old }
{
    if let FileState::Closed = state {
        *state = state_after_opening(fs::open(rt, path));
    }
}

/// How many bytes a read gave, by its answer. None where it failed.
fn given_count<E: Drop>(answer: Result<usize, E>) -> Option<usize>
    ensures ok { IfOk answer (λ n. result ≡ Some n) }
    ensures err { OnErr answer (result ≡ None) }
{
    match answer {
        Ok(count) => Some(count),
        Err(_) => None,
    }
}

/// Reads some of the file. None where it did not open or read.
fn read_some<F: Read>(state: &mut FileState<F>, buffer: &mut [u8]) -> Option<usize>
    ensures within { IfSome result (λ n. n ≤ length buffer.old) }
    ensures opened { opening_of state.old ≢ Opened → result ≡ None }
    ensures same { opening_of state.new ≡ opening_of state.old }
{
    match state {
        FileState::Open(file) => given_count(file.read(buffer)),
        _ => None,
    }
}

impl<R: Files> Source for FileSource<'_, R> {
    ghost past = { λ s. s.past };

    ghost left = { no_bytes_told };

    ghost faults = { λ s. s.faults };

    fn read(&mut self, buffer: &mut [u8]) -> Result<usize, Failed>
        ensures within { IfOk result (λ n. n ≤ length buffer.old) }
        ensures given { IfOk result (λ n. self.new.past
            ≡ after_read self.old.past (take n buffer.new) (length buffer.old)) }
        ensures moved { IfOk result (λ n. Moves (no_bytes_told self.old) (no_bytes_told self.new) buffer.new n) }
        ensures none_given { OnErr result (self.new.past ≡ self.old.past) }
        ensures none_moved { OnErr result (no_bytes_told self.new ≡ no_bytes_told self.old) }
        ensures cause { HasCause self.old.faults self.new.faults result }
        ensures quiet { OnOk result (self.new.faults ≡ self.old.faults) }

        // An empty path is an empty input, and nothing is opened. Any other is opened at the first read, and only then.
        ensures empty { self.old.path ≡ [] → result ≡ Ok 0 }
        ensures unopened { self.old.path ≡ [] → self.new.opening ≡ self.old.opening }
        ensures opens { self.old.path ≢ [] → self.new.opening ≢ Untried }
        ensures once { self.old.opening ≢ Untried → self.new.opening ≡ self.old.opening }
        ensures missing { self.old.path ≢ [] → self.new.opening ≡ Missing → IsErr result }

        ensures path { self.new.path ≡ self.old.path }
        ensures counted { OnErr result (self.new.faults ≡ next_fault self.old.faults) }
    {
        let room = buffer.len();
        if !names_file(self.path) {
            self.at_end = is_end(&[], room);
            return Ok(0);
        }
        open_once(self.rt, self.path, &mut self.state);
        match read_some(&mut self.state, buffer) {
            Some(count) => {
                let piece = &buffer[..count];
                self.given.add(piece);
                self.at_end = is_end(piece, room);
                Ok(count)
            }
            None => {
                self.failed = self.failed.saturating_add(1);
                Err(Failed)
            }
        }
    }
}
