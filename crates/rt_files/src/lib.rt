// The outside of a program: its own words, the files that its words name, and its exit status. What no contract says,
// and what is trusted here: that the runtime gives the words after the program's name.
// Promises: the files are those that the words name; the exit status is the number of the status.
// Stands on: rt_ids, rt_outside.
// Read next: the struct `Inputs` below.
#![tactic(auto)]

ghost use Rattle.std.specs.Prelude.{◌≡◌, [], map, slice_index_or};
ghost use Rattle.std.specs.Process as process;
ghost use Rattle.rt_ids.specs.Status as number;
ghost use Rattle.rt_outside.specs.Bytes.{no_past};
ghost use Rattle.rt_outside.specs.Outside.{Untried};

use rt_ids::Status;
use rt_outside::FileSource;
use std::alloc::AllocError;
use std::env;
use std::io::ErrorKind;
use std::process::ExitCode;
use std::rt::{Env, Files};

/// The exit status is the number of the status.
pub fn exit_code(status: Status) -> ExitCode
    ensures { process.exit_status result ≡ number.exit_status status }
{
    ExitCode::from(status.number())
}

/// The words after the program's name, and none where the runtime cannot give them. An error is want of memory.
pub fn own_words<R: Env + AllocGlobal>(rt: &R) -> Result<Vec<String>, AllocError> {
    match env::args(rt) {
        Ok(words) => words.skip(1).collect(rt.alloc()),
        Err(error) if error.kind() == ErrorKind::OutOfMemory => Err(AllocError),
        Err(_) => Ok(Vec::new(rt.alloc())),
    }
}

/// The three files that a command may read. Each is opened when it is read.
#[derive(Drop)]
pub struct Inputs<'a, R: Files> {
    pub first: FileSource<'a, R>,
    pub second: FileSource<'a, R>,
    pub third: FileSource<'a, R>,
}

impl<'a, R: Files> Inputs<'a, R> {
    /// Those whose paths are the second, the third and the fourth of the words; an empty input where there is no such
    /// word.
    pub fn of(rt: &'a R, words: &[&'a str]) -> Inputs<'a, R>
        ensures first { result.first ≡ record {
          path = slice_index_or (map (λ word. word.now) words.now) 1 [];
          opening = Untried;
          past = no_past;
          faults = 0;
        } }
        ensures second { result.second ≡ record {
          path = slice_index_or (map (λ word. word.now) words.now) 2 [];
          opening = Untried;
          past = no_past;
          faults = 0;
        } }
        ensures third { result.third ≡ record {
          path = slice_index_or (map (λ word. word.now) words.now) 3 [];
          opening = Untried;
          past = no_past;
          faults = 0;
        } }
    {
        Inputs {
            first: FileSource::of(rt, word_at(words, 1)),
            second: FileSource::of(rt, word_at(words, 2)),
            third: FileSource::of(rt, word_at(words, 3)),
        }
    }
}

/// The word at an index, and the empty one where there is none.
fn word_at<'a>(words: &[&'a str], index: usize) -> &'a str
    ensures { result.now ≡ slice_index_or (map (λ word. word.now) words.now) index [] }
{
    words.get(index).copied().unwrap_or("")
}
