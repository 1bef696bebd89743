// The program `rticx`: its words, files and standard output go to the top call, whose status is the exit status. What
// no contract says, and what is trusted here: that the runtime gives the words after the program's name, and that a
// read, an opening and a write of the system do what they answer.
// Promises: the exit status is the number of the status that is due, and with an answer all that is defined was written
// (`conduct`).
// Stands on: rt_ids, rt_outside, rt_files, rt_top, rt_topx.
// Read next: src/main.rt; docs/ARCHITECTURE.md for the way from here on.
#![tactic(auto)]

ghost use Rattle.std.specs.Prelude.{◌≡◌, ◌⊎◌};
ghost use Rattle.std.specs.Process as process;
ghost use Rattle.rt_ids.specs.Status as number;
ghost use Rattle.rt_outside.specs.Faults.{Rose};
ghost use Rattle.rt_outside.specs.Bytes.{given_since, Took, TookPrefix};
ghost use Rattle.rt_top.specs.Words.{texts};
ghost use Rattle.rt_top.specs.Program.{inputs};
ghost use Rattle.rt_top.specs.Defined.{IsCommand, IsAnswer, IsDue, WroteAll};
ghost use Rattle.rt_topx.specs.declared.command.Command.{Command};
ghost use Rattle.rt_topx.specs.Rticx.{rticx_program};
ghost use Rattle.rt_topx.specs.Words.{NamesCommand, usage_line};

use rt_files::{Inputs, exit_code, own_words};
use rt_ids::Status;
use rt_outside::OutSink;
use rt_top::NoGate;
use rt_topx::rticx;
use std::alloc::{AllocError, Global};
use std::process::ExitCode;
use std::rt::Files;
use std::thread::Threads;

fn main(rt: HostRuntime) -> ExitCode {
    match own_words(&rt) {
        Ok(words) => run(&rt, &words),
        Err(AllocError) => exit_code(Status::Memory),
    }
}

/// Runs the command that the words name, on the files that they name and on standard output.
fn run<R: Threads + Sync + Files + Print + AllocGlobal>(rt: &R, words: &[String]) -> ExitCode {
    let alloc: Global = rt.alloc();
    let Ok(texts) = words
        .iter()
        .map(|word| word.as_str())
        .collect::<Vec<&str>>(alloc)
    else {
        return exit_code(Status::Memory);
    };
    let mut files = Inputs::of(rt, &texts);
    conduct(rt, alloc, &texts, &mut files, &mut OutSink::of(rt))
}

/// Runs the command that the words name on these files. The exit status is the number of the status that is due for the
/// bytes that their reads gave, where nothing failed and no memory was wanted.
fn conduct<R: Threads + Sync + Files + Print>(
    rt: &R,
    alloc: Global,
    words: &[&str],
    files: &mut Inputs<'_, R>,
    out: &mut OutSink<'_, R>,
) -> ExitCode
    // With an answer as the exit status, all that is defined for those bytes was written, and nothing else.
    ensures answered { (c : Command) (status : Status) → NamesCommand (texts words.now) c →
        process.exit_status result ≡ number.exit_status status → IsAnswer status →
        let t = inputs (given_since files.old.first.past files.new.first.past)
        (given_since files.old.second.past files.new.second.past)
        (given_since files.old.third.past files.new.third.past) in
        WroteAll rticx_program c t status out.old.taken out.new.taken }

    // Where no opening, read or write failed, it is the one that is due, or that of want of memory.
    ensures complete { (c : Command) (due : Status) → NamesCommand (texts words.now) c →
        let t = inputs (given_since files.old.first.past files.new.first.past)
        (given_since files.old.second.past files.new.second.past)
        (given_since files.old.third.past files.new.third.past) in
        IsDue rticx_program c t due →
        ¬ Rose files.old.first.faults files.new.first.faults → ¬ Rose files.old.second.faults files.new.second.faults →
        ¬ Rose files.old.third.faults files.new.third.faults → ¬ Rose out.old.faults out.new.faults →
        (process.exit_status result ≡ number.exit_status due)
        ⊎ (process.exit_status result ≡ number.exit_status Status.Memory) }

    // Words that are no command have the usage line written.
    ensures usage { ¬ IsCommand rticx_program (texts words.now) →
        ((process.exit_status result ≡ number.exit_status Status.Usage)
        × Took out.old.taken out.new.taken usage_line)
        ⊎ ((process.exit_status result ≡ number.exit_status Status.Write)
        × Rose out.old.faults out.new.faults × TookPrefix out.old.taken out.new.taken usage_line) }
{
    let status = rticx(
        rt,
        alloc,
        words,
        &mut files.first,
        &mut files.second,
        &mut files.third,
        out,
        &NoGate,
    );
    exit_code(status)
}
