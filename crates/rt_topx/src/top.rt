// The top call, with the promise of the program.

ghost use Rattle.std.specs.Prelude.{◌≡◌, ◌≤◌, ◌⊎◌, [], length};
ghost use Rattle.rt_outside.specs.Faults.{Rose};
ghost use Rattle.rt_outside.specs.Bytes.{Took};
ghost use Rattle.rt_top.specs.Words.{texts};
ghost use Rattle.rt_top.specs.Program.{inputs};
ghost use Rattle.rt_top.specs.Defined.{IsCommand, IsDue, IsAnswer, Skips, ComesTo, WroteAll, WrotePart};
ghost use Rattle.rt_top.specs.Ends.{Wrote, IsKept};
ghost use Rattle.rt_top.specs.Reads.{given_by, IsReadWithin};
ghost use Rattle.rt_topx.specs.declared.command.Command.{Command};
ghost use Rattle.rt_topx.specs.Words.{NamesCommand, usage_line};
ghost use Rattle.rt_topx.specs.Kinds.{TextKind, kinds_of, most_bytes};
ghost use Rattle.rt_topx.specs.Rticx.{rticx_program};

use crate::command::command_of;
use crate::decide::decide;
use rt_devices::Gate;
use rt_ids::Status;
use rt_outside::{Sink, Source};
use rt_top::reply::answer;
use std::alloc::Global;
use std::thread::Threads;

/// The line for words that are no command.
const USAGE: &[u8] =
    b"usage: rticx run APP BOARD SCRIPT | audit APP BOARD TRACE | live APP BOARD SCRIPT | native APP BOARD \
| why IMAGE | cycles APP | bounds IMAGE [LIMITS] | respond APP LIMITS\n";

/// Runs the command that the words name, and answers its status. `first` is the source of the application, of `why`
/// and `bounds` that of the listing, `second` that of the board or the limits, `third` that of the script or the trace.
/// All that is written goes to `out`. `rt` starts the threads of `live`; `gate` is a seam for tests. What is written is
/// promised of the texts that the sources have given in this call, whatever they are: files, or memory. The statuses
/// are those of `Status`, whose numbers are the exit statuses.
pub fn rticx<R: Threads + Sync, A: Source, B: Source, C: Source, K: Sink + Send, G: Gate + Sync>(
    rt: &R,
    alloc: Global,
    words: &[&str],
    first: &mut A,
    second: &mut B,
    third: &mut C,
    out: &mut K,
    gate: &G,
) -> Status
    // With an answer all that is defined for the texts that were given was written, and nothing else. What is defined
    // is in specs/Outputs.antt: of an image that it is good beside the devices of the board, so for every list of
    // events and words a run of Baker's machine beside devices.
    ensures answered { (c : Command) → NamesCommand (texts words.now) c → IsAnswer result →
        let t = inputs (given_by A.past first.old first.new) (given_by B.past second.old second.new)
        (given_by C.past third.old third.new) in
        WroteAll rticx_program c t result (K.taken out.old) (K.taken out.new) }

    // Where nothing failed, the status is the one that is due, or memory was wanted.
    ensures complete { (c : Command) (due : Status) → NamesCommand (texts words.now) c →
        let t = inputs (given_by A.past first.old first.new) (given_by B.past second.old second.new)
        (given_by C.past third.old third.new) in
        IsDue rticx_program c t due →
        ¬ Rose (A.faults first.old) (A.faults first.new) → ¬ Rose (B.faults second.old) (B.faults second.new) →
        ¬ Rose (C.faults third.old) (C.faults third.new) → ¬ Rose (K.faults out.old) (K.faults out.new) →
        (result ≡ due) ⊎ (result ≡ Status.Memory) }

    // Words that are no command give the usage line.
    ensures usage { ¬ IsCommand rticx_program (texts words.now) →
        Wrote (K.taken out.old) (K.taken out.new) (K.faults out.old) (K.faults out.new)
        Status.Usage result usage_line }
    ensures no_usage { result ≡ Status.Usage → ¬ IsCommand rticx_program (texts words.now) }

    // A source that the command does not come to gives nothing and keeps what it has, whatever the status.
    ensures first_unread { let t = inputs (given_by A.past first.old first.new) (given_by B.past second.old second.new)
        (given_by C.past third.old third.new) in
        Skips rticx_program 0 (texts words.now) t → IsKept A.past A.left A.faults first.old first.new }
    ensures second_unread { let t = inputs (given_by A.past first.old first.new) (given_by B.past second.old second.new)
        (given_by C.past third.old third.new) in
        Skips rticx_program 1 (texts words.now) t → IsKept B.past B.left B.faults second.old second.new }
    ensures third_unread { let t = inputs (given_by A.past first.old first.new) (given_by B.past second.old second.new)
        (given_by C.past third.old third.new) in
        Skips rticx_program 2 (texts words.now) t → IsKept C.past C.left C.faults third.old third.new }

    // With an answer each source that the command comes to was read to its end, or up to one byte more than its text
    // may have.
    ensures first_read { (c : Command) (kind : TextKind) → NamesCommand (texts words.now) c →
        let t = inputs (given_by A.past first.old first.new) (given_by B.past second.old second.new)
        (given_by C.past third.old third.new) in
        ComesTo rticx_program 0 c t kind → IsAnswer result →
        IsReadWithin (most_bytes kind) A.past A.left first.old first.new }
    ensures second_read { (c : Command) (kind : TextKind) → NamesCommand (texts words.now) c →
        let t = inputs (given_by A.past first.old first.new) (given_by B.past second.old second.new)
        (given_by C.past third.old third.new) in
        ComesTo rticx_program 1 c t kind → IsAnswer result →
        IsReadWithin (most_bytes kind) B.past B.left second.old second.new }
    ensures third_read { (c : Command) (kind : TextKind) → NamesCommand (texts words.now) c →
        let t = inputs (given_by A.past first.old first.new) (given_by B.past second.old second.new)
        (given_by C.past third.old third.new) in
        ComesTo rticx_program 2 c t kind → IsAnswer result →
        IsReadWithin (most_bytes kind) C.past C.left third.old third.new }

    // A source that the command reads failed, and then no source after it was read and nothing was written.
    ensures read { result ≡ Status.Read → (c : Command) × NamesCommand (texts words.now) c
        × (((1 ≤ length (kinds_of c)) × Rose (A.faults first.old) (A.faults first.new)
        × IsKept B.past B.left B.faults second.old second.new × IsKept C.past C.left C.faults third.old third.new)
        ⊎ ((2 ≤ length (kinds_of c)) × Rose (B.faults second.old) (B.faults second.new)
        × IsKept C.past C.left C.faults third.old third.new)
        ⊎ ((3 ≤ length (kinds_of c)) × Rose (C.faults third.old) (C.faults third.new))) }
    ensures silent { (result ≡ Status.Read) ⊎ (result ≡ Status.Memory) → Took (K.taken out.old) (K.taken out.new) [] }

    // A fault is told: where one came, the status says so.
    ensures first_heard { (A.faults first.new ≡ A.faults first.old) ⊎ (result ≡ Status.Read) }
    ensures second_heard { (B.faults second.new ≡ B.faults second.old) ⊎ (result ≡ Status.Read) }
    ensures third_heard { (C.faults third.new ≡ C.faults third.old) ⊎ (result ≡ Status.Read) }
    ensures sink_heard { (K.faults out.new ≡ K.faults out.old) ⊎ (result ≡ Status.Write) }

    // The sink failed, having taken a beginning of what is defined.
    ensures write { result ≡ Status.Write → Rose (K.faults out.old) (K.faults out.new) }
    ensures part { (c : Command) → NamesCommand (texts words.now) c → result ≡ Status.Write →
        let t = inputs (given_by A.past first.old first.new) (given_by B.past second.old second.new)
        (given_by C.past third.old third.new) in
        WrotePart rticx_program c t (K.taken out.old) (K.taken out.new) }
{
    match command_of(words) {
        Some(command) => decide(rt, alloc, command, first, second, third, out, gate),
        None => answer(out, USAGE, Status::Usage),
    }
}
