// The command `fmt`.

ghost use Rattle.std.specs.Prelude.{ℕ, List};
ghost use Rattle.rt_top.specs.Kinds as kind;
ghost use Rattle.rt_top.specs.Words as word;
ghost use Rattle.rt_top.specs.Program.{inputs};
ghost use Rattle.rt_top.specs.Rtic.{rtic_program};
ghost use Rattle.rt_top.specs.Reads.{given_by};
ghost use Rattle.rt_top.specs.Inside.Decides.{AnswersOne};
ghost use Rattle.rt_top.specs.Inside.Using.{HasUse};

use crate::reading::read_tree;
use crate::reply::{Reply, reply_of_text};
use rt_ids::Status;
use rt_outside::Source;
use rt_print::canonical;
use std::alloc::Global;

/// `fmt APP`: the canonical text of the application.
pub(crate) fn fmt<S: Source>(alloc: Global, source: &mut S) -> Reply
    ensures { (second third : List ℕ) → let gave = given_by S.past source.old source.new in
        AnswersOne rtic_program word.Fmt kind.Tree (inputs gave second third) gave
        (HasUse S.past S.left S.faults source.old source.new) result }
{
    match read_tree(alloc, source) {
        Ok(written) => reply_of_text(Status::Done, canonical(alloc, &written.tree)),
        Err(reply) => reply,
    }
}
