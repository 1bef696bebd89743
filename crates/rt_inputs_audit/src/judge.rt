// The judge of the lines of a trace with inputs, and its verdict.

ghost use Rattle.std.specs.Prelude.{◌≡◌, ◌++◌, ◌∷◌, [], List, OnOk, IfOk, length};
ghost use Rattle.rt_app.specs.Tree.{App};
ghost use Rattle.rt_app.specs.View.{app_of};
ghost use Rattle.rt_baker_moves.specs.Machine.{IsMachine};
ghost use Rattle.rt_board.specs.Board as boards;
ghost use Rattle.rt_board.specs.Board.{AreInputs};
ghost use Rattle.rt_inputs.specs.Shown.{ShownLine};
ghost use Rattle.rt_inputs_audit.specs.Audit.{IsVerdictBeside};
ghost use Rattle.rt_inputs_audit.specs.Judging.{HasJudged, MayTake};
ghost use Rattle.rt_inputs_audit.specs.Reading.{shown_of};

use crate::followed::Followed;
use crate::line::TraceLine;
use rt_baker::Verdict;
use rt_baker::judge::stack_bytes;
use rt_baker_moves::Machine;
use rt_board::Board;
use rt_ids::NoMemory;

/// Baker's machine beside devices on the lines of a trace, one after another. It keeps no line, so a trace can be
/// judged while it is read.
#[derive(Drop)]
pub struct InputsJudge<'a> {
    /// Where the lines that are right have led.
    followed: Followed<'a>,
    /// The bytes of the stack.
    stack: u32,
    /// How many lines came.
    lines: u32,
    /// The index of the first wrong line, from 0, once one came.
    wrong: Option<u32>,
}

impl<'a> InputsJudge<'a> {
    /// A judge to whom no line came yet.
    pub fn new(machine: &Machine<'a>) -> Result<InputsJudge<'a>, NoMemory>
        requires { IsMachine machine.now }
        ensures { IfOk result (λ judge. (b : boards.Board)
            → HasJudged (app_of machine.now.code.now.app.now) b [] judge) }
    {
        let stack = stack_bytes(machine)?;
        let followed = Followed::new(machine)?;
        Ok(InputsJudge {
            followed,
            stack,
            lines: 0,
            wrong: None,
        })
    }

    /// The next line is judged. After a wrong one it is only counted. On an `Err` nothing is known of the judge from
    /// then on.
    pub fn take(
        &mut self,
        machine: &Machine<'a>,
        board: &Board,
        line: &TraceLine,
    ) -> Result<(), NoMemory>
        requires machine { IsMachine machine.now }
        requires judged { MayTake (app_of machine.now.code.now.app.now) board.now self.old }
        ensures { let app = app_of machine.now.code.now.app.now in
            OnOk result ((lines : List ShownLine) → HasJudged app board.now lines self.old
            → HasJudged app board.now (lines ++ shown_of line.now ∷ []) self.new) }
    {
        let index = self.lines;
        self.lines = index + 1;
        if self.wrong.is_some() {
            return Ok(());
        }
        let came = self.followed.line(machine, board, self.stack, line)?;
        if came {
            return Ok(());
        }
        self.wrong = Some(index);
        Ok(())
    }

    /// The verdict on the lines that came, as a trace that states this total of core steps, or none. Silent steps come
    /// up to it, so no line may come from then on.
    pub fn verdict(&mut self, machine: &Machine<'a>, total: Option<u64>) -> Verdict
        requires { IsMachine machine.now }
        ensures { let app = app_of machine.now.code.now.app.now in
            (b : boards.Board) → AreInputs app b.inputs → (lines : List ShownLine) → HasJudged app b lines self.old
            → IsVerdictBeside app b lines total result }
    {
        match self.wrong {
            Some(index) => Verdict::No(u64::from(index) + 1),
            None => {
                if self.followed.ends(machine, total) {
                    return Verdict::Yes;
                }
                Verdict::No(u64::from(self.lines) + 1)
            }
        }
    }

    /// How many lines came.
    pub fn count(&self) -> u64
        ensures { (app : App) (b : boards.Board) (lines : List ShownLine) → HasJudged app b lines self.now
            → result ≡ length lines }
    {
        u64::from(self.lines)
    }
}
