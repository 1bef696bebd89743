// An auditor of traces with inputs: it hears one line after another, and says the verdict at the end.

ghost use Rattle.std.specs.Prelude.{◌≡◌, ◌<◌, ◌-◌, ◌^◌, ◌≤◌, ◌∷◌, ◌++◌, [], ℕ, suc, List, Some, None, length, IfOk};
ghost use Rattle.std.specs.Prelude.{MatchResult};
ghost use Rattle.rt_ids.specs.declared.limits.TheConstants.{TRACE_BYTES};
ghost use Rattle.rt_lines.specs.Parts.{lines};
ghost use Rattle.rt_app.specs.Names.{names_of};
ghost use Rattle.rt_app.specs.Tree as tree;
ghost use Rattle.rt_app.specs.View.{app_of};
ghost use Rattle.rt_baker_moves.specs.Machine.{IsMachine};
ghost use Rattle.rt_board.specs.Board as boards;
ghost use Rattle.rt_board.specs.Board.{AreInputs};
ghost use Rattle.rt_inputs_audit.specs.Auditor.{IsJudgedSoFar, AuditStands, HasAudited, IsJudgedText};
ghost use Rattle.rt_inputs_audit.specs.Reading.{IsRefused};

use crate::judge::InputsJudge;
use crate::reader::InputsReader;
use crate::refusal::InputsRefused;
use rt_baker::Verdict;
use rt_baker_moves::Machine;
use rt_board::Board;
use rt_ids::{Names, NoMemory};
use rt_outside::LineSink;
use std::marker::{Brand, PhantomData};

/// The application and the board of whose traces an auditor hears. Each audit chooses them.
pub trait Chosen {
    ghost use Rattle.std.specs.Prelude.{Option};
    ghost use Rattle.rt_app.specs.Tree.{App};
    ghost use Rattle.rt_board.specs.Board.{Board};

    ghost app: { Option App };

    ghost board: { Option Board };
}

impl Chosen for Brand {
    ghost app = { None };

    ghost board = { None };
}

/// Judges a trace with inputs line by line while it is read. It keeps neither the text nor what it shows.
#[derive(Drop)]
pub struct InputsAuditor<'a, A> {
    names: &'a Names,
    machine: &'a Machine<'a>,
    board: &'a Board,
    reader: InputsReader,
    judge: InputsJudge<'a>,
    /// Why the lines are no trace with inputs, once one is wrong. Those after it are passed over.
    refused: Option<InputsRefused>,
    of: PhantomData<A>,
}

impl<'a, A: Chosen> InputsAuditor<'a, A> {
    /// An auditor to whom no line came yet.
    pub fn new(
        names: &'a Names,
        machine: &'a Machine<'a>,
        board: &'a Board,
    ) -> Result<InputsAuditor<'a, A>, NoMemory>
        requires machine { IsMachine machine.now }
        requires chosen { A.app ≡ Some (app_of machine.now.code.now.app.now) }
        requires on { A.board ≡ Some board.now }
        requires inputs { AreInputs (app_of machine.now.code.now.app.now) board.now.inputs }
        requires names { names.now ≡ names_of (app_of machine.now.code.now.app.now) }
        ensures { IfOk result (λ a. HasAudited A.app A.board a.names.now a.machine.now a.board.now a.reader a.judge
            a.refused []) }
    {
        let judge = InputsJudge::new(machine)?;
        Ok(InputsAuditor {
            names,
            machine,
            board,
            reader: InputsReader::new(),
            judge,
            refused: None,
            of: PhantomData,
        })
    }

    /// The verdict on the text whose lines came, so many, and how many lines of items and inputs it has; or why it is
    /// no trace with inputs. No line may come from then on.
    pub fn end(&mut self, count: u32) -> Result<(Verdict, u64), InputsRefused>
        requires follows { IsMachine self.old.machine.now }
        requires few { count < 2 ^ 32 - 1 }
        ensures { (app : tree.App) (b : boards.Board) (text : List ℕ) → A.app ≡ Some app → A.board ≡ Some b
            → length text ≤ TRACE_BYTES → length (lines text) ≡ count
            → HasAudited A.app A.board self.old.names.now self.old.machine.now self.old.board.now self.old.reader
            self.old.judge self.old.refused (lines text)
            → MatchResult result (λ both. IsJudgedText app b text both.0 both.1)
            (λ refusal. IsRefused (names_of app) app b text refusal) }
    {
        match self.refused {
            Some(refusal) => Err(refusal),
            None => match self.reader.end() {
                Ok(total) => {
                    let lines = self.judge.count();
                    Ok((self.judge.verdict(self.machine, total), lines))
                }
                Err(cause) => Err(InputsRefused::Wrong {
                    line: count + 1,
                    cause,
                }),
            },
        }
    }
}

/// Reads the next line, of this number, and judges what it shows. The refusal of the line, where it is wrong.
fn audit_line<'a>(
    reader: &mut InputsReader,
    judge: &mut InputsJudge<'a>,
    names: &Names,
    machine: &Machine<'a>,
    board: &Board,
    number: u32,
    line: &[u8],
) -> Result<Option<InputsRefused>, NoMemory>
    requires follows { IsMachine machine.now }
    requires inputs { AreInputs (app_of machine.now.code.now.app.now) board.now.inputs }
    requires goes { (ls : List (List ℕ)) × (suc (length ls) ≡ number)
        × IsJudgedSoFar (app_of machine.now.code.now.app.now) board.now names.now ls reader.old judge.old }
    ensures { let app = app_of machine.now.code.now.app.now in
        IfOk result (λ refused. (ls : List (List ℕ)) → suc (length ls) ≡ number
        → IsJudgedSoFar app board.now names.now ls reader.old judge.old
        → AuditStands app board.now names.now (ls ++ line.now ∷ []) reader.new judge.new refused) }
{
    match reader.take(names, machine.code.app, board, line) {
        Ok(None) => Ok(None),
        Ok(Some(shown)) => {
            judge.take(machine, board, &shown)?;
            Ok(None)
        }
        Err(cause) => Ok(Some(InputsRefused::Wrong {
            line: number,
            cause,
        })),
    }
}

impl<A: Chosen> LineSink for InputsAuditor<'_, A> {
    ghost came = { λ a ls. HasAudited A.app A.board a.names.now a.machine.now a.board.now a.reader a.judge a.refused
        ls };

    fn take(&mut self, number: u32, line: &[u8]) -> Result<(), NoMemory> {
        match self.refused {
            Some(_) => Ok(()),
            None => {
                self.refused = audit_line(
                    &mut self.reader,
                    &mut self.judge,
                    self.names,
                    self.machine,
                    self.board,
                    number,
                    line,
                )?;
                Ok(())
            }
        }
    }
}
