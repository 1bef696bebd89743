// Joins the reader of a trace and its judge, line by line.

ghost use Rattle.std.specs.Prelude.{◌≡◌, ◌<◌, ◌-◌, ◌^◌, ◌≤◌, ◌∷◌, ◌++◌, [], ℕ, suc, List, Some, None, length, IfOk};
ghost use Rattle.std.specs.Prelude.{MatchResult};
ghost use Rattle.rt_ids.specs.declared.limits.TheConstants.{TRACE_BYTES};
ghost use Rattle.rt_lines.specs.Parts.{lines};
ghost use Rattle.rt_app.specs.Names.{names_of};
ghost use Rattle.rt_app.specs.Tree as tree;
ghost use Rattle.rt_app.specs.View.{app_of};
ghost use Rattle.rt_baker_moves.specs.Machine.{IsMachine};
ghost use Rattle.rt_trace.specs.Reading.{IsTraceRefused};
ghost use Rattle.rt_top.specs.Inside.Auditor.{IsJudgedSoFar, AuditStands, HasAudited, IsJudgedText};

use rt_baker::{Judge, Verdict};
use rt_baker_moves::Machine;
use rt_ids::{Names, NoMemory};
use rt_outside::LineSink;
use rt_trace::{TraceReader, TraceRefused};
use std::marker::{Brand, PhantomData};

/// The application of whose traces an auditor hears. Each audit chooses it.
pub(crate) trait Chosen {
    ghost use Rattle.std.specs.Prelude.{Option};
    ghost use Rattle.rt_app.specs.Tree.{App};

    ghost app: { Option App };
}

impl Chosen for Brand {
    ghost app = { None };
}

/// Judges a trace line by line while it is read. It keeps neither the text nor the items.
#[derive(Drop)]
pub(crate) struct Auditor<'a, A> {
    names: &'a Names,
    machine: &'a Machine<'a>,
    reader: TraceReader,
    judge: Judge<'a>,
    /// Why the lines are no trace, once one is wrong. Those after it are passed over.
    refused: Option<TraceRefused>,
    of: PhantomData<A>,
}

impl<'a, A: Chosen> Auditor<'a, A> {
    /// An auditor to whom no line came yet.
    pub(crate) fn new(
        names: &'a Names,
        machine: &'a Machine<'a>,
    ) -> Result<Auditor<'a, A>, NoMemory>
        requires machine { IsMachine machine.now }
        requires chosen { A.app ≡ Some (app_of machine.now.code.now.app.now) }
        requires names { names.now ≡ names_of (app_of machine.now.code.now.app.now) }
        ensures { IfOk result (λ a. HasAudited A.app a.names.now a.machine.now a.reader a.judge a.refused []) }
    {
        let judge = Judge::new(machine)?;
        Ok(Auditor {
            names,
            machine,
            reader: TraceReader::new(),
            judge,
            refused: None,
            of: PhantomData,
        })
    }

    /// The verdict on the text whose lines came, so many, and how many items it tells; or why it is no trace. No line
    /// may come from then on.
    pub(crate) fn end(&mut self, count: u32) -> Result<(Verdict, u64), TraceRefused>
        requires follows { IsMachine self.old.machine.now }
        requires few { count < 2 ^ 32 - 1 }
        ensures { (app : tree.App) (text : List ℕ) → A.app ≡ Some app → length text ≤ TRACE_BYTES
            → length (lines text) ≡ count
            → HasAudited A.app self.old.names.now self.old.machine.now self.old.reader self.old.judge self.old.refused
            (lines text)
            → MatchResult result (λ both. IsJudgedText app text both.0 both.1)
            (λ refusal. IsTraceRefused (names_of app) text refusal) }
    {
        match self.refused {
            Some(refusal) => Err(refusal),
            None => match self.reader.end(count) {
                Ok(total) => {
                    let items = self.judge.count();
                    Ok((self.judge.verdict(self.machine, total), items))
                }
                Err(refusal) => Err(refusal),
            },
        }
    }
}

/// Reads the next line, of this number, and judges the item that it tells. The refusal of the line, where it is wrong.
fn audit_line<'a>(
    reader: &mut TraceReader,
    judge: &mut Judge<'a>,
    names: &Names,
    machine: &Machine<'a>,
    number: u32,
    line: &[u8],
) -> Result<Option<TraceRefused>, NoMemory>
    requires follows { IsMachine machine.now }
    requires goes { (ls : List (List ℕ)) × (suc (length ls) ≡ number)
        × IsJudgedSoFar (app_of machine.now.code.now.app.now) names.now ls reader.old judge.old }
    ensures { let app = app_of machine.now.code.now.app.now in
        IfOk result (λ refused. (ls : List (List ℕ)) → suc (length ls) ≡ number
        → IsJudgedSoFar app names.now ls reader.old judge.old
        → AuditStands app names.now (ls ++ line.now ∷ []) reader.new judge.new refused) }
{
    match reader.take(names, number, line) {
        Ok(None) => Ok(None),
        Ok(Some(item)) => {
            judge.take(machine, &item)?;
            Ok(None)
        }
        Err(refusal) => Ok(Some(refusal)),
    }
}

impl<A: Chosen> LineSink for Auditor<'_, A> {
    ghost came = { λ a ls. HasAudited A.app a.names.now a.machine.now a.reader a.judge a.refused ls };

    fn take(&mut self, number: u32, line: &[u8]) -> Result<(), NoMemory> {
        match self.refused {
            Some(_) => Ok(()),
            None => {
                self.refused = audit_line(
                    &mut self.reader,
                    &mut self.judge,
                    self.names,
                    self.machine,
                    number,
                    line,
                )?;
                Ok(())
            }
        }
    }
}
