// The variables of loops, which nothing may assign.

ghost use Rattle.std.specs.Prelude.{◌≡◌, ◌==◌, ◌||◌, ℕ, OnOk};
ghost use Rattle.std.specs.List.{list_any};
ghost use Rattle.rt_app.specs.View.{statement_of, block_of};
ghost use Rattle.rt_app.specs.Use.{statement_loops, loops};
ghost use Rattle.rt_rules.specs.Inside.Tables.{has};

use crate::numbers::Numbers;
use rt_app::Stmt;
use rt_ids::NoMemory;

/// Puts in the variables of the `for` statements of a statement.
#[cycle(block)]
fn insert_loop(found: &mut Numbers, stmt: &Stmt) -> Result<(), NoMemory>
    ensures { OnOk result ((k : ℕ) → has found.new k
        ≡ (list_any (λ y. y == k) (statement_loops (statement_of stmt.now)) || has found.old k)) }
{
    match stmt {
        Stmt::Branch(_condition, first, second) => {
            insert_loops(found, first)?;
            insert_loops(found, second)
        }
        Stmt::Repeat(variable, _first, _last, turn) => {
            found.insert(*variable)?;
            insert_loops(found, turn)
        }
        Stmt::Locked(_resource, inner, _at) => insert_loops(found, inner),
        _ => Ok(()),
    }
}

/// Puts in the variables of the `for` statements of a block.
#[cycle(block)]
pub(crate) fn insert_loops(found: &mut Numbers, stmts: &[Stmt]) -> Result<(), NoMemory>
    ensures { OnOk result ((k : ℕ) → has found.new k
        ≡ (list_any (λ y. y == k) (loops (block_of stmts.now)) || has found.old k)) }
{
    for stmt in stmts {
        insert_loop(found, stmt)?;
    }
    Ok(())
}
