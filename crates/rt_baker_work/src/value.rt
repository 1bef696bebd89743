// The value of an expression.

ghost use Rattle.std.specs.Prelude.{◌≡◌, slice_index};
ghost use Rattle.rt_app.specs.View.{expression_of};
ghost use Rattle.rt_app.specs.Meaning.{read, value_in};
ghost use Rattle.rt_baker_work.specs.Store.{contents};

use crate::store::Store;
use rt_app::{Atom, Expr};

/// The value of a variable; one that the body does not have reads as 0.
fn variable_value(vars: &[u32], variable: u16) -> u32
    ensures { result ≡ slice_index vars.now variable }
{
    vars.get(usize::from(variable)).copied().unwrap_or(0)
}

/// What a name stands for.
fn read(atom: Atom, vars: &[u32], store: &Store) -> u32
    ensures { result ≡ read vars.now (contents store.now) atom }
{
    match atom {
        Atom::Var(variable) => variable_value(vars, variable),
        Atom::Shared(resource) => store.shared_value(resource),
        Atom::Local(local) => store.local(local),
    }
}

/// The value of an expression.
pub(crate) fn value(expr: &Expr, vars: &[u32], store: &Store) -> u32
    ensures { result ≡ value_in vars.now (contents store.now) (expression_of expr.now) }
{
    match expr {
        Expr::Num(number) => *number,
        Expr::Read(atom, _at) => read(*atom, vars, store),
        Expr::Oper(op, left, right) => op.apply(
            value(left, vars, store),
            value(right, vars, store),
        ),
    }
}
