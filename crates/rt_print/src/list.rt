// Lists, with a comma between each two items.
ghost use Rattle.std.specs.Prelude.{◌≡◌, ◌++◌, ℕ, List, map, OnOk};
ghost use Rattle.rt_ast.specs.View.{expression_of};
ghost use Rattle.rt_ast.specs.CanonicalExpression.{further, separated_list, name_text, expression_text};
ghost use Rattle.rt_ast.specs.CanonicalOptions.{bracketed_list};
ghost use Rattle.rt_ast.specs.Canonical.{braced_list};

use crate::expr::push_expression;
use crate::text::push_name;
use rt_ast::{Expr, Ident};
use rt_ids::{NoMemory, push_bytes};

/// An item of a list.
pub(crate) trait ListItem {
    /// Its text.
    ghost text: { Self → List ℕ };

    /// Appends its text.
    fn push(&self, out: &mut Vec<u8>) -> Result<(), NoMemory>
        ensures { OnOk result (out.new.items ≡ out.old.items ++ text self.now) };
}

impl ListItem for Ident {
    ghost text = { name_text };

    fn push(&self, out: &mut Vec<u8>) -> Result<(), NoMemory> {
        push_name(out, self)
    }
}

impl ListItem for Expr {
    ghost text = { λ expr. expression_text (expression_of expr) };

    fn push(&self, out: &mut Vec<u8>) -> Result<(), NoMemory> {
        push_expression(out, self)
    }
}

/// Appends items, each after a comma.
fn push_further<T: ListItem>(out: &mut Vec<u8>, items: &[T]) -> Result<(), NoMemory>
    ensures { OnOk result (out.new.items ≡ out.old.items ++ further T.text items.now) }
{
    for item in items {
        push_bytes(out, b", ")?;
        item.push(out)?;
    }
    Ok(())
}

/// Appends items with a comma between each two.
pub(crate) fn push_separated<T: ListItem>(out: &mut Vec<u8>, items: &[T]) -> Result<(), NoMemory>
    ensures { OnOk result (out.new.items ≡ out.old.items ++ separated_list T.text items.now) }
{
    match items.split_first() {
        Some((first, rest)) => {
            first.push(out)?;
            push_further(out, rest)
        }
        None => Ok(()),
    }
}

/// Appends expressions with a comma between each two.
pub(crate) fn push_expressions(out: &mut Vec<u8>, exprs: &[Expr]) -> Result<(), NoMemory>
    ensures { OnOk result (out.new.items ≡ out.old.items ++ separated_list expression_text
        (map expression_of exprs.now)) }
{
    push_separated(out, exprs)
}

/// Appends items in brackets.
pub(crate) fn push_bracketed<T: ListItem>(out: &mut Vec<u8>, items: &[T]) -> Result<(), NoMemory>
    ensures { OnOk result (out.new.items ≡ out.old.items ++ bracketed_list T.text items.now) }
{
    push_bytes(out, b"[")?;
    push_separated(out, items)?;
    push_bytes(out, b"]")
}

/// Appends items in braces.
pub(crate) fn push_enclosed<T: ListItem>(out: &mut Vec<u8>, items: &[T]) -> Result<(), NoMemory>
    ensures { OnOk result (out.new.items ≡ out.old.items ++ braced_list T.text items.now) }
{
    if items.is_empty() {
        return push_bytes(out, b"{}");
    }
    push_bytes(out, b"{ ")?;
    push_separated(out, items)?;
    push_bytes(out, b" }")
}
