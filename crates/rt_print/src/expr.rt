// Prints expressions.

ghost use Rattle.std.specs.Prelude.{◌≡◌, ◌++◌, codes, OnOk};
ghost use Rattle.rt_ast.specs.View.{expression_of};
ghost use Rattle.rt_ast.specs.CanonicalExpression.{sign_text, operand_text, expression_text};

use crate::text::push_name;
use rt_ast::Expr;
use rt_ids::{NoMemory, Op, push_bytes, push_number};

/// The sign of an operation.
fn sign(op: Op) -> &'static [u8]
    ensures { result.now ≡ sign_text op }
{
    match op {
        Op::Add => b"+",
        Op::Sub => b"-",
        Op::Mul => b"*",
        Op::Div => b"/",
        Op::Rem => b"%",
        Op::And => b"&",
        Op::Or => b"|",
        Op::Xor => b"^",
        Op::Shl => b"<<",
        Op::Shr => b">>",
        Op::Eq => b"==",
        Op::Ne => b"!=",
        Op::Lt => b"<",
        Op::Le => b"<=",
        Op::Gt => b">",
        Op::Ge => b">=",
    }
}

/// Appends the sign of an operation between two spaces.
fn push_sign(out: &mut Vec<u8>, op: Op) -> Result<(), NoMemory>
    ensures { OnOk result (out.new.items ≡ out.old.items ++ (codes " " ++ sign_text op ++ codes " ")) }
{
    push_bytes(out, b" ")?;
    push_bytes(out, sign(op))?;
    push_bytes(out, b" ")
}

/// Appends an operand, in parentheses where it is itself an operation.
fn push_operand(out: &mut Vec<u8>, operand: &Expr) -> Result<(), NoMemory>
    ensures { OnOk result (out.new.items ≡ out.old.items ++ operand_text (expression_of operand.now)) }
{
    match operand {
        Expr::Num(number) => push_number(out, *number),
        Expr::Read(ident) => push_name(out, ident),
        Expr::Oper(op, left, right) => {
            push_bytes(out, b"(")?;
            push_operand(out, left)?;
            push_sign(out, *op)?;
            push_operand(out, right)?;
            push_bytes(out, b")")
        }
    }
}

/// Appends an expression.
pub(crate) fn push_expression(out: &mut Vec<u8>, expr: &Expr) -> Result<(), NoMemory>
    ensures { OnOk result (out.new.items ≡ out.old.items ++ expression_text (expression_of expr.now)) }
{
    match expr {
        Expr::Num(number) => push_number(out, *number),
        Expr::Read(ident) => push_name(out, ident),
        Expr::Oper(op, left, right) => {
            push_operand(out, left)?;
            push_sign(out, *op)?;
            push_operand(out, right)
        }
    }
}
