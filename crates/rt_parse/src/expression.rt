// The parser of expressions.

ghost use Rattle.std.specs.Prelude.{◌≡◌, ◌≤◌, length, MatchOption, None, Some, Ok, false};
ghost use Rattle.rt_lex.specs.Token.{view};
ghost use Rattle.rt_ast.specs.View.{expression_of};
ghost use Rattle.rt_grammar.specs.Expression.{op_of, comparisons, strengths};
ghost use Rattle.rt_grammar.specs.Reach.{is_of};
ghost use Rattle.rt_parse.specs.Inside.Reading.{GivesRead, Leaves, begins_with};
ghost use Rattle.rt_parse.specs.Inside.ReadingDepth.{joined_measure, atomic};
ghost use Rattle.rt_parse.specs.Inside.ReadingExpression.{joined_operand_at, chains_at, comparison_at, number_atom_at};
ghost use Rattle.rt_parse.specs.Inside.ReadingExpression.{name_atom_at, parenthesized_expression_at};
ghost use Rattle.rt_parse.specs.Inside.ReadingExpression.{refused_parenthesis_at, nested_expression_at};
ghost use Rattle.rt_parse.specs.Inside.ReadingExpression.{atom_at, expression_at};
ghost use Rattle.rt_parse.specs.Inside.ExpressionView.{signs_of, strengths_from, stronger_than, is_of_some, IsOperator};
ghost use Rattle.rt_parse.specs.Inside.ExpressionView.{IsAhead, IsCompared, measured_view};

use crate::stop::{Found, Stop};
use crate::tokens::{fault_found, is_byte, is_pair, take_name, take_number, take_sign};
use rt_ast::Expr;
use rt_ids::limits::{DEPTH, PARENTHESES};
use rt_ids::{Limit, Op, Refusal};
use rt_lex::{Kind, Token, Tokens};
use std::alloc::Global;

/// A tree, and its depth, which keeps the limit. The tree is boxed, so that what is on the stack is small.
#[derive(Drop)]
struct Kept {
    tree: Box<Expr>,
    depth: u8,
}

/// An expression as it is read. No tree is kept of one that is too deep, so that no tree is ever deep.
#[derive(Drop)]
struct Measured {
    /// The offset of its first token.
    at: u32,
    kept: Option<Kept>,
}

/// How strongly operators bind, the weakest first, comparisons aside. An atom has no operator.
#[derive(Clone, Copy)]
enum Strength {
    Or,
    Xor,
    And,
    Shift,
    Sum,
    Product,
    Atom,
}

impl Strength {
    /// How many strengths of operators there are from it on.
    fn precedence(self) -> u8
        ensures { result ≡ length (strengths_from self) }
    {
        match self {
            Strength::Or => 6,
            Strength::Xor => 5,
            Strength::And => 4,
            Strength::Shift => 3,
            Strength::Sum => 2,
            Strength::Product => 1,
            Strength::Atom => 0,
        }
    }

    /// The next stronger one.
    fn stronger(self) -> Strength
        ensures { strengths_from result ≡ stronger_than self }
    {
        match self {
            Strength::Or => Strength::Xor,
            Strength::Xor => Strength::And,
            Strength::And => Strength::Shift,
            Strength::Shift => Strength::Sum,
            Strength::Sum => Strength::Product,
            Strength::Product | Strength::Atom => Strength::Atom,
        }
    }
}

/// An operator, comparisons aside, and how strongly it binds.
#[derive(Clone, Copy)]
struct Operator {
    op: Op,
    strength: Strength,
}

/// An operator of this strength.
fn some_operator(op: Op, strength: Strength) -> Option<Operator>
    ensures { result ≡ Some (record { op = op; strength = strength }) }
{
    Some(Operator { op, strength })
}

/// The operator that a token is.
fn operator_of(token: &Token<'_>) -> Option<Operator>
    ensures { MatchOption result (is_of_some strengths (view token.now) ≡ false)
        (λ o. IsOperator o.op o.strength (view token.now)) }
{
    if is_byte(token, b'*') {
        some_operator(Op::Mul, Strength::Product)
    } else if is_byte(token, b'/') {
        some_operator(Op::Div, Strength::Product)
    } else if is_byte(token, b'%') {
        some_operator(Op::Rem, Strength::Product)
    } else if is_byte(token, b'+') {
        some_operator(Op::Add, Strength::Sum)
    } else if is_byte(token, b'-') {
        some_operator(Op::Sub, Strength::Sum)
    } else if is_pair(token, b'<', b'<') {
        some_operator(Op::Shl, Strength::Shift)
    } else if is_pair(token, b'>', b'>') {
        some_operator(Op::Shr, Strength::Shift)
    } else if is_byte(token, b'&') {
        some_operator(Op::And, Strength::And)
    } else if is_byte(token, b'^') {
        some_operator(Op::Xor, Strength::Xor)
    } else if is_byte(token, b'|') {
        some_operator(Op::Or, Strength::Or)
    } else {
        None
    }
}

/// The comparison that a token is.
fn comparison_of(token: &Token<'_>) -> Option<Op>
    ensures { result ≡ op_of comparisons (view token.now) }
{
    if is_pair(token, b'=', b'=') {
        Some(Op::Eq)
    } else if is_pair(token, b'!', b'=') {
        Some(Op::Ne)
    } else if is_byte(token, b'<') {
        Some(Op::Lt)
    } else if is_pair(token, b'<', b'=') {
        Some(Op::Le)
    } else if is_byte(token, b'>') {
        Some(Op::Gt)
    } else if is_pair(token, b'>', b'=') {
        Some(Op::Ge)
    } else {
        None
    }
}

/// The operator that comes next, if it binds so strongly at least.
#[tactic(auto, using(crate::proofs::Operators::ahead))]
fn operator_ahead(tokens: &Tokens<'_>, least: Strength) -> Option<Operator>
    ensures none { result ≡ None → begins_with (is_of_some (strengths_from least)) tokens.now ≡ false }
    ensures ahead { (o : Operator) → result ≡ Some o → IsAhead o.op o.strength tokens.now }
    ensures least { (o : Operator) → result ≡ Some o → length (strengths_from o.strength) ≤ length
        (strengths_from least) }
{
    match tokens.peek() {
        Some(token) => match operator_of(&token) {
            Some(operator) if operator.strength.precedence() <= least.precedence() => Some(
                operator,
            ),
            _ => None,
        },
        None => None,
    }
}

/// The comparison that comes next.
fn comparison_ahead(tokens: &Tokens<'_>) -> Option<Op>
    ensures { MatchOption result (begins_with (is_of comparisons) tokens.now ≡ false)
        (λ op. IsCompared op tokens.now) }
{
    match tokens.peek() {
        Some(token) => comparison_of(&token),
        None => None,
    }
}

/// Both sides of an operator as one.
fn join(alloc: Global, op: Op, left: Measured, right: Measured) -> Result<Measured, Stop>
    ensures { GivesRead measured_view result (Ok (joined_measure op (measured_view left) (measured_view right))) }
{
    let at = left.at;
    let (Some(first), Some(second)) = (left.kept, right.kept) else {
        return Ok(Measured { at, kept: None });
    };
    let depth = 1 + u32::from(first.depth.max(second.depth));
    if depth > DEPTH {
        return Ok(Measured { at, kept: None });
    }
    let tree = Box::new(alloc, Expr::Oper(op, first.tree, second.tree))?;
    let kept = Some(Kept {
        tree,
        depth: depth as u8,
    });
    Ok(Measured { at, kept })
}

/// A tree that is 1 deep.
fn atomic(alloc: Global, at: u32, tree: Expr) -> Result<Measured, Stop>
    ensures { GivesRead measured_view result (Ok (atomic at (expression_of tree))) }
{
    let tree = Box::new(alloc, tree)?;
    Ok(Measured {
        at,
        kept: Some(Kept { tree, depth: 1 }),
    })
}

/// A number as an expression.
#[inline(never)]
#[tactic(auto, unfolding(crate::specs::Inside::ReadingExpression::number_atom_at))]
fn number_atom(alloc: Global, tokens: &mut Tokens<'_>) -> Result<Measured, Stop>
    ensures { Leaves measured_view result tokens.new (number_atom_at tokens.old) }
{
    let number = take_number(tokens)?;
    atomic(alloc, number.at, Expr::Num(number.value))
}

/// A name as an expression.
#[inline(never)]
#[tactic(auto, unfolding(crate::specs::Inside::ReadingExpression::name_atom_at))]
fn name_atom(alloc: Global, tokens: &mut Tokens<'_>) -> Result<Measured, Stop>
    ensures { Leaves measured_view result tokens.new (name_atom_at tokens.old) }
{
    let name = take_name(alloc, tokens, None)?;
    atomic(alloc, name.at, Expr::Read(name))
}

/// An expression in parentheses, where so many more may be opened besides.
#[cycle(expression)]
#[tactic(auto, unfolding(crate::specs::Inside::ReadingExpression::parenthesized_expression_at))]
fn parenthesized_expression(
    alloc: Global,
    tokens: &mut Tokens<'_>,
    more: u32,
) -> Result<Measured, Stop>
    ensures { Leaves measured_view result tokens.new (parenthesized_expression_at (comparison_at (atom_at more))
        tokens.old) }
{
    let at = take_sign(tokens, b"(", None)?;
    let inner = comparison(alloc, tokens, more)?;
    take_sign(tokens, b")", None)?;
    let kept = inner.kept;
    Ok(Measured { at, kept })
}

/// Where no more parentheses may be opened.
#[inline(never)]
#[tactic(auto, unfolding(crate::specs::Inside::ReadingExpression::refused_parenthesis_at))]
fn refused_parenthesis(tokens: &mut Tokens<'_>) -> Result<Measured, Stop>
    ensures { Leaves measured_view result tokens.new (refused_parenthesis_at tokens.old) }
{
    take_sign(tokens, b"(", Some(Limit::Parentheses))?;
    Err(Stop::At(fault_found(tokens)))
}

/// An expression in parentheses, where so many may be opened.
#[cycle(expression)]
#[tactic(auto, unfolding(crate::specs::Inside::ReadingExpression::nested_expression_at))]
fn nested_expression(alloc: Global, tokens: &mut Tokens<'_>, more: u32) -> Result<Measured, Stop>
    ensures { Leaves measured_view result tokens.new (nested_expression_at more tokens.old) }
{
    match more.checked_sub(1) {
        Some(fewer) => parenthesized_expression(alloc, tokens, fewer),
        None => refused_parenthesis(tokens),
    }
}

/// A number, a name, or an expression in parentheses, where so many may be opened.
#[cycle(expression)]
#[tactic(auto, unfolding(crate::specs::Inside::ReadingExpression::atom_or_at))]
fn atom(alloc: Global, tokens: &mut Tokens<'_>, more: u32) -> Result<Measured, Stop>
    ensures { Leaves measured_view result tokens.new (atom_at more tokens.old) }
{
    match tokens.peek() {
        Some(token) if token.kind == Kind::Num => number_atom(alloc, tokens),
        Some(token) if token.kind == Kind::Name => name_atom(alloc, tokens),
        _ => nested_expression(alloc, tokens, more),
    }
}

/// A left side with the operator that comes next, and its right side.
#[cycle(expression)]
#[tactic(auto, unfolding(crate::specs::Inside::ReadingExpression::joined_operand_at))]
fn extend(
    alloc: Global,
    tokens: &mut Tokens<'_>,
    left: Measured,
    operator: Operator,
    more: u32,
) -> Result<Measured, Stop>
    requires { IsAhead operator.op operator.strength tokens.old }
    ensures { Leaves measured_view result tokens.new
        (joined_operand_at (signs_of operator.strength) (chains_at (stronger_than operator.strength) (atom_at more))
        (measured_view left) tokens.old) }
{
    tokens.next();
    let right = climb(alloc, tokens, operator.strength.stronger(), more)?;
    join(alloc, operator.op, left, right)
}

/// Operands with operators between them that bind so strongly at least.
#[cycle(expression)]
fn climb(
    alloc: Global,
    tokens: &mut Tokens<'_>,
    least: Strength,
    more: u32,
) -> Result<Measured, Stop>
    ensures { Leaves measured_view result tokens.new (chains_at (strengths_from least) (atom_at more) tokens.old) }
{
    let mut left = atom(alloc, tokens, more)?;
    while let Some(operator) = operator_ahead(tokens, least) {
        left = extend(alloc, tokens, left, operator, more)?;
    }
    Ok(left)
}

/// A left side with the comparison that comes next, and its right side.
#[inline(never)]
#[cycle(expression)]
#[tactic(auto, unfolding(crate::specs::Inside::ReadingExpression::joined_operand_at))]
fn compare(
    alloc: Global,
    tokens: &mut Tokens<'_>,
    left: Measured,
    op: Op,
    more: u32,
) -> Result<Measured, Stop>
    requires { IsCompared op tokens.old }
    ensures { Leaves measured_view result tokens.new
        (joined_operand_at comparisons (chains_at strengths (atom_at more)) (measured_view left) tokens.old) }
{
    tokens.next();
    let right = climb(alloc, tokens, Strength::Or, more)?;
    join(alloc, op, left, right)
}

/// At most one comparison.
#[cycle(expression)]
#[tactic(auto, unfolding(crate::specs::Inside::ReadingExpression::comparison_at))]
fn comparison(alloc: Global, tokens: &mut Tokens<'_>, more: u32) -> Result<Measured, Stop>
    ensures { Leaves measured_view result tokens.new (comparison_at (atom_at more) tokens.old) }
{
    let left = climb(alloc, tokens, Strength::Or, more)?;
    match comparison_ahead(tokens) {
        Some(op) => compare(alloc, tokens, left, op, more),
        None => Ok(left),
    }
}

/// An expression that is part of no other.
#[tactic(auto, unfolding(crate::specs::Inside::ReadingExpression::expression_at))]
pub(crate) fn expression<'a>(alloc: Global, tokens: Tokens<'a>) -> Result<(Expr, Tokens<'a>), Stop>
    ensures { GivesRead (λ x. (expression_of x.0, x.1)) result (expression_at tokens.entry) }
{
    let mut tokens = tokens;
    let whole = comparison(alloc, &mut tokens, PARENTHESES)?;
    match whole.kept {
        Some(kept) => Ok((Box::into_inner(kept.tree), tokens)),
        None => Err(Stop::At(Found {
            at: Some(whole.at),
            refusal: Refusal::Limit(Limit::Depth),
        })),
    }
}
