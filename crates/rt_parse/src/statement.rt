// The parser of statements and blocks. `left` is how many blocks may still be opened inside each other, and `room` how
// many statements the body may still have. A function also gives how many the body may have after what it read.

ghost use Rattle.std.specs.Prelude.{◌≡◌, [], codes, length, map, Ok};
ghost use Rattle.rt_ast.specs.Tree as tree;
ghost use Rattle.rt_ast.specs.View.{expression_of, statement_of, spawn_of, value_of, block_of};
ghost use Rattle.rt_parse.specs.Inside.Reading.{GivesRead, begins_with, repeat_at};
ghost use Rattle.rt_parse.specs.Inside.ReadingList.{items_at, adds_at};
ghost use Rattle.rt_parse.specs.Inside.ReadingExpression.{expression_at};
ghost use Rattle.rt_parse.specs.Inside.ReadingSpawn.{is_spawn, arguments_at, enclosed_expression_at, delayed_task_at};
ghost use Rattle.rt_parse.specs.Inside.ReadingSpawn.{soon_at, after_at, cancel_at, move_at, spawn_at, now_at};
ghost use Rattle.rt_parse.specs.Inside.ReadingSpawn.{call_value_at, calc_at, value_at};
ghost use Rattle.rt_parse.specs.Inside.ReadingSimple.{counted_limit, bind_at, assign_at, emit_at, pend_at, call_at};
ghost use Rattle.rt_parse.specs.Inside.ReadingNested.{nested_limit, else_at, branch_at, loop_at, further_at, lock_at};
ghost use Rattle.rt_parse.specs.Inside.ReadingStatement.{simple_at, compound_at, statement_at, one_more_at, is_inside};
ghost use Rattle.rt_parse.specs.Inside.ReadingStatement.{braced_block_at, closed_block_at, block_at, inside_at};
ghost use Rattle.rt_parse.specs.Inside.ReadingStatement.{below_at};

use crate::expression::expression;
use crate::list::{comma, goes_past};
use crate::stop::Stop;
use crate::tokens::{
    begins_name, begins_sign, begins_word, fault_found, last_number, limit_if, limited_name,
    limited_sign, limited_word, name, number, sign, word,
};
use rt_ast::{Expr, Ident, Spawn, Stmt, Value};
use rt_ids::Limit;
use rt_lex::Tokens;
use std::alloc::Global;

/// The limit on statements, at one of the body that may still have so many.
fn counted_limit(room: u32) -> Option<Limit>
    ensures { result ≡ counted_limit room }
{
    limit_if(room == 0, Limit::Statements)
}

/// The limit on nesting, at a block where so many may be opened.
fn nested_limit(left: u32) -> Option<Limit>
    ensures { result ≡ nested_limit left }
{
    limit_if(left == 0, Limit::Nesting)
}

/// The arguments of a spawn, up to the parenthesis that closes them.
fn expressions<'a>(alloc: Global, tokens: Tokens<'a>) -> Result<(Vec<Expr>, Tokens<'a>), Stop>
    ensures { GivesRead (λ x. (map expression_of x.0.items, x.1)) result
        (items_at (codes ")") (adds_at (λ before. expression_at)) (length tokens.entry) [] tokens.entry) }
{
    let mut items = Vec::new(alloc);
    let mut rest = tokens;
    while goes_past(&rest, b")") {
        let (item, behind) = expression(alloc, rest)?;
        items.push(item)?;
        rest = comma(behind, b")")?;
    }
    let (_, rest) = sign(rest, b")")?;
    Ok((items, rest))
}

/// The arguments of a message, in parentheses.
#[tactic(auto, unfolding(crate::specs::Inside::ReadingSpawn::arguments_at))]
fn arguments<'a>(alloc: Global, tokens: Tokens<'a>) -> Result<(Vec<Expr>, Tokens<'a>), Stop>
    ensures { GivesRead (λ x. (map expression_of x.0.items, x.1)) result (arguments_at tokens.entry) }
{
    let (_, tokens) = sign(tokens, b"(")?;
    expressions(alloc, tokens)
}

/// An expression in parentheses: a delay, or the handle of a message.
#[tactic(auto, unfolding(crate::specs::Inside::ReadingSpawn::enclosed_expression_at))]
fn enclosed_expression<'a>(alloc: Global, tokens: Tokens<'a>) -> Result<(Expr, Tokens<'a>), Stop>
    ensures { GivesRead (λ x. (expression_of x.0, x.1)) result (enclosed_expression_at tokens.entry) }
{
    let (_, tokens) = sign(tokens, b"(")?;
    let (expr, tokens) = expression(alloc, tokens)?;
    let (_, tokens) = sign(tokens, b")")?;
    Ok((expr, tokens))
}

/// A delay, and the task after it.
#[tactic(auto, unfolding(crate::specs::Inside::ReadingSpawn::delayed_task_at))]
fn delayed_task<'a>(alloc: Global, tokens: Tokens<'a>) -> Result<((Expr, Ident), Tokens<'a>), Stop>
    ensures { GivesRead (λ x. ((expression_of x.0.0, x.0.1), x.1)) result (delayed_task_at tokens.entry) }
{
    let (delay, tokens) = enclosed_expression(alloc, tokens)?;
    let (task, tokens) = name(alloc, tokens)?;
    Ok(((delay, task), tokens))
}

/// A `spawn`, whose first word may pass a limit.
#[tactic(auto, unfolding(crate::specs::Inside::ReadingSpawn::soon_at))]
fn soon<'a>(
    alloc: Global,
    tokens: Tokens<'a>,
    limit: Option<Limit>,
) -> Result<(Spawn, Tokens<'a>), Stop>
    ensures { GivesRead (λ x. (spawn_of x.0, x.1)) result (soon_at limit tokens.entry) }
{
    let (_, tokens) = limited_word(tokens, b"spawn", limit)?;
    let (task, tokens) = name(alloc, tokens)?;
    let (args, tokens) = arguments(alloc, tokens)?;
    Ok((Spawn::Soon(task, args), tokens))
}

/// A `spawn_after`, whose first word may pass a limit.
#[tactic(auto, unfolding(crate::specs::Inside::ReadingSpawn::after_at))]
fn after<'a>(
    alloc: Global,
    tokens: Tokens<'a>,
    limit: Option<Limit>,
) -> Result<(Spawn, Tokens<'a>), Stop>
    ensures { GivesRead (λ x. (spawn_of x.0, x.1)) result (after_at limit tokens.entry) }
{
    let (at, tokens) = limited_word(tokens, b"spawn_after", limit)?;
    let ((delay, task), tokens) = delayed_task(alloc, tokens)?;
    let (args, tokens) = arguments(alloc, tokens)?;
    Ok((Spawn::After(at, delay, task, args), tokens))
}

/// A `cancel`, whose first word may pass a limit.
#[tactic(auto, unfolding(crate::specs::Inside::ReadingSpawn::cancel_at))]
fn cancel<'a>(
    alloc: Global,
    tokens: Tokens<'a>,
    limit: Option<Limit>,
) -> Result<(Spawn, Tokens<'a>), Stop>
    ensures { GivesRead (λ x. (spawn_of x.0, x.1)) result (cancel_at limit tokens.entry) }
{
    let (at, tokens) = limited_word(tokens, b"cancel", limit)?;
    let (task, tokens) = name(alloc, tokens)?;
    let (handle, tokens) = enclosed_expression(alloc, tokens)?;
    Ok((Spawn::Cancel(at, task, handle), tokens))
}

/// A `reschedule_after`, whose first word may pass a limit.
#[tactic(auto, unfolding(crate::specs::Inside::ReadingSpawn::move_at))]
fn reschedule<'a>(
    alloc: Global,
    tokens: Tokens<'a>,
    limit: Option<Limit>,
) -> Result<(Spawn, Tokens<'a>), Stop>
    ensures { GivesRead (λ x. (spawn_of x.0, x.1)) result (move_at limit tokens.entry) }
{
    let (at, tokens) = limited_word(tokens, b"reschedule_after", limit)?;
    let ((delay, task), tokens) = delayed_task(alloc, tokens)?;
    let (handle, tokens) = enclosed_expression(alloc, tokens)?;
    let delay = Box::new(alloc, delay)?;
    Ok((Spawn::Move(at, delay, task, handle), tokens))
}

/// A spawn, or what its handle takes back or puts off. Its first word may pass a limit.
#[tactic(auto, unfolding(crate::specs::Inside::ReadingSpawn::spawn_at))]
fn spawn<'a>(
    alloc: Global,
    tokens: Tokens<'a>,
    limit: Option<Limit>,
) -> Result<(Spawn, Tokens<'a>), Stop>
    ensures { GivesRead (λ x. (spawn_of x.0, x.1)) result (spawn_at limit tokens.entry) }
{
    if begins_word(&tokens, b"spawn") {
        soon(alloc, tokens, limit)
    } else if begins_word(&tokens, b"spawn_after") {
        after(alloc, tokens, limit)
    } else if begins_word(&tokens, b"cancel") {
        cancel(alloc, tokens, limit)
    } else {
        reschedule(alloc, tokens, limit)
    }
}

/// Whether a spawn comes next.
fn begins_spawn(tokens: &Tokens<'_>) -> bool
    ensures { result ≡ begins_with is_spawn tokens.now }
{
    match tokens.peek() {
        Some(token) => {
            token.is_word(b"spawn")
                || token.is_word(b"spawn_after")
                || token.is_word(b"cancel")
                || token.is_word(b"reschedule_after")
        }
        None => false,
    }
}

/// `now` as a value.
#[tactic(auto, unfolding(crate::specs::Inside::ReadingSpawn::now_at))]
fn now_value(tokens: Tokens<'_>) -> Result<(Value, Tokens<'_>), Stop>
    ensures { GivesRead (λ x. (value_of x.0, x.1)) result (now_at tokens.entry) }
{
    let (at, tokens) = word(tokens, b"now")?;
    Ok((Value::Now(at), tokens))
}

/// A spawn as a value.
#[tactic(auto, unfolding(crate::specs::Inside::ReadingSpawn::call_value_at))]
fn call_value<'a>(alloc: Global, tokens: Tokens<'a>) -> Result<(Value, Tokens<'a>), Stop>
    ensures { GivesRead (λ x. (value_of x.0, x.1)) result (call_value_at tokens.entry) }
{
    let (spawn, tokens) = spawn(alloc, tokens, None)?;
    Ok((Value::Call(spawn), tokens))
}

/// An expression as a value.
#[tactic(auto, unfolding(crate::specs::Inside::ReadingSpawn::calc_at))]
fn calc_value<'a>(alloc: Global, tokens: Tokens<'a>) -> Result<(Value, Tokens<'a>), Stop>
    ensures { GivesRead (λ x. (value_of x.0, x.1)) result (calc_at tokens.entry) }
{
    let (expr, tokens) = expression(alloc, tokens)?;
    Ok((Value::Calc(expr), tokens))
}

/// What a variable is bound to.
#[tactic(auto, unfolding(crate::specs::Inside::ReadingSpawn::value_at))]
fn value<'a>(alloc: Global, tokens: Tokens<'a>) -> Result<(Value, Tokens<'a>), Stop>
    ensures { GivesRead (λ x. (value_of x.0, x.1)) result (value_at tokens.entry) }
{
    if begins_word(&tokens, b"now") {
        now_value(tokens)
    } else if begins_spawn(&tokens) {
        call_value(alloc, tokens)
    } else {
        calc_value(alloc, tokens)
    }
}

/// A `let`.
#[tactic(auto, unfolding(crate::specs::Inside::ReadingSimple::bind_at))]
fn bind<'a>(alloc: Global, tokens: Tokens<'a>, room: u32) -> Result<((Stmt, u32), Tokens<'a>), Stop>
    ensures { GivesRead (λ x. ((statement_of x.0.0, x.0.1), x.1)) result (bind_at room tokens.entry) }
{
    let (_, tokens) = limited_word(tokens, b"let", counted_limit(room))?;
    let (variable, tokens) = name(alloc, tokens)?;
    let (_, tokens) = sign(tokens, b"=")?;
    let (value, tokens) = value(alloc, tokens)?;
    let (_, tokens) = sign(tokens, b";")?;
    Ok((
        (Stmt::Bind(variable, value), room.saturating_sub(1)),
        tokens,
    ))
}

/// An assignment.
#[tactic(auto, unfolding(crate::specs::Inside::ReadingSimple::assign_at))]
fn assign<'a>(
    alloc: Global,
    tokens: Tokens<'a>,
    room: u32,
) -> Result<((Stmt, u32), Tokens<'a>), Stop>
    ensures { GivesRead (λ x. ((statement_of x.0.0, x.0.1), x.1)) result (assign_at room tokens.entry) }
{
    let (target, tokens) = limited_name(alloc, tokens, counted_limit(room))?;
    let (_, tokens) = sign(tokens, b"=")?;
    let (expr, tokens) = expression(alloc, tokens)?;
    let (_, tokens) = sign(tokens, b";")?;
    Ok(((Stmt::Assign(target, expr), room.saturating_sub(1)), tokens))
}

/// An `emit`.
#[tactic(auto, unfolding(crate::specs::Inside::ReadingSimple::emit_at))]
fn emit<'a>(alloc: Global, tokens: Tokens<'a>, room: u32) -> Result<((Stmt, u32), Tokens<'a>), Stop>
    ensures { GivesRead (λ x. ((statement_of x.0.0, x.0.1), x.1)) result (emit_at room tokens.entry) }
{
    let (_, tokens) = limited_word(tokens, b"emit", counted_limit(room))?;
    let (expr, tokens) = expression(alloc, tokens)?;
    let (_, tokens) = sign(tokens, b";")?;
    Ok(((Stmt::Emit(expr), room.saturating_sub(1)), tokens))
}

/// A `pend`.
#[tactic(auto, unfolding(crate::specs::Inside::ReadingSimple::pend_at))]
fn pend<'a>(alloc: Global, tokens: Tokens<'a>, room: u32) -> Result<((Stmt, u32), Tokens<'a>), Stop>
    ensures { GivesRead (λ x. ((statement_of x.0.0, x.0.1), x.1)) result (pend_at room tokens.entry) }
{
    let (_, tokens) = limited_word(tokens, b"pend", counted_limit(room))?;
    let (irq, tokens) = name(alloc, tokens)?;
    let (_, tokens) = sign(tokens, b";")?;
    Ok(((Stmt::Pend(irq), room.saturating_sub(1)), tokens))
}

/// A spawn as a statement.
#[tactic(auto, unfolding(crate::specs::Inside::ReadingSimple::call_at))]
fn call<'a>(alloc: Global, tokens: Tokens<'a>, room: u32) -> Result<((Stmt, u32), Tokens<'a>), Stop>
    ensures { GivesRead (λ x. ((statement_of x.0.0, x.0.1), x.1)) result (call_at room tokens.entry) }
{
    let (spawn, tokens) = spawn(alloc, tokens, counted_limit(room))?;
    let (_, tokens) = sign(tokens, b";")?;
    Ok(((Stmt::Call(spawn), room.saturating_sub(1)), tokens))
}

/// The second block of an `if`, which is empty without an `else`.
#[cycle(statement)]
#[tactic(auto, unfolding(crate::specs::Inside::ReadingNested::else_at))]
fn else_block<'a>(
    alloc: Global,
    tokens: Tokens<'a>,
    left: u32,
    room: u32,
) -> Result<((Vec<Stmt>, u32), Tokens<'a>), Stop>
    ensures { GivesRead (λ x. ((block_of x.0.0.items, x.0.1), x.1)) result (else_at (block_at left) room tokens.entry) }
{
    if begins_word(&tokens, b"else") {
        let (_, tokens) = word(tokens, b"else")?;
        block(alloc, tokens, left, room)
    } else {
        Ok(((Vec::new(alloc), room), tokens))
    }
}

/// An `if`.
#[cycle(statement)]
#[tactic(auto, unfolding(crate::specs::Inside::ReadingNested::branch_at))]
fn branch<'a>(
    alloc: Global,
    tokens: Tokens<'a>,
    left: u32,
    room: u32,
) -> Result<((Stmt, u32), Tokens<'a>), Stop>
    ensures { GivesRead (λ x. ((statement_of x.0.0, x.0.1), x.1)) result (branch_at (block_at left) room tokens.entry) }
{
    let (_, tokens) = limited_word(tokens, b"if", counted_limit(room))?;
    let (condition, tokens) = expression(alloc, tokens)?;
    let ((first, room), tokens) = block(alloc, tokens, left, room.saturating_sub(1))?;
    let ((second, room), tokens) = else_block(alloc, tokens, left, room)?;
    Ok(((Stmt::branch(condition, first, second), room), tokens))
}

/// A `for`.
#[cycle(statement)]
#[tactic(auto, unfolding(crate::specs::Inside::ReadingNested::loop_at))]
fn repeat<'a>(
    alloc: Global,
    tokens: Tokens<'a>,
    left: u32,
    room: u32,
) -> Result<((Stmt, u32), Tokens<'a>), Stop>
    ensures { GivesRead (λ x. ((statement_of x.0.0, x.0.1), x.1)) result (loop_at (block_at left) room tokens.entry) }
{
    let (_, tokens) = limited_word(tokens, b"for", counted_limit(room))?;
    let (variable, tokens) = name(alloc, tokens)?;
    let (_, tokens) = word(tokens, b"in")?;
    let (first, tokens) = number(tokens)?;
    let (_, tokens) = sign(tokens, b"..")?;
    let (last, tokens) = last_number(tokens, first.value)?;
    let ((turn, room), tokens) = block(alloc, tokens, left, room.saturating_sub(1))?;
    let repeat = Stmt::repeat(variable, first.value, last.value, turn);
    Ok(((repeat, room), tokens))
}

/// A `lock`.
#[cycle(statement)]
#[tactic(auto, unfolding(crate::specs::Inside::ReadingNested::lock_at))]
fn lock<'a>(
    alloc: Global,
    tokens: Tokens<'a>,
    left: u32,
    room: u32,
) -> Result<((Stmt, u32), Tokens<'a>), Stop>
    ensures { GivesRead (λ x. ((statement_of x.0.0, x.0.1), x.1)) result (lock_at (inside_at left) room tokens.entry) }
{
    let (_, tokens) = limited_word(tokens, b"lock", counted_limit(room))?;
    let (resource, tokens) = name(alloc, tokens)?;
    let ((inner, room), tokens) = inside(alloc, tokens, left, room.saturating_sub(1))?;
    Ok(((Stmt::lock(resource, inner), room), tokens))
}

/// A statement that begins with another word and holds no block.
fn simple<'a>(
    alloc: Global,
    tokens: Tokens<'a>,
    room: u32,
) -> Result<((Stmt, u32), Tokens<'a>), Stop>
    ensures { GivesRead (λ x. ((statement_of x.0.0, x.0.1), x.1)) result (simple_at room tokens.entry) }
{
    if begins_word(&tokens, b"emit") {
        emit(alloc, tokens, room)
    } else if begins_word(&tokens, b"pend") {
        pend(alloc, tokens, room)
    } else {
        call(alloc, tokens, room)
    }
}

/// A statement inside which so many blocks may be opened, or a simple one.
#[cycle(statement)]
fn compound<'a>(
    alloc: Global,
    tokens: Tokens<'a>,
    left: u32,
    room: u32,
) -> Result<((Stmt, u32), Tokens<'a>), Stop>
    ensures { GivesRead (λ x. ((statement_of x.0.0, x.0.1), x.1)) result
        (compound_at (block_at left) (inside_at left) room tokens.entry) }
{
    if begins_word(&tokens, b"if") {
        branch(alloc, tokens, left, room)
    } else if begins_word(&tokens, b"for") {
        repeat(alloc, tokens, left, room)
    } else if begins_word(&tokens, b"lock") {
        lock(alloc, tokens, left, room)
    } else {
        simple(alloc, tokens, room)
    }
}

/// A statement, inside which so many blocks may be opened.
#[cycle(statement)]
#[tactic(auto, unfolding(crate::specs::Inside::ReadingStatement::statement_at))]
fn statement<'a>(
    alloc: Global,
    tokens: Tokens<'a>,
    left: u32,
    room: u32,
) -> Result<((Stmt, u32), Tokens<'a>), Stop>
    ensures { GivesRead (λ x. ((statement_of x.0.0, x.0.1), x.1)) result
        (statement_at (block_at left) (inside_at left) room tokens.entry) }
{
    if begins_name(&tokens) {
        assign(alloc, tokens, room)
    } else if begins_word(&tokens, b"let") {
        bind(alloc, tokens, room)
    } else {
        compound(alloc, tokens, left, room)
    }
}

/// The statements of a block, up to the bracket that closes it.
#[cycle(statement)]
fn statements<'a>(
    alloc: Global,
    tokens: Tokens<'a>,
    left: u32,
    first_room: u32,
) -> Result<((Vec<Stmt>, u32), Tokens<'a>), Stop>
    ensures { GivesRead (λ x. ((map statement_of x.0.0.items, x.0.1), x.1)) result
        (repeat_at is_inside (one_more_at (block_at left) (inside_at left)) (length tokens.entry) ([], first_room)
        tokens.entry) }
{
    let mut statements = Vec::new(alloc);
    let mut room = first_room;
    let mut rest = tokens;
    while goes_past(&rest, b"}") {
        let ((one, behind_room), behind) = statement(alloc, rest, left, room)?;
        statements.push(one)?;
        room = behind_room;
        rest = behind;
    }
    Ok(((statements, room), rest))
}

/// A block, inside which so many blocks may be opened.
#[cycle(statement)]
#[tactic(auto, unfolding(crate::specs::Inside::ReadingStatement::braced_block_at), using(crate::proofs::Blocks::block))]
fn braced_block<'a>(
    alloc: Global,
    tokens: Tokens<'a>,
    left: u32,
    room: u32,
) -> Result<((Vec<Stmt>, u32), Tokens<'a>), Stop>
    ensures { GivesRead (λ x. ((block_of x.0.0.items, x.0.1), x.1)) result
        (braced_block_at (block_at left) (inside_at left) room tokens.entry) }
{
    let (_, tokens) = sign(tokens, b"{")?;
    let ((statements, room), tokens) = statements(alloc, tokens, left, room)?;
    let (_, tokens) = sign(tokens, b"}")?;
    Ok(((statements, room), tokens))
}

/// Where no more blocks may be opened.
#[tactic(auto, unfolding(crate::specs::Inside::ReadingStatement::closed_block_at))]
fn closed_block(tokens: Tokens<'_>) -> Result<((Vec<Stmt>, u32), Tokens<'_>), Stop>
    ensures { GivesRead (λ x. ((block_of x.0.0.items, x.0.1), x.1)) result (closed_block_at tokens.entry) }
{
    let (_, tokens) = limited_sign(tokens, b"{", Some(Limit::Nesting))?;
    Err(Stop::At(fault_found(&tokens)))
}

/// A block, where so many may be opened inside each other, this one included.
#[cycle(statement)]
#[tactic(auto, unfolding(crate::specs::Inside::ReadingStatement::block_at))]
pub(crate) fn block<'a>(
    alloc: Global,
    tokens: Tokens<'a>,
    left: u32,
    room: u32,
) -> Result<((Vec<Stmt>, u32), Tokens<'a>), Stop>
    ensures { GivesRead (λ x. ((block_of x.0.0.items, x.0.1), x.1)) result (block_at left room tokens.entry) }
{
    match left.checked_sub(1) {
        Some(fewer) => braced_block(alloc, tokens, fewer, room),
        None => closed_block(tokens),
    }
}

/// What follows a further name of a lock, where so many blocks may be opened, the one around it included.
#[cycle(statement)]
#[tactic(auto, unfolding(crate::specs::Inside::ReadingStatement::below_at))]
fn below<'a>(
    alloc: Global,
    tokens: Tokens<'a>,
    left: u32,
    room: u32,
) -> Result<((Vec<Stmt>, u32), Tokens<'a>), Stop>
    ensures { GivesRead (λ x. ((block_of x.0.0.items, x.0.1), x.1)) result (below_at left room tokens.entry) }
{
    match left.checked_sub(1) {
        Some(fewer) => inside(alloc, tokens, fewer, room),
        None => Err(Stop::At(fault_found(&tokens))),
    }
}

/// A block of one statement.
fn only(alloc: Global, statement: Stmt) -> Result<Vec<Stmt>, Stop>
    ensures { GivesRead (λ v. block_of v.items) result (Ok (tree.Then (statement_of statement) tree.Empty)) }
{
    let mut block = Vec::new(alloc);
    block.push(statement)?;
    Ok(block)
}

/// A further name of a lock, which counts as a statement and as the block around it.
#[cycle(statement)]
#[tactic(auto, unfolding(crate::specs::Inside::ReadingNested::further_at))]
fn further<'a>(
    alloc: Global,
    tokens: Tokens<'a>,
    left: u32,
    room: u32,
) -> Result<((Vec<Stmt>, u32), Tokens<'a>), Stop>
    ensures { GivesRead (λ x. ((block_of x.0.0.items, x.0.1), x.1)) result
        (further_at (below_at left) left room tokens.entry) }
{
    let (_, tokens) = sign(tokens, b",")?;
    let limit = nested_limit(left).or(counted_limit(room));
    let (resource, tokens) = limited_name(alloc, tokens, limit)?;
    let ((inner, room), tokens) = below(alloc, tokens, left, room.saturating_sub(1))?;
    let locked = only(alloc, Stmt::lock(resource, inner))?;
    Ok(((locked, room), tokens))
}

/// What follows a lock's name: its block, or a further name.
#[cycle(statement)]
#[tactic(auto, using(crate::proofs::Blocks::inside_is))]
fn inside<'a>(
    alloc: Global,
    tokens: Tokens<'a>,
    left: u32,
    room: u32,
) -> Result<((Vec<Stmt>, u32), Tokens<'a>), Stop>
    ensures { GivesRead (λ x. ((block_of x.0.0.items, x.0.1), x.1)) result (inside_at left room tokens.entry) }
{
    if begins_sign(&tokens, b",") {
        further(alloc, tokens, left, room)
    } else {
        block(alloc, tokens, left, room)
    }
}
