// The code of statements.

ghost use Rattle.std.specs.Prelude.{◌≡◌, ◌∷◌, [], ◌<◌, ◌+◌, ℕ, OnOk, IfOk, length};
ghost use Rattle.rt_ids.specs.Lists.{or_zero};
ghost use Rattle.rt_app.specs.Handlers as handlers;
ghost use Rattle.rt_app.specs.View.{statement_of, block_of};
ghost use Rattle.rt_frames.specs.Inside.Reached.{IsStatementReached, IsBlockReached};
ghost use Rattle.rt_gen_queue.specs.Guards.{enter_line, leave_line};
ghost use Rattle.rt_gen_body.specs.BlockCode as blocks;
ghost use Rattle.rt_gen_queue.specs.Making.{next_address, Appends};
ghost use Rattle.rt_gen_body.specs.Inside.Choices.{EndsWith, first_code};
ghost use Rattle.rt_gen_body.specs.Inside.Generating.{context, IsPlanned};

use crate::generator::{Generator, next_slot};
use rt_app::Stmt;
use rt_code::Instr;
use rt_gen_queue::queue::irq_number;
use rt_gen_queue::{Guard, Lines};
use rt_ids::{Irq, NoMemory, Op, ResId, Section};

/// A loop's variable, its first number, and the number at which it ends, which it does not reach.
#[derive(Clone, Copy)]
struct Bounds {
    variable: u32,
    first: u32,
    end: u32,
}

/// How the section of a declared resource masks.
fn guard_at(generator: &Generator<'_>, resource: ResId) -> Guard
    requires { resource < length (context generator.now).guards }
    ensures { result ≡ blocks.guard_at (context generator.now) resource }
{
    match generator.guards.get(usize::from(resource.0)) {
        Some(guard) => *guard,
        None => unreachable!(),
    }
}

/// The number of a declared interrupt, by its index.
fn number_at(generator: &Generator<'_>, irq: u8) -> Irq
    requires { irq < length (context generator.now).app.irqs }
    ensures { result ≡ or_zero (handlers.irq_number (context generator.now).app irq) }
{
    irq_number(&generator.plan.app.irqs, irq)
}

/// Appends the line that opens a section at a preemption threshold, with a slot for what the mask was.
fn push_enter(
    guard: Guard,
    section: Section,
    threshold: u8,
    lock: u32,
    code: &mut Lines,
) -> Result<(), NoMemory>
    ensures { OnOk result (Appends code.old code.new (enter_line section guard threshold lock ∷ [])) }
{
    code.append(&[guard.enter_line(section, threshold, lock)])
}

/// Appends the line that closes it.
fn push_leave(
    guard: Guard,
    section: Section,
    threshold: u8,
    lock: u32,
    code: &mut Lines,
) -> Result<(), NoMemory>
    ensures { OnOk result (Appends code.old code.new (leave_line section guard threshold lock ∷ [])) }
{
    code.append(&[guard.leave_line(section, threshold, lock)])
}

impl<'a> Generator<'a> {
    /// A choice without a second block, whose test has been made.
    #[cycle(block)]
    fn choose_one(
        &self,
        threshold: u8,
        lock: u32,
        first: &[Stmt],
        code: &mut Lines,
    ) -> Result<(), NoMemory>
        requires planned { IsPlanned self.now }
        requires reached { IsBlockReached (context self.now).app (block_of first.now) }
        ensures { let block = λ (at : ℕ). blocks.block_code (context self.now) threshold lock at (block_of first.now) in
            OnOk result (Appends code.old code.new (blocks.one_code (context self.now) (next_address code.old) block)) }
    {
        let over = code.len();
        code.push(Instr::JumpZ(self.expressions, 0))?;
        self.block(threshold, lock, first, code)?;
        let end = code.next_address()?;
        code.replace(over, Instr::JumpZ(self.expressions, end));
        Ok(())
    }

    /// The first of two blocks, whose test has been made, and a jump over the second; answers the index of that jump.
    #[cycle(block)]
    fn choose_first(
        &self,
        threshold: u8,
        lock: u32,
        first: &[Stmt],
        code: &mut Lines,
    ) -> Result<usize, NoMemory>
        requires planned { IsPlanned self.now }
        requires reached { IsBlockReached (context self.now).app (block_of first.now) }
        ensures place { let at = next_address code.old + 1 in
            let block = blocks.block_code (context self.now) threshold lock at (block_of first.now) in
            IfOk result (λ over. over ≡ length code.old.lines + 1 + length block) }
        ensures lines { let at = next_address code.old + 1 in
            let block = blocks.block_code (context self.now) threshold lock at (block_of first.now) in
            OnOk result (Appends code.old code.new
            (first_code (context self.now) (next_address code.old) block)) }
    {
        let over = code.len();
        code.push(Instr::JumpZ(self.expressions, 0))?;
        self.block(threshold, lock, first, code)?;
        let end = code.len();
        code.push(Instr::Jump(0))?;
        let to = code.next_address()?;
        code.replace(over, Instr::JumpZ(self.expressions, to));
        Ok(end)
    }

    /// The second of two blocks, past which the jump at an index is to lead.
    #[cycle(block)]
    fn choose_second(
        &self,
        threshold: u8,
        lock: u32,
        second: &[Stmt],
        over: usize,
        code: &mut Lines,
    ) -> Result<(), NoMemory>
        requires planned { IsPlanned self.now }
        requires place { over < length code.old.lines }
        requires reached { IsBlockReached (context self.now).app (block_of second.now) }
        ensures { let at = next_address code.old in
            let block = blocks.block_code (context self.now) threshold lock at (block_of second.now) in
            OnOk result (EndsWith code.old code.new over block) }
    {
        self.block(threshold, lock, second, code)?;
        let end = code.next_address()?;
        code.replace(over, Instr::Jump(end));
        Ok(())
    }

    /// A block as a section of a resource.
    #[cycle(block)]
    fn lock(
        &self,
        threshold: u8,
        lock: u32,
        resource: ResId,
        inner: &[Stmt],
        code: &mut Lines,
    ) -> Result<(), NoMemory>
        requires planned { IsPlanned self.now }
        requires declared { resource < length (context self.now).app.shared }
        requires reached { IsBlockReached (context self.now).app (block_of inner.now) }
        ensures { let block = λ (inside slot at : ℕ).
            blocks.block_code (context self.now) inside slot at (block_of inner.now) in
            OnOk result (Appends code.old code.new
            (blocks.lock_code (context self.now) threshold lock (next_address code.old) resource block)) }
    {
        let guard = guard_at(self, resource);
        push_enter(guard, Section::Res(resource), threshold, lock, code)?;
        self.block(threshold.max(guard.ceiling), next_slot(lock), inner, code)?;
        push_leave(guard, Section::Res(resource), threshold, lock, code)?;
        Ok(())
    }

    /// The lines before a loop's turns, up to the jump that ends it.
    fn loop_front(&self, bounds: &Bounds, code: &mut Lines) -> Result<(), NoMemory>
        ensures { OnOk result (Appends code.old code.new
            (blocks.loop_front (context self.now) bounds.now.variable bounds.now.first bounds.now.end)) }
    {
        let test = self.expressions;
        code.append(&[
            (Instr::Set(bounds.variable, bounds.first), None),
            (Instr::Set(test, bounds.end), None),
            (Instr::Calc(Op::Lt, test, bounds.variable, test), None),
        ])
    }

    /// The lines after a turn: the variable rises by one, and a jump to the loop's test, which is at `entry + 1`.
    fn loop_back(&self, variable: u32, entry: u32, code: &mut Lines) -> Result<(), NoMemory>
        ensures { OnOk result (Appends code.old code.new (blocks.loop_back (context self.now) variable (entry + 1))) }
    {
        let head = entry.checked_add(1).ok_or(NoMemory)?;
        code.append(&[
            (Instr::Set(self.expressions, 1), None),
            (
                Instr::Calc(Op::Add, variable, variable, self.expressions),
                None,
            ),
            (Instr::Jump(head), None),
        ])
    }

    /// A loop of a variable, from a number up to another.
    #[cycle(block)]
    fn repeat(
        &self,
        threshold: u8,
        lock: u32,
        bounds: &Bounds,
        turn: &[Stmt],
        code: &mut Lines,
    ) -> Result<(), NoMemory>
        requires planned { IsPlanned self.now }
        requires reached { IsBlockReached (context self.now).app (block_of turn.now) }
        ensures { let at = next_address code.old in
            let block = blocks.block_code (context self.now) threshold lock (at + 4) (block_of turn.now) in
            OnOk result (Appends code.old code.new
            (blocks.loop_code (context self.now) at bounds.now.variable bounds.now.first bounds.now.end block)) }
    {
        let entry = code.next_address()?;
        self.loop_front(bounds, code)?;
        let over = code.len();
        code.push(Instr::JumpZ(self.expressions, 0))?;
        self.block(threshold, lock, turn, code)?;
        self.loop_back(bounds.variable, entry, code)?;
        let end = code.next_address()?;
        code.replace(over, Instr::JumpZ(self.expressions, end));
        Ok(())
    }

    /// A statement, at a static preemption threshold, with a slot for the mask of the next section.
    #[cycle(block)]
    fn statement(
        &self,
        threshold: u8,
        lock: u32,
        stmt: &Stmt,
        code: &mut Lines,
    ) -> Result<(), NoMemory>
        requires planned { IsPlanned self.now }
        requires reached { IsStatementReached (context self.now).app (statement_of stmt.now) }
        ensures { OnOk result (Appends code.old code.new
            (blocks.statement_code (context self.now) threshold lock (next_address code.old) (statement_of stmt.now))) }
    {
        match stmt {
            Stmt::Bind(variable, value) => self.bind(threshold, *variable, value, code),
            Stmt::Assign(atom, expr, _at) => self.assign(*atom, expr, code),
            Stmt::Branch(test, first, second) => {
                self.value(test, code)?;
                if second.is_empty() {
                    self.choose_one(threshold, lock, first, code)
                } else {
                    let over = self.choose_first(threshold, lock, first, code)?;
                    self.choose_second(threshold, lock, second, over, code)
                }
            }
            Stmt::Repeat(variable, first, last, turn) => {
                let bounds = Bounds {
                    variable: u32::from(*variable),
                    first: *first,
                    end: *last,
                };
                self.repeat(threshold, lock, &bounds, turn, code)
            }
            Stmt::Locked(resource, inner, _at) => self.lock(
                threshold, lock, *resource, inner, code,
            ),
            Stmt::Emit(expr) => self.emit(expr, code),
            Stmt::Pend(irq) => code.push(Instr::Post(number_at(self, *irq))),
            Stmt::Call(spawn) => self.send(threshold, spawn, code),
        }
    }

    /// The statements of a block, one after the other.
    #[cycle(block)]
    pub(crate) fn block(
        &self,
        threshold: u8,
        lock: u32,
        stmts: &[Stmt],
        code: &mut Lines,
    ) -> Result<(), NoMemory>
        requires planned { IsPlanned self.now }
        requires reached { IsBlockReached (context self.now).app (block_of stmts.now) }
        ensures { OnOk result (Appends code.old code.new
            (blocks.block_code (context self.now) threshold lock (next_address code.old) (block_of stmts.now))) }
    {
        for stmt in stmts {
            self.statement(threshold, lock, stmt, code)?;
        }
        Ok(())
    }
}
