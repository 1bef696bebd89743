// What the code of a body is generated with: slots, lines, what is around it.

ghost use Rattle.std.specs.Prelude.{◌≡◌, ◌+◌, OnOk};
ghost use Rattle.rt_app.specs.View.{expression_of, value_of};
ghost use Rattle.rt_gen_body.specs.ValueCode as values;
ghost use Rattle.rt_gen_body.specs.SimpleCode as simple;
ghost use Rattle.rt_gen_queue.specs.Making.{next_address, Appends};

use rt_app::{Atom, Expr, Plan, Value};
use rt_code::Instr;
use rt_frames::ArmedRows;
use rt_gen_queue::{Guard, Lines};
use rt_ids::NoMemory;
use std::alloc::Global;

/// What the code of a body is generated with.
#[derive(Clone, Copy)]
pub(crate) struct Generator<'a> {
    pub(crate) alloc: Global,
    pub(crate) plan: &'a Plan<'a>,
    /// Of the messages that may be armed.
    pub(crate) rows: &'a ArmedRows<'a>,
    /// Of each shared resource.
    pub(crate) guards: &'a [Guard],
    /// The cell of the first local resource; the shared ones are before it.
    pub(crate) locals: u16,
    /// The first slot where expressions are evaluated.
    pub(crate) expressions: u32,
    /// The first slot of a spawn.
    pub(crate) spawns: u32,
}

/// The next slot.
pub(crate) fn next_slot(slot: u32) -> u32
    ensures { result ≡ values.next_slot slot }
{
    slot.saturating_add(1)
}

impl<'a> Generator<'a> {
    ghost use Rattle.rt_gen_body.specs.Inside.Generating.{context, IsPlanned};

    /// The cell of a local resource.
    fn local_cell(&self, local: u8) -> u32
        ensures { result ≡ (context self.now).locals + local }
    {
        u32::from(self.locals) + u32::from(local)
    }

    /// The instruction that brings the value of a name into a slot.
    fn load(&self, atom: Atom, slot: u32) -> Instr
        ensures { result ≡ values.load (context self.now) atom slot }
    {
        match atom {
            Atom::Var(variable) => Instr::Copy(slot, u32::from(variable)),
            Atom::Shared(resource) => Instr::Load(slot, u32::from(resource.0)),
            Atom::Local(local) => Instr::Load(slot, self.local_cell(local)),
        }
    }

    /// The instruction that brings a slot's value into a name.
    pub(crate) fn store(&self, atom: Atom, slot: u32) -> Instr
        ensures { result ≡ values.store (context self.now) atom slot }
    {
        match atom {
            Atom::Var(variable) => Instr::Copy(u32::from(variable), slot),
            Atom::Shared(resource) => Instr::Store(u32::from(resource.0), slot),
            Atom::Local(local) => Instr::Store(self.local_cell(local), slot),
        }
    }

    /// The value of an expression comes into a slot; the slots from another on are free.
    pub(crate) fn expression(
        &self,
        expr: &Expr,
        slot: u32,
        free: u32,
        code: &mut Lines,
    ) -> Result<(), NoMemory>
        ensures { OnOk result (Appends code.old code.new
            (values.expression_code (context self.now) (expression_of expr.now) slot free)) }
    {
        match expr {
            Expr::Num(number) => code.push(Instr::Set(slot, *number)),
            Expr::Read(atom, _at) => code.push(self.load(*atom, slot)),
            Expr::Oper(op, left, right) => {
                self.expression(left, slot, free, code)?;
                self.expression(right, free, next_slot(free), code)?;
                code.push(Instr::Calc(*op, slot, slot, free))
            }
        }
    }

    /// The value of an expression comes into the first slot for expressions.
    pub(crate) fn value(&self, expr: &Expr, code: &mut Lines) -> Result<(), NoMemory>
        ensures { OnOk result (Appends code.old code.new
            (values.value_code (context self.now) (expression_of expr.now))) }
    {
        self.expression(expr, self.expressions, next_slot(self.expressions), code)
    }

    /// The binding of a variable to a value, at a static preemption threshold.
    pub(crate) fn bind(
        &self,
        threshold: u8,
        variable: u16,
        value: &Value,
        code: &mut Lines,
    ) -> Result<(), NoMemory>
        requires { IsPlanned self.now }
        ensures { OnOk result (Appends code.old code.new
            (simple.bind_code (context self.now) threshold (next_address code.old) variable (value_of value.now))) }
    {
        match value {
            Value::Calc(expr) => {
                self.value(expr, code)?;
                code.push(Instr::Copy(u32::from(variable), self.expressions))
            }
            Value::Now(_at) => code.push(Instr::Clock(u32::from(variable))),
            Value::Call(spawn) => {
                self.send(threshold, spawn, code)?;
                code.push(Instr::Copy(u32::from(variable), self.spawns))
            }
        }
    }

    /// An assignment, to whatever its name means.
    pub(crate) fn assign(&self, atom: Atom, expr: &Expr, code: &mut Lines) -> Result<(), NoMemory>
        ensures { OnOk result (Appends code.old code.new
            (simple.assign_code (context self.now) atom (expression_of expr.now))) }
    {
        self.value(expr, code)?;
        code.push(self.store(atom, self.expressions))
    }

    /// The value of an expression is emitted.
    pub(crate) fn emit(&self, expr: &Expr, code: &mut Lines) -> Result<(), NoMemory>
        ensures { OnOk result (Appends code.old code.new
            (simple.emit_code (context self.now) (expression_of expr.now))) }
    {
        self.value(expr, code)?;
        code.push(Instr::Emit(self.expressions))
    }
}
