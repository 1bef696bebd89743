// The code of spawns and of calls to the timer queue, as statements.

ghost use Rattle.std.specs.Prelude.{◌≡◌, true, map, slice_get, IsSome, OnOk};
ghost use Rattle.rt_ids.specs.Lists.{is_some_and};
ghost use Rattle.rt_app.specs.Level.{is_software};
ghost use Rattle.rt_app.specs.View.{expression_of, spawn_of};
ghost use Rattle.rt_gen_queue.specs.Making.{next_address, Appends};
ghost use Rattle.rt_gen_queue.specs.SpawnCode.{spawn_code};
ghost use Rattle.rt_gen_body.specs.ValueCode as values;
ghost use Rattle.rt_gen_body.specs.SimpleCode as simple;
ghost use Rattle.rt_gen_body.specs.Inside.Generating.{context, IsPlanned};

use crate::body::is_called;
use crate::generator::{Generator, next_slot};
use rt_app::{Expr, Spawn};
use rt_gen_queue::{Lines, gen_spawn};
use rt_gen_timer::{gen_after, gen_cancel, gen_move};
use rt_ids::{NoMemory, TaskId};

/// What goes to the timer queue: a `spawn_after`, a `cancel` or a `reschedule_after`.
#[derive(Clone, Copy)]
pub(crate) enum Timed {
    After,
    Cancel,
    Move,
}

impl<'a> Generator<'a> {
    /// The values of arguments come into the slots from `slot` on.
    fn arguments(&self, args: &[Expr], slot: u32, code: &mut Lines) -> Result<(), NoMemory>
        ensures { OnOk result (Appends code.old code.new
            (values.arguments_code (context self.now) (map expression_of args.now) slot)) }
    {
        let mut next = slot;
        for arg in args {
            self.expression(arg, next, self.expressions, code)?;
            next = next_slot(next);
        }
        Ok(())
    }

    /// The lines of the spawn of a software task, whose arguments are in the slots from `spawns` on, at a static
    /// preemption threshold.
    fn push_spawn(&self, threshold: u8, task: TaskId, code: &mut Lines) -> Result<(), NoMemory>
        requires ready { IsPlanned self.now }
        requires software { is_some_and is_software (slice_get (context self.now).app.tasks task) ≡ true }
        ensures { OnOk result (Appends code.old code.new
            (spawn_code (context self.now).app task threshold self.now.spawns (next_address code.old))) }
    {
        let entry = code.next_address()?;
        gen_spawn(
            self.alloc,
            self.plan,
            task,
            threshold,
            self.spawns,
            entry,
            &mut code.lines,
        )?;
        Ok(())
    }

    /// The spawn of a task whose arguments are there, at a static preemption threshold; nothing where it is no software
    /// task.
    fn message(&self, threshold: u8, number: TaskId, code: &mut Lines) -> Result<(), NoMemory>
        requires { IsPlanned self.now }
        ensures { OnOk result (Appends code.old code.new
            (simple.message_code (context self.now) threshold (next_address code.old) number)) }
    {
        if is_called(self.plan.app, number) {
            self.push_spawn(threshold, number, code)
        } else {
            Ok(())
        }
    }

    /// The lines of a call that goes to the timer queue for a software task, whose delay, arguments and handle are in
    /// the slots from `spawns` on, at a static preemption threshold.
    fn push_timed(
        &self,
        kind: Timed,
        threshold: u8,
        task: TaskId,
        code: &mut Lines,
    ) -> Result<(), NoMemory>
        requires ready { IsPlanned self.now }
        requires timed { IsSome (context self.now).app.mono }
        requires software { is_some_and is_software (slice_get (context self.now).app.tasks task) ≡ true }
        ensures { OnOk result (Appends code.old code.new
            (simple.timed_lines kind (context self.now).app task threshold self.now.spawns (next_address code.old))) }
    {
        let entry = code.next_address()?;
        let (alloc, slot) = (self.alloc, self.spawns);
        let (plan, rows) = (self.plan, self.rows);
        match kind {
            Timed::After => gen_after(
                alloc,
                plan,
                rows,
                task,
                threshold,
                slot,
                entry,
                &mut code.lines,
            ),
            Timed::Cancel => gen_cancel(
                alloc,
                plan,
                rows,
                task,
                threshold,
                slot,
                entry,
                &mut code.lines,
            ),
            Timed::Move => gen_move(
                alloc,
                plan,
                rows,
                task,
                threshold,
                slot,
                entry,
                &mut code.lines,
            ),
        }
    }

    /// Whether there is a timer queue that holds messages of a task.
    fn is_timed(&self, number: TaskId) -> bool
        ensures { result ≡ simple.is_timed (context self.now) number }
    {
        self.plan.app.mono.is_some() && is_called(self.plan.app, number)
    }

    /// What goes to the timer queue, whose values are there, at a static preemption threshold; nothing where there is
    /// none for the task.
    fn append_timed(
        &self,
        kind: Timed,
        threshold: u8,
        number: TaskId,
        code: &mut Lines,
    ) -> Result<(), NoMemory>
        requires { IsPlanned self.now }
        ensures { OnOk result (Appends code.old code.new
            (simple.timed_code (context self.now) kind threshold (next_address code.old) number)) }
    {
        if self.is_timed(number) {
            self.push_timed(kind, threshold, number, code)
        } else {
            Ok(())
        }
    }

    /// The values of a spawn come into the slots of spawns, in the order of the text.
    fn values(&self, spawn: &Spawn, code: &mut Lines) -> Result<(), NoMemory>
        ensures { OnOk result (Appends code.old code.new
            (simple.values_code (context self.now) (spawn_of spawn.now))) }
    {
        let (first, free) = (self.spawns, self.expressions);
        match spawn {
            Spawn::Soon(_task, args, _at) => self.arguments(args, first, code),
            Spawn::After(_word, delay, _task, args, _at) => {
                self.expression(delay, first, free, code)?;
                self.arguments(args, next_slot(first), code)
            }
            Spawn::Cancel(_word, _task, handle, _at) => self.expression(handle, first, free, code),
            Spawn::Move(_word, delay, _task, handle, _at) => {
                self.expression(delay, first, free, code)?;
                self.expression(handle, next_slot(first), free, code)
            }
        }
    }

    /// What goes of a spawn whose values are there, at a static preemption threshold.
    fn goes(&self, threshold: u8, spawn: &Spawn, code: &mut Lines) -> Result<(), NoMemory>
        requires { IsPlanned self.now }
        ensures { OnOk result (Appends code.old code.new
            (simple.goes_code (context self.now) threshold (next_address code.old) (spawn_of spawn.now))) }
    {
        match spawn {
            Spawn::Soon(task, _args, _at) => self.message(threshold, *task, code),
            Spawn::After(_word, _delay, task, _args, _at) => self.append_timed(
                Timed::After,
                threshold,
                *task,
                code,
            ),
            Spawn::Cancel(_word, task, _handle, _at) => self.append_timed(
                Timed::Cancel,
                threshold,
                *task,
                code,
            ),
            Spawn::Move(_word, _delay, task, _handle, _at) => self.append_timed(
                Timed::Move,
                threshold,
                *task,
                code,
            ),
        }
    }

    /// A spawn, at a static preemption threshold.
    pub(crate) fn send(
        &self,
        threshold: u8,
        spawn: &Spawn,
        code: &mut Lines,
    ) -> Result<(), NoMemory>
        requires { IsPlanned self.now }
        ensures { OnOk result (Appends code.old code.new
            (simple.send_code (context self.now) threshold (next_address code.old) (spawn_of spawn.now))) }
    {
        self.values(spawn, code)?;
        self.goes(threshold, spawn, code)?;
        Ok(())
    }
}
