// One thing that happens to a core, whose lines go out at once.
ghost use Rattle.std.specs.Prelude.{◌≡◌, [], OnErr, OnOk};
ghost use Rattle.rt_app.specs.View.{app_of};
ghost use Rattle.rt_outside.specs.Faults.{HasCause};
ghost use Rattle.rt_script.specs.Script.{HasNames};
ghost use Rattle.rt_given.specs.Given.{asked_line, count_of};
ghost use Rattle.rt_inputs.specs.Inside.Ran.{Ran, moment};
ghost use Rattle.rt_inputs.specs.Script.{line_happenings};
ghost use Rattle.rt_live_inputs.specs.Inside.Going.{CanHappen, CameOf, IsOne, StopsIn};

use rt_app::App;
use rt_board::Board;
use rt_core::Core;
use rt_given::GivenLine;
use rt_inputs::{Held, Registers, put_held, run_line};
use rt_outside::{Failed, Sink};

/// What goes on from one thing that happens to the next.
#[derive(Drop)]
pub(crate) struct Going {
    /// What the registers of devices hold.
    pub registers: Registers,
    /// Room for the lines of what happens before they go out, in which nothing is kept.
    pub held: Held,
    /// Whether no fault of the sink has come.
    pub went: bool,
}

/// What a line stands for happens, and its lines go out.
fn put_now<K: Sink>(
    core: &mut Core,
    app: &App,
    board: &Board,
    registers: &mut Registers,
    line: &GivenLine,
    out: &mut K,
    held: &mut Held,
) -> Result<(), Failed>
    requires can { CanHappen (count_of line.now) (app_of app.now) board.now core.old }
    requires declared { HasNames core.old.image.names (asked_line line.now) }
    requires one { IsOne (line_happenings line.now) }
    ensures ok { OnOk result (Ran (app_of app.now) board.now (line_happenings line.now)
        (moment core.old registers.old) (moment core.new registers.new) (K.taken out.old) (K.taken out.new) [] []) }
    ensures err { OnErr result (StopsIn (app_of app.now) board.now (line_happenings line.now)
        (moment core.old registers.old) core.new (K.taken out.old) (K.taken out.new)) }
    ensures cause { HasCause (K.faults out.old) (K.faults out.new) result }
    ensures quiet { OnOk result (K.faults out.new ≡ K.faults out.old) }
{
    held.clear();
    run_line(core, app, board, registers, line, out, held)?;
    put_held(out, held)
}

/// What a line stands for happens, where no fault has come, and its lines go out.
pub(crate) fn happen<K: Sink>(
    core: &mut Core,
    app: &App,
    board: &Board,
    going: &mut Going,
    line: &GivenLine,
    out: &mut K,
)
    requires can { CanHappen (count_of line.now) (app_of app.now) board.now core.old }
    requires declared { HasNames core.old.image.names (asked_line line.now) }
    requires one { IsOne (line_happenings line.now) }
    ensures { CameOf (app_of app.now) board.now (line_happenings line.now) going.old.went going.new.went
        (moment core.old going.old.registers) (moment core.new going.new.registers)
        (K.taken out.old) (K.taken out.new) (K.faults out.old) (K.faults out.new) }
{
    if !going.went {
        return;
    }
    let registers = &mut going.registers;
    let done = put_now(core, app, board, registers, line, out, &mut going.held);
    going.went = done.is_ok();
}
