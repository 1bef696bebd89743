// The thread after `init`.

ghost use Rattle.std.specs.Prelude.{IfOk, []};
ghost use Rattle.rt_actions.specs.Action.{Ends};
ghost use Rattle.rt_ids.specs.declared.ids.BodyId.TheVariants as body_id;
ghost use Rattle.rt_app.specs.View.{body_of, app_of};
ghost use Rattle.rt_app.specs.BodyCost.{cost_measure, body_cost};
ghost use Rattle.rt_app.specs.Doings.{body_doing, nothing};
ghost use Rattle.rt_app.specs.Sending.{act};
ghost use Rattle.rt_laws.specs.State as laws;
ghost use Rattle.rt_laws.specs.Acting.{idle_job};
ghost use Rattle.rt_baker_work.specs.Code.{IsCode};
ghost use Rattle.rt_baker_work.specs.Store.{contents, MayTakeOne};
ghost use Rattle.rt_baker_moves.specs.Inside.Moves.{IsBegun};

use crate::job::{Job, Role};
use rt_app::Body;
use rt_baker_work::walk::settle;
use rt_baker_work::{Code, Store, Work};
use rt_ids::NoMemory;

/// The thread as it begins this body of `idle`, which runs as far as its first action.
fn run<'a>(code: &Code<'a>, body: &'a Body, store: &mut Store) -> Result<Job<'a>, NoMemory>
    requires code { IsCode code.now }
    requires room { MayTakeOne store.old }
    ensures { let app = app_of code.now.app.now in
        IfOk result (λ job. IsBegun app (laws.new_job laws.Idle 0
        (body_cost (cost_measure app) (body_of body.entry.now))
        (body_doing app (body_of body.entry.now) [] (act (Ends body_id.Idle) nothing) (contents store.old))) store.old
        job store.new) }
{
    let mut work = Work::new(code.alloc);
    work.begin(body.block.as_slice(), Vec::new(code.alloc))?;
    settle(code, &mut work, store)?;
    let cost = u64::from(code.measure.body(body));
    Ok(Job::new(code.alloc, Role::Idle, 0, cost, work))
}

/// The thread as it begins `idle`, or as it waits where that is absent.
pub(crate) fn idle<'a>(code: &Code<'a>, store: &mut Store) -> Result<Job<'a>, NoMemory>
    requires code { IsCode code.now }
    requires room { MayTakeOne store.old }
    ensures { let app = app_of code.now.app.now in
        IfOk result (λ job. IsBegun app (idle_job app (contents store.old) app.idle) store.old job store.new) }
{
    match &code.app.idle {
        None => Ok(Job::new(code.alloc, Role::Waiting, 0, 0, Work::new(code.alloc))),
        Some(body) => {
            let job = run(code, body, store)?;
            Ok(job)
        }
    }
}
