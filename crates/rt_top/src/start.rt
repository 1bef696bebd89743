// What a run starts from: a core, and a script.

ghost use Rattle.std.specs.Prelude.{◌≡◌, ℕ, List, IfOk};
ghost use Rattle.rt_app.specs.View.{app_of};
ghost use Rattle.rt_app.specs.Accepted.{IsAccepted};
ghost use Rattle.rt_app.specs.Names.{names_of};
ghost use Rattle.rt_app.specs.Tree as tree;
ghost use Rattle.rt_build.specs.Accepted.{IsApplication};
ghost use Rattle.rt_code.specs.Lines.{HasLines};
ghost use Rattle.rt_core.specs.Machine.{IsFresh};
ghost use Rattle.rt_script.specs.Script.{HasNames};
ghost use Rattle.rt_script.specs.Text.{IsScriptText};
ghost use Rattle.rt_top.specs.Kinds as kind;
ghost use Rattle.rt_top.specs.Outputs.{IsGoodOf};
ghost use Rattle.rt_top.specs.Rtic.{rtic_program};
ghost use Rattle.rt_top.specs.Reads.{given_by};
ghost use Rattle.rt_top.specs.Inside.Using.{HasUse, Reads};

use crate::reading::read_within;
use crate::reply::{Reply, refuse_script};
use rt_app::App;
use rt_core::Core;
use rt_ids::limits::SCRIPT_BYTES;
use rt_ids::{Names, Status};
use rt_outside::Source;
use rt_script::{Script, ScriptRefused, read_script};
use rt_sim::prepare;
use std::alloc::Global;

/// What a run under a script starts from: a core with the application's image, and the script of a source.
pub(crate) fn start<S: Source>(
    alloc: Global,
    app: &App,
    source: &mut S,
) -> Result<(Core, Script), Reply>
    requires accepted { IsAccepted (app_of app.now) }
    ensures reads { (first : List ℕ) → IsApplication first (app_of app.now) →
        let gave = given_by S.past source.old source.new in
        Reads rtic_program kind.Script first gave (HasUse S.past S.left S.faults source.old source.new)
        (λ both. IsScriptText (names_of (app_of app.now)) gave both.1) result }
    ensures good { IfOk result (λ both. IsGoodOf (app_of app.now) both.0.image) }
    ensures fresh { IfOk result (λ both. IsFresh both.0) }
    ensures lines { IfOk result (λ both. HasLines both.0.image) }
    ensures names { IfOk result (λ both. HasNames both.0.image.names both.1) }
{
    let Ok(core) = prepare(alloc, app) else {
        return Err(Reply::Stop(Status::Memory));
    };
    let script = read_script_of(alloc, source, &core.image().names)?;
    Ok((core, script))
}

/// Reads a script over these names.
fn read_script_of<S: Source>(alloc: Global, source: &mut S, names: &Names) -> Result<Script, Reply>
    ensures reads { (first : List ℕ) (app : tree.App) → IsApplication first app → names.now ≡ names_of app →
        let gave = given_by S.past source.old source.new in
        Reads rtic_program kind.Script first gave (HasUse S.past S.left S.faults source.old source.new)
        (λ script. IsScriptText names.now gave script) result }
    ensures names { IfOk result (λ script. HasNames names.now script) }
{
    let text = match read_within(alloc, source, SCRIPT_BYTES) {
        Ok(Some(text)) => text,
        Ok(None) => return Err(refuse_script(alloc, ScriptRefused::TooLong)),
        Err(status) => return Err(Reply::Stop(status)),
    };
    match read_script(alloc, &text, names) {
        Ok(script) => Ok(script),
        Err(refusal) => Err(refuse_script(alloc, refusal)),
    }
}
