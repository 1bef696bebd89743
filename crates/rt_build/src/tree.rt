// The application of a tree, or the first rule that it breaks.

ghost use Rattle.std.specs.Prelude.{◌≡◌, IfOk, Err};
ghost use Rattle.rt_ids.specs.declared.refusal.Fault.{Fault};
ghost use Rattle.rt_ids.specs.declared.refusal.Refused.TheVariants as why;
ghost use Rattle.rt_ast.specs.View as written;
ghost use Rattle.rt_grammar.specs.Text.{IsText};
ghost use Rattle.rt_app.specs.View.{app_of};
ghost use Rattle.rt_app.specs.Limits.{KeepsLimits};
ghost use Rattle.rt_app.specs.Accepted.{IsAccepted};
ghost use Rattle.rt_build.specs.Accepted.{KeepsRules, IsBroken};

use rt_app::App;
use rt_ast::AppTree;
use rt_ids::Refused;
use rt_parse::laws::texts_keep_limits;
use rt_resolve::resolve;
use rt_rules::rules;
use std::alloc::Global;

/// The application of a text that was read as this tree, where it breaks no rule; else the first rule that it breaks:
/// that at the first place, and there that of the lowest refusal number.
pub fn judge(alloc: Global, src: &[u8], tree: &AppTree) -> Result<App, Refused>
    requires text { IsText src.now (written.app_of tree.now) }
    ensures ok { IfOk result (λ app. KeepsRules (written.app_of tree.now) (app_of app)) }
    ensures limits { IfOk result (λ app. KeepsLimits (app_of app)) }
    ensures accepted { IfOk result (λ app. IsAccepted (app_of app)) }
    ensures refused { (fault : Fault) → result ≡ Err (why.At fault) → IsBroken src.now (written.app_of tree.now) fault }
{
    texts_keep_limits();
    match resolve(alloc, tree) {
        Ok(resolved) => rules(alloc, src, resolved),
        Err(_) => Err(Refused::NoMemory),
    }
}
