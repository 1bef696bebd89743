// From the tree of an application text to the application: names become indices in their tables.
// Promises: the application of a tree, and every name that is unknown or declared twice.
// Stands on: rt_lemmas, rt_ids, rt_ast, rt_app.
// Read next: specs/Resolved.antt and specs/NameRules.antt, then src/app.rt.
#![tactic(auto)]

ghost use Rattle.std.specs.Prelude.{◌≡◌, IfOk};
ghost use Rattle.rt_ast.specs.View as written;
ghost use Rattle.rt_ast.specs.Printable.{IsPrintable};
ghost use Rattle.rt_app.specs.View.{app_of};
ghost use Rattle.rt_app.specs.Limits.{KeepsLimits};
ghost use Rattle.rt_resolve.specs.Resolved.{resolved_app};
ghost use Rattle.rt_resolve.specs.NameRules.{name_violations};

mod app;
mod block;
mod body;
mod declared;
mod expression;
mod faults;
mod listing;
mod lookup;
mod naming;
pub mod resolved;
mod scope;
mod twice;
mod variables;

pub use resolved::Resolved;
use rt_ast::AppTree;
use rt_ids::NoMemory;
use std::alloc::Global;

/// The application of a tree, with names as indices in their tables, and all that is wrong with its names: what is
/// declared twice first, and not in order of the text. A name that is not found becomes 255. The tree must be one that
/// prints as a text. It fails for want of memory alone.
pub fn resolve(alloc: Global, tree: &AppTree) -> Result<Resolved, NoMemory>
    requires { IsPrintable (written.app_of tree.now) }
    ensures app { IfOk result (λ r. app_of r.app ≡ resolved_app (written.app_of tree.now)) }
    ensures faults { IfOk result (λ r. r.faults.items ≡ name_violations (written.app_of tree.now)) }
    ensures limits { IfOk result (λ r. KeepsLimits (app_of r.app)) }
{
    let mut faults = Vec::new(alloc);
    let app = app::resolve_app(alloc, &mut faults, tree)?;
    Ok(Resolved { app, faults })
}
