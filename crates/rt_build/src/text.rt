// The application of a text, or its refusal, in one call; and the laws that it is one of both.

ghost use Rattle.std.specs.Prelude.{◌≡◌, IfOk, Err};
ghost use Rattle.rt_ids.specs.declared.refusal.Fault.{Fault};
ghost use Rattle.rt_ids.specs.declared.refusal.Refused.TheVariants as why;
ghost use Rattle.rt_app.specs.Tree as application;
ghost use Rattle.rt_app.specs.View.{app_of};
ghost use Rattle.rt_app.specs.Limits.{KeepsLimits};
ghost use Rattle.rt_app.specs.Accepted.{IsAccepted};
ghost use Rattle.rt_build.specs.Accepted.{IsApplication, IsRefusedText};
ghost use Rattle.rt_build.specs.Accepted.{EachIsApplicationOrRefused, NoApplicationIsRefused};

use crate::tree::judge;
use rt_app::App;
use rt_ids::Refused;
use rt_parse::parse;
use std::alloc::Global;

/// The application of a text, or the refusal of the text: that it is too long; or else what is met first from the left,
/// a foreign byte, a place after which no application goes on so, or a limit that is passed; or else the first rule
/// that is broken, that at the first place, and there that of the lowest refusal number.
pub fn accept(alloc: Global, src: &[u8]) -> Result<App, Refused>
    ensures ok { IfOk result (λ app. IsApplication src.now (app_of app)) }
    ensures only { IfOk result (λ app. (other : application.App) → IsApplication src.now other → other ≡ app_of app) }
    ensures limits { IfOk result (λ app. KeepsLimits (app_of app)) }
    ensures accepted { IfOk result (λ app. IsAccepted (app_of app)) }
    ensures refused { (fault : Fault) → result ≡ Err (why.At fault) → IsRefusedText src.now fault }
    ensures first { (fault other : Fault) → result ≡ Err (why.At fault) → IsRefusedText src.now other → other ≡ fault }
    ensures none { (fault : Fault) → result ≡ Err (why.At fault) → (app : application.App) →
        IsApplication src.now app → ⊥ }
{
    match parse(alloc, src) {
        Ok(tree) => judge(alloc, src, &tree),
        Err(refused) => Err(refused),
    }
}

/// What is the text of an application has no refusal.
pub fn no_application_is_refused()
    ensures { NoApplicationIsRefused }
{}

/// Any bytes are the text of an application or have a refusal.
pub fn each_is_application_or_refused()
    ensures { EachIsApplicationOrRefused }
{}
