// The one public call: the tree of a text, or its first refusal.

ghost use Rattle.std.specs.Prelude.{◌≡◌, ◌≤◌, length, IfOk, Err};
ghost use Rattle.rt_ids.specs.declared.limits.TheConstants.{TEXT_BYTES};
ghost use Rattle.rt_parse.specs.Inside.Fault.{fault_of};
ghost use Rattle.rt_ids.specs.declared.refusal.Fault.{Fault};
ghost use Rattle.rt_ids.specs.declared.refusal.Refused.TheVariants as why;
ghost use Rattle.rt_ast.specs.Tree.{App};
ghost use Rattle.rt_ast.specs.View.{app_of};
ghost use Rattle.rt_grammar.specs.Text.{IsText, IsRefused};

use crate::body::whole;
use crate::stop::{Found, Stop};
use rt_ast::AppTree;
use rt_ids::limits::TEXT_BYTES;
use rt_ids::{Fault, Place, Refusal, Refused};
use rt_lex::{Tokens, place};
use std::alloc::Global;

/// A text that is too long is refused at its first byte.
const TOO_LONG: Fault = Fault {
    place: Place { line: 1, col: 1 },
    refusal: Refusal::TooLong,
};

/// The tree of an application text, or its first refusal: that it is too long, or else what is met first from the left,
/// a byte that no token begins with, a token with which the text is no beginning of an application (or its end, where
/// it ends too early), or a limit that is passed.
pub fn parse(alloc: Global, src: &[u8]) -> Result<AppTree, Refused>
    ensures ok { IfOk result (λ tree. IsText src.now (app_of tree)) }
    ensures only { IfOk result (λ tree. (other : App) → IsText src.now other → other ≡ app_of tree) }
    ensures refused { (fault : Fault) → result ≡ Err (why.At fault) → IsRefused src.now fault }
    ensures first { (fault other : Fault) → result ≡ Err (why.At fault) → IsRefused src.now other → other ≡ fault }
    ensures none { (fault : Fault) → result ≡ Err (why.At fault) → (app : App) → IsText src.now app → ⊥ }
{
    if src.len() > TEXT_BYTES as usize {
        return Err(Refused::At(TOO_LONG));
    }
    match whole(alloc, Tokens::of(src)) {
        Ok(tree) => Ok(tree),
        Err(Stop::Memory) => Err(Refused::NoMemory),
        Err(Stop::At(found)) => Err(Refused::At(fault_of(src, found))),
    }
}

/// What was found, with its line and column.
fn fault_of(src: &[u8], found: Found) -> Fault
    requires { length src.now ≤ TEXT_BYTES }
    ensures { result ≡ fault_of src.now found }
{
    let end = src.len() as u32;
    let at = found.at.map_or(end, |at| at.min(end));
    Fault {
        place: place(src, at),
        refusal: found.refusal,
    }
}
