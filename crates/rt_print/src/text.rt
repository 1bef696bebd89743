// Prints names.

ghost use Rattle.std.specs.Prelude.{◌≡◌, ◌++◌, OnOk};
ghost use Rattle.rt_ast.specs.CanonicalExpression.{name_text};

use rt_ast::Ident;
use rt_ids::{NoMemory, push_bytes};

/// Appends a name.
pub(crate) fn push_name(out: &mut Vec<u8>, ident: &Ident) -> Result<(), NoMemory>
    ensures { OnOk result (out.new.items ≡ out.old.items ++ name_text ident.now) }
{
    push_bytes(out, ident.name.bytes())
}
