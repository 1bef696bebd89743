// Where the names of a body are looked up.

ghost use Rattle.std.specs.Prelude.{◌≡◌};
ghost use Rattle.rt_resolve.specs.Scope as named;

use crate::variables::Variables;
use rt_ast::{AppTree, Ident};

/// Where the names of a body are looked up.
#[derive(Drop)]
pub(crate) struct Names<'a> {
    pub(crate) app: &'a AppTree,
    /// The local resources that the body lists.
    pub(crate) local: &'a [Ident],
    pub(crate) variables: Variables<'a>,
}

/// Whether this is the name.
pub(crate) fn is_named(x: &Ident, name: &[u8]) -> bool
    ensures { result ≡ named.is_named name.now x.now }
{
    x.name.bytes() == name
}
