// The resources that are locked round a statement.

ghost use Rattle.std.specs.Prelude.{◌≡◌, ◌==◌};
ghost use Rattle.std.specs.List.{list_any};
ghost use Rattle.rt_rules.specs.Inside.Locked.{locked_resources};

use rt_ids::ResId;

/// The resources that are locked round a statement, innermost first.
#[derive(Drop)]
pub(crate) enum Locked<'a> {
    Nothing,
    Inside(ResId, &'a Locked<'a>),
}

/// Whether a resource is locked.
pub(crate) fn is_locked(locked: &Locked<'_>, resource: ResId) -> bool
    ensures { result ≡ list_any (λ q. q == resource) (locked_resources locked.now) }
{
    match locked {
        Locked::Nothing => false,
        Locked::Inside(inner, outer) => *inner == resource || is_locked(outer, resource),
    }
}
