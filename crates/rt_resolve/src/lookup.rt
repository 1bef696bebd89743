// Finds declared things by their names.

ghost use Rattle.std.specs.Prelude.{◌≡◌, ◌≤◌, ◌<◌, IfSome, length, position, unwrap_or, None, option_map};
ghost use Rattle.std.specs.Prelude.{if◌then◌else◌};
ghost use Rattle.std.specs.Option.{option_or};
ghost use Rattle.std.specs.List.{list_any};
ghost use Rattle.rt_app.specs.declared.expr.Atom.TheVariants as atom;
ghost use Rattle.rt_ast.specs.View.{app_of};
ghost use Rattle.rt_resolve.specs.Scope as named;
ghost use Rattle.rt_resolve.specs.Misnamed as wrong;
ghost use Rattle.rt_resolve.specs.Inside.NamesView.{names_of, IsCounted};

use crate::naming::Named;
use crate::scope::{Names, is_named};
use rt_app::{Atom, UNKNOWN};
use rt_ast::{AppTree, Ident};
use rt_ids::ResId;

/// The index of what is found in its table, which has at most 255 rows.
fn index(found: Option<usize>) -> Option<u8>
    requires { IfSome found (λ n. n ≤ 255) }
    ensures { result ≡ found }
{
    match found {
        Some(n) => Some(n as u8),
        None => None,
    }
}

/// The index of the first of these that has this name.
fn position_of<T: Named>(declared: &[T], name: &[u8]) -> Option<usize>
    ensures index { result ≡ position (λ d. named.is_named name.now (T.ident d)) declared.now }
    ensures within { IfSome result (λ n. n < length declared.now) }
{
    declared.iter().position(|d| is_named(d.ident(), name))
}

/// The index of the interrupt of this name, where it is declared.
pub(crate) fn irq_named(app: &AppTree, name: &[u8]) -> Option<u8>
    requires { IsCounted (app_of app.now) }
    ensures { result ≡ named.irq_named (app_of app.now) name.now }
{
    index(position_of(&app.irqs, name))
}

/// The index of the task of this name, where it is declared.
pub(crate) fn task_named(app: &AppTree, name: &[u8]) -> Option<u8>
    requires { IsCounted (app_of app.now) }
    ensures { result ≡ named.task_named (app_of app.now) name.now }
{
    index(position_of(&app.tasks, name))
}

/// The index of the shared resource of this name, where it is declared.
pub(crate) fn shared_resource_named(app: &AppTree, name: &[u8]) -> Option<u8>
    requires { IsCounted (app_of app.now) }
    ensures { result ≡ named.shared_resource_named (app_of app.now) name.now }
{
    index(position_of(&app.shared, name))
}

/// The index of the local resource of this name, where it is declared.
pub(crate) fn local_named(app: &AppTree, name: &[u8]) -> Option<u8>
    requires { IsCounted (app_of app.now) }
    ensures { result ≡ named.local_named (app_of app.now) name.now }
{
    index(position_of(&app.locals, name))
}

/// The number of what is found, and 255 where nothing is.
pub(crate) fn or_unknown(found: Option<u8>) -> u8
    ensures { result ≡ named.or_unknown found }
{
    found.unwrap_or(UNKNOWN)
}

/// Whether this name is among these.
fn is_listed(listed: &[Ident], name: &[u8]) -> bool
    ensures { result ≡ list_any (named.is_named name.now) listed.now }
{
    listed.iter().any(|x| is_named(x, name))
}

/// The index of a local resource of this name, where the body lists it.
fn owned_local_named(names: &Names, name: &[u8]) -> Option<u8>
    requires { IsCounted (names_of names.now).app }
    ensures { result ≡
        (if list_any (named.is_named name.now) names.now.local.now
        then named.local_named (names_of names.now).app name.now else None) }
{
    if is_listed(names.local, name) {
        local_named(names.app, name)
    } else {
        None
    }
}

/// The resource that this name stands for where no variable has it: a shared one before a local one.
fn resource_named(names: &Names, name: &[u8]) -> Option<Atom>
    requires { IsCounted (names_of names.now).app }
    ensures { let n = names_of names.now in result ≡
        option_or (option_map atom.Shared (named.shared_resource_named n.app name.now))
        (named.owned_local_named n name.now) }
{
    match shared_resource_named(names.app, name) {
        Some(shared) => Some(Atom::Shared(ResId(shared))),
        None => match owned_local_named(names, name) {
            Some(local) => Some(Atom::Local(local)),
            None => None,
        },
    }
}

/// What this name stands for: a variable before a resource.
pub(crate) fn meaning(names: &Names, name: &[u8]) -> Option<Atom>
    requires { IsCounted (names_of names.now).app }
    ensures { result ≡ named.meaning (names_of names.now) name.now }
{
    match names.variables.number_of(name) {
        Some(number) => Some(Atom::Var(number)),
        None => resource_named(names, name),
    }
}

/// What is found, and the shared resource 255 where nothing is.
pub(crate) fn or_unknown_atom(found: Option<Atom>) -> Atom
    ensures { result ≡ unwrap_or found (atom.Shared UNKNOWN) }
{
    found.unwrap_or(Atom::Shared(ResId(UNKNOWN)))
}

/// Whether a variable cannot have this name.
pub(crate) fn is_taken(names: &Names, name: &[u8]) -> bool
    requires { IsCounted (names_of names.now).app }
    ensures { result ≡ wrong.is_taken (names_of names.now) name.now }
{
    shared_resource_named(names.app, name).is_some()
        || local_named(names.app, name).is_some()
        || names.variables.has(name)
}
