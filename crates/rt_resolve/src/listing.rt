// Resolves what a body lists, and notes what it lists twice.

ghost use Rattle.std.specs.Prelude.{◌≡◌, ◌++◌, [], map, flat_map, IfOk, OnOk};
ghost use Rattle.rt_ast.specs.View as written;
ghost use Rattle.rt_resolve.specs.Scope as named;
ghost use Rattle.rt_resolve.specs.Resolved as meant;
ghost use Rattle.rt_resolve.specs.Misnamed as wrong;
ghost use Rattle.rt_resolve.specs.NameRules as rules_on;
ghost use Rattle.rt_resolve.specs.Inside.NamesView.{IsCounted, use_of};

use crate::faults::{number_or_fault, push_when};
use crate::lookup::{local_named, shared_resource_named};
use rt_app::{Listed, Owned, Violation};
use rt_ast::{AppTree, Ident, ListedTree};
use rt_ids::{NoMemory, ResId, Rule};
use std::alloc::Global;

/// Numbers that a byte can have.
const BYTE_VALUES: usize = 256;

/// A listing of a resource that is declared.
#[derive(Clone, Copy)]
struct Listing {
    /// The resource, by its index in the order of declaration.
    number: u8,
    /// The offset of its name.
    at: u32,
}

/// The shared resources that a body lists.
pub(crate) fn resolve_shared(
    alloc: Global,
    faults: &mut Vec<Violation>,
    app: &AppTree,
    listed: &[ListedTree],
) -> Result<Vec<Listed>, NoMemory>
    requires { IsCounted (written.app_of app.now) }
    ensures listed { IfOk result (λ ls. ls.items ≡ map (meant.resolved_listing (written.app_of app.now)) listed.now) }
    ensures faults { OnOk result (faults.new.items ≡
        faults.old.items ++ flat_map
        (λ l. wrong.if_unknown (named.shared_resource_named (written.app_of app.now) l.name.name) l.name.at)
        listed.now) }
{
    let mut resolved = Vec::new(alloc);
    for l in listed {
        let number = number_or_fault(
            faults,
            shared_resource_named(app, l.name.name.bytes()),
            l.name.at,
        )?;
        resolved.push(Listed {
            resource: ResId(number),
            by_ref: l.by_ref,
            at: l.at,
        })?;
    }
    Ok(resolved)
}

/// The local resources that a body lists.
pub(crate) fn resolve_local(
    alloc: Global,
    faults: &mut Vec<Violation>,
    app: &AppTree,
    listed: &[Ident],
) -> Result<Vec<Owned>, NoMemory>
    requires { IsCounted (written.app_of app.now) }
    ensures owned { IfOk result (λ xs. xs.items ≡ map (meant.resolved_local (written.app_of app.now)) listed.now) }
    ensures faults { OnOk result (faults.new.items ≡ faults.old.items
        ++ flat_map (λ x. wrong.if_unknown (named.local_named (written.app_of app.now) x.name) x.at) listed.now) }
{
    let mut resolved = Vec::new(alloc);
    for x in listed {
        let number = number_or_fault(faults, local_named(app, x.name.bytes()), x.at)?;
        resolved.push(Owned {
            local: number,
            at: x.at,
        })?;
    }
    Ok(resolved)
}

/// Appends the listing of what is found.
fn push_listing(listings: &mut Vec<Listing>, found: Option<u8>, at: u32) -> Result<(), NoMemory>
    ensures { OnOk result (map use_of listings.new.items ≡
        map use_of listings.old.items ++ rules_on.listing_of found at) }
{
    if let Some(number) = found {
        listings.push(Listing { number, at })?;
    }
    Ok(())
}

/// The listings of declared shared resources.
fn shared_listings(
    alloc: Global,
    app: &AppTree,
    listed: &[ListedTree],
) -> Result<Vec<Listing>, NoMemory>
    requires { IsCounted (written.app_of app.now) }
    ensures { IfOk result (λ ls. map use_of ls.items ≡
        flat_map
        (λ l. rules_on.listing_of (named.shared_resource_named (written.app_of app.now) l.name.name) l.name.at)
        listed.now) }
{
    let mut listings = Vec::new(alloc);
    for l in listed {
        let found = shared_resource_named(app, l.name.name.bytes());
        push_listing(&mut listings, found, l.name.at)?;
    }
    Ok(listings)
}

/// The listings of declared local resources.
fn local_listings(alloc: Global, app: &AppTree, listed: &[Ident]) -> Result<Vec<Listing>, NoMemory>
    requires { IsCounted (written.app_of app.now) }
    ensures { IfOk result (λ ls. map use_of ls.items ≡
        flat_map (λ x. rules_on.listing_of (named.local_named (written.app_of app.now) x.name) x.at) listed.now) }
{
    let mut listings = Vec::new(alloc);
    for x in listed {
        let found = local_named(app, x.name.bytes());
        push_listing(&mut listings, found, x.at)?;
    }
    Ok(listings)
}

/// Appends the faults of the listings of a resource that is listed before.
fn push_listed_twice(faults: &mut Vec<Violation>, listings: &[Listing]) -> Result<(), NoMemory>
    ensures { OnOk result (faults.new.items ≡ faults.old.items ++ rules_on.listed_twice [] (map use_of listings.now)) }
{
    let mut is_listed = [false; BYTE_VALUES];
    for listing in listings {
        let number = usize::from(listing.number);
        push_when(faults, is_listed[number], Rule::DeclaredTwice, listing.at)?;
        is_listed[number] = true;
    }
    Ok(())
}

/// Appends the faults of the shared resources that a body lists twice.
pub(crate) fn push_shared_twice(
    alloc: Global,
    faults: &mut Vec<Violation>,
    app: &AppTree,
    listed: &[ListedTree],
) -> Result<(), NoMemory>
    requires { IsCounted (written.app_of app.now) }
    ensures { OnOk result (faults.new.items ≡
        faults.old.items
        ++ rules_on.listed_twice [] (flat_map
        (λ l. rules_on.listing_of (named.shared_resource_named (written.app_of app.now) l.name.name) l.name.at)
        listed.now)) }
{
    let listings = shared_listings(alloc, app, listed)?;
    push_listed_twice(faults, &listings)
}

/// Appends the faults of the local resources that a body lists twice.
pub(crate) fn push_local_twice(
    alloc: Global,
    faults: &mut Vec<Violation>,
    app: &AppTree,
    listed: &[Ident],
) -> Result<(), NoMemory>
    requires { IsCounted (written.app_of app.now) }
    ensures { OnOk result (faults.new.items ≡
        faults.old.items ++ rules_on.listed_twice []
        (flat_map (λ x. rules_on.listing_of (named.local_named (written.app_of app.now) x.name) x.at) listed.now)) }
{
    let listings = local_listings(alloc, app, listed)?;
    push_listed_twice(faults, &listings)
}
