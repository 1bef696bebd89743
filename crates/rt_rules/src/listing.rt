// The rules on how resources are listed: shared, exclusive, `lock_free`.

#![tactic(auto, using(crate::proofs::Fold::first_of_append))]

ghost use Rattle.std.specs.Prelude.{◌≡◌, ◌==◌, ◌++◌, ℕ, [], Some, None, map, flat_map, find, if◌then◌else◌};
ghost use Rattle.std.specs.Prelude.{IfOk, OnOk};
ghost use Rattle.rt_app.specs.View.{app_of};
ghost use Rattle.rt_app.specs.Bodies.{members};
ghost use Rattle.rt_app.specs.Declarations.{is_known};
ghost use Rattle.rt_app.specs.Listing.{listings_of, listings_breaks, is_lock_free, is_shared_and_exclusive};
ghost use Rattle.rt_app.specs.Listing.{is_at_two_priorities, breaks_beside};
ghost use Rattle.rt_rules.specs.Inside.First.{first_of};
ghost use Rattle.rt_rules.specs.Inside.View.{member_of};
ghost use Rattle.rt_rules.specs.Inside.Tables.{listing_at, or_else};

use crate::first::First;
use crate::member::Member;
use rt_app::{App, Listed, UNKNOWN};
use rt_ids::{NoMemory, ResId, Rule};
use std::alloc::Global;
use std::marker::Model;

/// Numbers that a byte can have.
const BYTE_VALUES: usize = 256;

/// A listing of a shared resource, by a body of a priority.
#[derive(Clone, Copy)]
pub(crate) struct Listing {
    pub(crate) listed: Listed,
    pub(crate) priority: u8,
}

impl Model for Listing {
    ghost use Rattle.rt_app.specs.Listing.{Listing};

    ghost Value = { Listing };

    ghost view = { λ l. record { listed = l.listed; priority = l.priority } };

    ghost inverse = { λ l. record { listed = l.listed; priority = l.priority } };
}

/// The first listing of each resource.
#[derive(Drop)]
pub(crate) struct FirstListings {
    by_resource: [Option<Listing>; BYTE_VALUES],
}

impl FirstListings {
    /// No listings.
    pub(crate) fn none() -> FirstListings
        ensures { (r : ℕ) → listing_at result r ≡ None }
    {
        FirstListings {
            by_resource: [None; BYTE_VALUES],
        }
    }

    /// The first listing of a resource.
    pub(crate) fn of(&self, resource: ResId) -> Option<Listing>
        ensures { result ≡ listing_at self.now resource }
    {
        self.by_resource[resource.0 as usize]
    }

    /// Keeps a listing, where it is the first of its resource.
    pub(crate) fn note(&mut self, listing: Listing)
        ensures { (r : ℕ) → listing_at self.new r
            ≡ or_else (listing_at self.old r) (if listing.listed.resource == r then Some listing else None) }
    {
        let first = &mut self.by_resource[listing.listed.resource.0 as usize];
        if first.is_none() {
            *first = Some(listing);
        }
    }
}

/// The first listing of each resource among these.
pub(crate) fn first_listings(listings: &[Listing]) -> FirstListings
    ensures { (r : ℕ) → listing_at result r ≡ find (λ l. l.listed.resource == r) listings.now }
{
    let mut first = FirstListings::none();
    for listing in listings {
        first.note(*listing);
    }
    first
}

/// Appends the listings of a body.
fn push_listings(listings: &mut Vec<Listing>, member: &Member<'_>) -> Result<(), NoMemory>
    ensures { OnOk result (listings.new.items ≡ listings.old.items ++ listings_of (member_of member.now)) }
{
    for listed in &member.body.shared {
        listings.push(Listing {
            listed: *listed,
            priority: member.priority,
        })?;
    }
    Ok(())
}

/// The listings of bodies in order.
pub(crate) fn listings(alloc: Global, members: &[Member<'_>]) -> Result<Vec<Listing>, NoMemory>
    ensures { IfOk result (λ list. list.items ≡ flat_map listings_of (map member_of members.now)) }
{
    let mut listings = Vec::new(alloc);
    for member in members {
        push_listings(&mut listings, member)?;
    }
    Ok(listings)
}

/// Whether a resource is used without a lock.
pub(crate) fn is_lock_free(app: &App, resource: ResId) -> bool
    ensures { result ≡ is_lock_free (app_of app.now) resource }
{
    match app.shared.get(resource.0 as usize) {
        Some(shared) => shared.lock_free,
        None => false,
    }
}

/// Whether a listing is shared where the first is exclusive, or the other way round, or shared and of a resource that
/// is used without a lock.
fn is_shared_and_exclusive(app: &App, first: &Listing, listing: &Listing) -> bool
    ensures { result ≡ is_shared_and_exclusive (app_of app.now) first.now listing.now }
{
    listing.listed.by_ref != first.listed.by_ref
        || (listing.listed.by_ref && is_lock_free(app, listing.listed.resource))
}

/// Whether a resource that is used without a lock is listed at another priority than first.
fn is_at_two_priorities(app: &App, first: &Listing, listing: &Listing) -> bool
    ensures { result ≡ is_at_two_priorities (app_of app.now) first.now listing.now }
{
    is_lock_free(app, listing.listed.resource) && listing.priority != first.priority
}

/// Offers what a listing breaks beside the first one of its resource.
fn judge_beside(first: &mut First, app: &App, listing: &Listing, first_listing: &Option<Listing>)
    ensures { first.new ≡ first_of first.old (breaks_beside (app_of app.now) listing.now first_listing.now) }
{
    if let Some(first_listing) = first_listing {
        let at = listing.listed.at;
        first.offer_when(
            is_shared_and_exclusive(app, first_listing, listing),
            Rule::SharedAndExclusive,
            at,
        );
        first.offer_when(
            is_at_two_priorities(app, first_listing, listing),
            Rule::LockFreeAtTwoPriorities,
            at,
        );
    }
}

/// Offers what a listing breaks.
fn judge_listing(first: &mut First, app: &App, first_listings: &FirstListings, listing: &Listing)
    ensures { first.new ≡ first_of first.old
        (if is_known listing.now.listed.resource
        then breaks_beside (app_of app.now) listing.now (listing_at first_listings.now listing.now.listed.resource)
        else []) }
{
    let resource = listing.listed.resource;
    if resource.0 != UNKNOWN {
        judge_beside(first, app, listing, &first_listings.of(resource));
    }
}

/// Offers the listings that break a rule.
pub(crate) fn judge_listings(
    alloc: Global,
    first: &mut First,
    app: &App,
    bodies: &[Member<'_>],
) -> Result<(), NoMemory>
    requires { map member_of bodies.now ≡ members (app_of app.now) }
    ensures { OnOk result (first.new ≡ first_of first.old (listings_breaks (app_of app.now))) }
{
    let listings = listings(alloc, bodies)?;
    let first_listings = first_listings(&listings);
    for listing in &listings {
        judge_listing(first, app, &first_listings, listing);
    }
    Ok(())
}
