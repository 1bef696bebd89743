// What the statements of one body are judged by.

ghost use Rattle.std.specs.Prelude.{◌≡◌, ◌==◌, ◌&&◌, ℕ, map, option_map, is_none, slice_get, IfOk};
ghost use Rattle.std.specs.List.{list_any};
ghost use Rattle.rt_app.specs.View.{app_of, expression_of};
ghost use Rattle.rt_app.specs.Level.{is_software};
ghost use Rattle.rt_ids.specs.Lists.{is_some_and};
ghost use Rattle.rt_app.specs.Use.{loops as loops_of};
ghost use Rattle.rt_app.specs.Statements.{listing_in, is_lockable, is_free, is_outside, is_misplaced_lock};
ghost use Rattle.rt_app.specs.Statements.{is_inside_itself, is_fixed, is_bad_spawn, is_bad_message};
ghost use Rattle.rt_rules.specs.Inside.Locked.{locked_resources};
ghost use Rattle.rt_rules.specs.Inside.Tables.{has, listing_at};
ghost use Rattle.rt_rules.specs.Inside.View.{member_of};

use crate::listing::{FirstListings, Listing, is_lock_free};
use crate::locked::{Locked, is_locked};
use crate::loops::insert_loops;
use crate::member::Member;
use crate::numbers::Numbers;
use rt_app::{App, Atom, Expr, UNKNOWN};
use rt_ids::{NoMemory, ResId, TaskId};
use std::alloc::Global;

/// What the statements of a body are judged by.
#[derive(Drop)]
pub(crate) struct Judge<'a> {
    pub(crate) app: &'a App,
    pub(crate) member: Member<'a>,
    listings: FirstListings,
    /// The variables of its `for` statements.
    loops: Numbers,
    ghost first_listings: { (r : ℕ) → option_map (λ l. l.listed) (listing_at listings r)
        ≡ listing_in (member_of member) r },
    ghost loop_variables: { (x : ℕ) → has loops x ≡ list_any (λ y. y == x) (loops_of (member_of member).body.block) },
}

impl<'a> Judge<'a> {
    /// What a body of an application is judged by.
    pub(crate) fn of(
        alloc: Global,
        app: &'a App,
        member: &Member<'a>,
    ) -> Result<Judge<'a>, NoMemory>
        ensures { IfOk result (λ judge. (judge.app.now ≡ app.now) × (judge.member ≡ member.now)) }
    {
        let mut loops = Numbers::new(alloc);
        insert_loops(&mut loops, &member.body.block)?;
        Ok(Judge {
            app,
            member: *member,
            listings: body_listings(member),
            loops,
        })
    }

    /// Whether the body reaches a resource by locking it, as it lists it.
    fn is_lockable(&self, resource: ResId) -> bool
        ensures { result ≡ is_lockable (app_of self.now.app.now) (member_of self.now.member) resource }
    {
        match self.listings.of(resource) {
            Some(listing) => !listing.listed.by_ref && !is_lock_free(self.app, resource),
            None => false,
        }
    }

    /// Whether it reaches it without a lock.
    fn is_free(&self, resource: ResId) -> bool
        ensures { result ≡ is_free (app_of self.now.app.now) (member_of self.now.member) resource }
    {
        match self.listings.of(resource) {
            Some(listing) => listing.listed.by_ref || is_lock_free(self.app, resource),
            None => false,
        }
    }

    /// Whether it lists it to be read alone.
    fn is_read_alone(&self, resource: ResId) -> bool
        ensures { result ≡ is_some_and (λ l. l.by_ref) (listing_in (member_of self.now.member) resource) }
    {
        match self.listings.of(resource) {
            Some(listing) => listing.listed.by_ref,
            None => false,
        }
    }

    /// Whether it is a shared resource that the body, one other than `init`, does not reach where these are locked.
    pub(crate) fn is_outside(&self, locked: &Locked<'_>, atom: &Atom) -> bool
        ensures { result ≡ is_outside (app_of self.now.app.now) (member_of self.now.member)
            (locked_resources locked.now)
            atom.now }
    {
        match atom {
            Atom::Var(_) | Atom::Local(_) => false,
            Atom::Shared(resource) => {
                resource.0 != UNKNOWN
                    && !self.member.which.is_init()
                    && !(self.is_free(*resource)
                        || (self.is_lockable(*resource) && is_locked(locked, *resource)))
            }
        }
    }

    /// Whether a lock of it is not the body's to take: `init` locks nothing, any other body what it lists to be locked.
    pub(crate) fn is_misplaced_lock(&self, resource: ResId) -> bool
        ensures { result ≡ is_misplaced_lock (app_of self.now.app.now) (member_of self.now.member) resource }
    {
        resource.0 != UNKNOWN && (self.member.which.is_init() || !self.is_lockable(resource))
    }

    /// Whether it cannot be assigned to: the variable of a `for`, or what the body lists to be read alone.
    pub(crate) fn is_fixed(&self, atom: &Atom) -> bool
        ensures { result ≡ is_fixed (member_of self.now.member) atom.now }
    {
        match atom {
            Atom::Var(variable) => self.loops.has(*variable),
            Atom::Local(_) => false,
            Atom::Shared(resource) => {
                resource.0 != UNKNOWN
                    && !self.member.which.is_init()
                    && self.is_read_alone(*resource)
            }
        }
    }

    /// Whether a task of this number takes no spawn with these arguments.
    pub(crate) fn is_bad_spawn(&self, task: TaskId, args: &[Expr]) -> bool
        ensures { result ≡ is_bad_spawn (app_of self.now.app.now) task (map expression_of args.now) }
    {
        task.0 != UNKNOWN && !takes(self.app, task, args.len())
    }

    /// Whether a task of this number is a hardware task, so that it has no messages.
    pub(crate) fn is_bad_message(&self, task: TaskId) -> bool
        ensures { result ≡ is_bad_message (app_of self.now.app.now) task }
    {
        task.0 != UNKNOWN && !is_software_task(self.app, task)
    }

    /// Whether the application has no monotonic.
    pub(crate) fn is_timeless(&self) -> bool
        ensures { result ≡ is_none (app_of self.now.app.now).mono }
    {
        self.app.mono.is_none()
    }
}

/// Whether it is a software task that takes so many arguments.
fn takes(app: &App, task: TaskId, args: usize) -> bool
    ensures { result ≡ is_some_and (λ t. is_software t && (args == t.args)) (slice_get (app_of app.now).tasks task) }
{
    match app.task(task) {
        Some(task) => task.is_software() && args == usize::from(task.args),
        None => false,
    }
}

/// Whether it is a software task.
fn is_software_task(app: &App, task: TaskId) -> bool
    ensures { result ≡ is_some_and is_software (slice_get (app_of app.now).tasks task) }
{
    match app.task(task) {
        Some(task) => task.is_software(),
        None => false,
    }
}

/// The first listing of each resource by a body.
fn body_listings(member: &Member<'_>) -> FirstListings
    ensures { (r : ℕ) → option_map (λ l. l.listed) (listing_at result r) ≡ listing_in (member_of member.now) r }
{
    let mut first = FirstListings::none();
    for listed in &member.body.shared {
        first.note(Listing {
            listed: *listed,
            priority: member.priority,
        });
    }
    first
}

/// Whether a resource is locked inside itself.
pub(crate) fn is_inside_itself(locked: &Locked<'_>, resource: ResId) -> bool
    ensures { result ≡ is_inside_itself (locked_resources locked.now) resource }
{
    resource.0 != UNKNOWN && is_locked(locked, resource)
}
