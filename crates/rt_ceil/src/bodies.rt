// Fills the tables of users, body by body.

ghost use Rattle.std.specs.Prelude.{◌≡◌, map, option_map, IfOk};
ghost use Rattle.std.specs.List.{fold};
ghost use Rattle.rt_app.specs.View.{block_of, body_of, task_of, app_of};
ghost use Rattle.rt_ceil.specs.Inside.Tables.{tables_after_listing, tables_after_body, used_by_thread, used_by_task};
ghost use Rattle.rt_ceil.specs.Inside.Tables.{filled_tables};

use crate::spawns::count_block;
use crate::tables::{Tables, raise};
use rt_app::{App, Body, Listed};
use rt_ids::NoMemory;
use std::alloc::Global;

/// Raises the entry of the resource that a body of this priority lists.
fn count_listing(tables: &mut Tables, priority: u8, listing: Listed)
    ensures { tables.new ≡ tables_after_listing priority tables.old listing }
{
    raise(&mut tables.shared, listing.resource.0, priority);
}

/// Raises the entries of the resources that a body of this priority lists.
fn count_listed(tables: &mut Tables, priority: u8, listings: &[Listed])
    ensures { tables.new ≡ fold (tables_after_listing priority) tables.old listings.now }
{
    for listing in listings {
        count_listing(tables, priority, *listing);
    }
}

/// Raises the entries of what a body of this priority uses.
fn count_body(tables: &mut Tables, app: &App, priority: u8, body: &Body)
    ensures { let block = block_of body.now.block.items in
        tables.new ≡ tables_after_body (app_of app.now) priority body.now.shared.items block tables.old }
{
    count_listed(tables, priority, &body.shared);
    count_block(tables, app, priority, &body.block);
}

/// Raises the entries of what `init` or `idle` uses.
fn count_thread(tables: &mut Tables, app: &App, body: &Option<Body>)
    ensures { tables.new ≡ used_by_thread (app_of app.now) tables.old (option_map body_of body.now) }
{
    if let Some(body) = body {
        count_body(tables, app, 0, body);
    }
}

/// Raises the entries of what the tasks use.
fn count_tasks(tables: &mut Tables, app: &App)
    ensures { tables.new ≡ fold (used_by_task (app_of app.now)) tables.old (map task_of app.now.tasks.items) }
{
    for task in &app.tasks {
        count_body(tables, app, task.priority, &task.body);
    }
}

/// The tables of an application after its last body.
pub(crate) fn fill(alloc: Global, app: &App) -> Result<Tables, NoMemory>
    ensures { IfOk result (λ tables. tables ≡ filled_tables (app_of app.now)) }
{
    let mut tables = Tables::new(alloc, app)?;
    count_thread(&mut tables, app, &app.init);
    count_thread(&mut tables, app, &app.idle);
    count_tasks(&mut tables, app);
    Ok(tables)
}
