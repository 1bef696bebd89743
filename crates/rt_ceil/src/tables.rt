// For each thing that a section guards, the greatest priority of its users so far.

ghost use Rattle.std.specs.Prelude.{◌≡◌, replicate, IfOk};
ghost use Rattle.rt_app.specs.View.{app_of};
ghost use Rattle.rt_ceil.specs.Inside.Tables.{zero_tables, raised_table, raised_level};

use rt_app::App;
use rt_app::costs::PRIORITIES;
use rt_ids::NoMemory;
use std::alloc::Global;
use std::marker::Model;

/// For each thing that a section guards, the greatest priority of the bodies so far that use it, and 0 where none does.
#[derive(Drop)]
pub(crate) struct Tables {
    /// By resource.
    pub shared: Vec<u8>,
    /// By task.
    pub free: Vec<u8>,
    /// By level. A spawn after a delay counts with the monotonic's priority, not the body's.
    pub ready: Vec<u8>,
    pub timer: u8,
}

impl Model for Tables {
    ghost use Rattle.rt_ceil.specs.Inside.Tables.{Tables, tables};

    ghost Value = { Tables };

    ghost view = { λ t. tables t.shared.items t.free.items t.ready.items t.timer };
}

impl Tables {
    /// The tables of an application before its first body.
    pub(crate) fn new(alloc: Global, app: &App) -> Result<Tables, NoMemory>
        ensures { IfOk result (λ tables. tables ≡ zero_tables (app_of app.now)) }
    {
        Ok(Tables {
            shared: zeros(alloc, app.shared.len())?,
            free: zeros(alloc, app.tasks.len())?,
            ready: zeros(alloc, PRIORITIES as usize)?,
            timer: 0,
        })
    }
}

/// A table of zeros.
fn zeros(alloc: Global, length: usize) -> Result<Vec<u8>, NoMemory>
    ensures { IfOk result (λ table. table.items ≡ replicate length 0) }
{
    Ok(vec![in alloc; 0; length]?)
}

/// Raises the entry at an index to at least this priority, where there is such an index.
pub(crate) fn raise(table: &mut [u8], index: u8, priority: u8)
    ensures { table.new ≡ raised_table table.old index priority }
{
    let index = index as usize;
    if index < table.len() {
        table[index] = table[index].max(priority);
    }
}

/// Raises the entry of a level to at least this priority, where there is such a level.
pub(crate) fn raise_level(table: &mut [u8], level: Option<u8>, priority: u8)
    ensures { table.new ≡ raised_level table.old level priority }
{
    if let Some(level) = level {
        raise(table, level, priority);
    }
}
