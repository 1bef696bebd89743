// Makes what is known beforehand of an application.

ghost use Rattle.std.specs.Prelude.{◌≡◌, ◌<◌, ◌≤◌, ℕ, length, slice_index, IfOk};
ghost use Rattle.rt_app.specs.Accepted.{IsAccepted};
ghost use Rattle.rt_app.specs.BodyCost.{cost_measure, timer_section_cost, handle_section_cost};
ghost use Rattle.rt_app.specs.Level.{levels};
ghost use Rattle.rt_app.specs.Sending.{dispatcher_number};
ghost use Rattle.rt_app.specs.Tree as tree;
ghost use Rattle.rt_app.specs.View.{app_of};
ghost use Rattle.rt_baker_work.specs.Code.{IsCode};
ghost use Rattle.rt_baker_moves.specs.Machine.{IsMachine};
ghost use Rattle.rt_baker_moves.specs.Tables.{AreTables};
ghost use Rattle.rt_baker_moves.specs.Inside.Serving.{levels_of};

use crate::machine::{Machine, Served};
use crate::served::{dispatcher, services};
use rt_app::costs::{
    HANDLE_MESSAGE_COST, HANDLE_SECTION_COST, MESSAGE_COST, PRIORITIES, TIMER_SECTION_COST,
};
use rt_app::{App, Ceilings, ReadyCeiling};
use rt_baker_work::Code;
use rt_ceil::ceilings;
use rt_frames::Measure;
use rt_ids::NoMemory;
use std::alloc::Global;

/// What is known beforehand of an application whose code is followed.
#[derive(Drop)]
pub struct Tables {
    /// Core steps of its bodies.
    measure: Measure,
    /// The numbers of the dispatchers, by level.
    dispatchers: Vec<u16>,
    /// Core steps of a section of the armed messages.
    timer_section: u32,
    /// Core steps of such a section where a message is found by its handle.
    handle_section: u32,
    /// What serves each interrupt, by its number.
    served: Vec<Option<Served>>,
    /// The ceilings of sections.
    ceilings: Ceilings,
}

/// The numbers of the dispatchers of an application whose levels have these rows, by priority. A row of a priority that
/// no software task has means nothing.
fn dispatchers(alloc: Global, app: &App, rows: &[ReadyCeiling]) -> Result<Vec<u16>, NoMemory>
    requires { levels_of rows.now ≡ levels (app_of app.now) }
    ensures rows { IfOk result (λ numbers. 256 ≤ length numbers.items) }
    ensures numbers { IfOk result (λ numbers. (p : ℕ) → p < 256
        → slice_index numbers.items p ≡ dispatcher_number (app_of app.now) p) }
{
    let mut numbers = Vec::new(alloc);
    for level in 0..PRIORITIES {
        numbers.push(dispatcher(app, rows, level as u8))?;
    }
    Ok(numbers)
}

/// Core steps of a section of the armed messages.
fn timer_section(measure: &Measure) -> u32
    ensures { (app : tree.App) → measure.now ≡ cost_measure app → result ≡ timer_section_cost app }
{
    TIMER_SECTION_COST + MESSAGE_COST * measure.messages()
}

/// Core steps of such a section where a message is found by its handle.
fn handle_section(measure: &Measure) -> u32
    ensures { (app : tree.App) → measure.now ≡ cost_measure app → result ≡ handle_section_cost app }
{
    HANDLE_SECTION_COST + HANDLE_MESSAGE_COST * measure.messages()
}

impl Tables {
    /// The tables of an accepted application.
    pub fn new(alloc: Global, app: &App) -> Result<Tables, NoMemory>
        requires { IsAccepted (app_of app.now) }
        ensures { IfOk result (AreTables (app_of app.now)) }
    {
        let measure = Measure::cost(app);
        let guards = ceilings(alloc, app)?;
        let dispatchers = dispatchers(alloc, app, &guards.ready)?;
        let served = services(alloc, app, &measure, &guards.ready)?;
        Ok(Tables {
            timer_section: timer_section(&measure),
            handle_section: handle_section(&measure),
            measure,
            dispatchers,
            served,
            ceilings: guards,
        })
    }

    /// The application with its tables.
    pub fn code<'a>(&'a self, alloc: Global, app: &'a App) -> Code<'a>
        requires accepted { IsAccepted (app_of app.now) }
        requires tables { AreTables (app_of app.now) self.now }
        ensures code { IsCode result }
        ensures app { result.app.now ≡ app.now }
    {
        Code {
            alloc,
            app,
            measure: self.measure,
            dispatchers: self.dispatchers.as_slice(),
            timer_section: self.timer_section,
            handle_section: self.handle_section,
        }
    }

    /// Baker's machine on the application of this code, with its tables.
    pub fn machine<'a>(&'a self, code: &'a Code<'a>) -> Machine<'a>
        requires code { IsCode code.now }
        requires tables { AreTables (app_of code.now.app.now) self.now }
        ensures machine { IsMachine result }
        ensures code { result.code.now ≡ code.now }
    {
        Machine {
            code,
            served: self.served.as_slice(),
            ceilings: &self.ceilings,
        }
    }
}
