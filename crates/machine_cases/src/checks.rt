// What is told of each kind of case.

ghost use Rattle.std.specs.Prelude.{◌≡◌};
ghost use Rattle.rt_code.specs.Runnable.{IsRunnable};

use crate::answers::answers_as_said;
use crate::execution::execution_text;
use crate::held::Held;
use crate::image::image;
use crate::play::{play, script};
use crate::texts::{script_told, trace_told};
use anyhow::Result;
use rt_code::Image;
use rt_core::Core;
use rt_image_tables::{Program, is_runnable};
use rt_listing::listing;
use rt_script::Script;
use std::alloc::Global;
use test_tables::Case;

/// What is told of a case that comes out as it says.
pub const OK: &str = "ok";

/// A table of cases.
#[derive(Clone, Copy)]
pub enum Table {
    /// Images with scripts, and the traces of an independent core.
    Cores,
    /// Single instructions.
    Instructions,
    /// Images that keep or break one condition of running.
    Conditions,
    /// Images with their texts.
    Listings,
    /// Images with what their programs answer by number.
    Programs,
    /// Trace texts: each is read and written again.
    Traces,
    /// Scripts.
    Scripts,
}

impl Table {
    /// The file that has its cases.
    pub fn file(self) -> &'static str {
        match self {
            Table::Cores => "cores",
            Table::Instructions => "instructions",
            Table::Conditions => "conditions",
            Table::Listings => "listings",
            Table::Programs => "programs",
            Table::Traces => "traces",
            Table::Scripts => "scripts",
        }
    }
}

/// Whether the text of an image is that of its case.
fn has_its_text(alloc: Global, image: &Image, case: &Case) -> Result<bool> {
    let text = listing(alloc, image)?;
    Ok(text.as_slice() == case.bytes("image"))
}

/// What differs of a core that has run, and of its trace.
fn difference(core: &Core, case: &Case, trace: &[u8]) -> &'static str {
    if trace != case.bytes("trace") {
        return "the trace differs";
    }
    if case.number("steps").map(u64::from) != Some(core.steps()) {
        return "the number of steps differs";
    }
    if case.number("depth") != Some(core.depth()) {
        return "the depth of the stack differs";
    }
    OK
}

/// What differs as a core runs under a script, from what its case says.
fn run_script(alloc: Global, core: &mut Core, case: &Case, script: &Script) -> Result<&'static str>
    requires no_steps { core.old.steps ≡ 0 }
    requires no_ticks { core.old.core.time ≡ 0 }
{
    let trace = play(alloc, core, script)?;
    Ok(difference(core, case, trace.as_slice()))
}

/// What differs as a core runs under the script of its case.
fn run(alloc: Global, core: &mut Core, case: &Case) -> Result<&'static str>
    requires no_steps { core.old.steps ≡ 0 }
    requires no_ticks { core.old.core.time ≡ 0 }
{
    let script = script(alloc, case, &core.image().names)?;
    run_script(alloc, core, case, &script)
}

/// What differs of a fresh core.
fn run_fresh(alloc: Global, fresh: &mut Core, case: &Case) -> Result<&'static str>
    requires no_steps { fresh.old.steps ≡ 0 }
    requires no_ticks { fresh.old.core.time ≡ 0 }
{
    if has_its_text(alloc, fresh.image(), case)? {
        run(alloc, fresh, case)
    } else {
        Ok("the fresh core has another image")
    }
}

/// Makes a fresh core of one that has run, and runs it.
fn run_again(alloc: Global, core: &Core, case: &Case) -> Result<&'static str> {
    let mut fresh = Held {
        value: core.fresh(alloc)?,
    };
    run_fresh(alloc, &mut fresh.value, case)
}

/// Runs a new core, and then a fresh one.
fn run_twice(alloc: Global, core: &mut Core, case: &Case) -> Result<&'static str>
    requires no_steps { core.old.steps ≡ 0 }
    requires no_ticks { core.old.core.time ≡ 0 }
{
    let told = run(alloc, core, case)?;
    if told == OK {
        run_again(alloc, core, case)
    } else {
        Ok(told)
    }
}

/// Runs the core of an image that is runnable.
fn run_image(alloc: Global, image: Held<Image>, case: &Case) -> Result<&'static str>
    requires runnable { IsRunnable image.value }
{
    let mut core = Held {
        value: Core::new(alloc, image.take())?,
    };
    run_twice(alloc, &mut core.value, case)
}

fn core_case(alloc: Global, case: &Case) -> Result<&'static str> {
    let image = image(alloc, case)?;
    if is_runnable(&image.value) {
        run_image(alloc, image, case)
    } else {
        Ok("the image is not runnable")
    }
}

fn instruction_case(alloc: Global, case: &Case) -> Result<&'static str> {
    let gives = execution_text(alloc, case)?;
    Ok(if gives.as_bytes() == case.bytes("gives") {
        OK
    } else {
        "the effect differs"
    })
}

fn condition_case(alloc: Global, case: &Case) -> Result<&'static str> {
    let image = image(alloc, case)?;
    let wanted = case.bytes("runnable") == b"yes\n".as_slice();
    Ok(if is_runnable(&image.value) == wanted {
        OK
    } else {
        "it is judged in another way"
    })
}

/// What differs of the text of an image.
fn text_difference(alloc: Global, image: &Image, case: &Case) -> Result<&'static str> {
    Ok(if has_its_text(alloc, image, case)? {
        OK
    } else {
        "the text differs"
    })
}

fn listing_case(alloc: Global, case: &Case) -> Result<&'static str> {
    let image = image(alloc, case)?;
    text_difference(alloc, &image.value, case)
}

/// What differs of a program: its image, or what it answers.
fn program_difference(alloc: Global, program: &Program, case: &Case) -> Result<&'static str> {
    if !has_its_text(alloc, program.image(), case)? {
        return Ok("the program has another image");
    }
    Ok(if answers_as_said(alloc, program, case)? {
        OK
    } else {
        "the program answers in another way"
    })
}

/// What differs of the program of a copy of the image of another.
fn copy_difference(alloc: Global, program: &Program, case: &Case) -> Result<&'static str> {
    let copy = Held {
        value: Program::new(alloc, program.copy_of_image(alloc)?)?,
    };
    program_difference(alloc, &copy.value, case)
}

/// What differs of a program, and then of that of a copy of its image.
fn both_differences(alloc: Global, program: &Program, case: &Case) -> Result<&'static str> {
    let told = program_difference(alloc, program, case)?;
    if told == OK {
        copy_difference(alloc, program, case)
    } else {
        Ok(told)
    }
}

fn program_case(alloc: Global, case: &Case) -> Result<&'static str> {
    let image = image(alloc, case)?;
    let program = Held {
        value: Program::new(alloc, image.take())?,
    };
    both_differences(alloc, &program.value, case)
}

/// What differs of what is told of a text.
fn told_difference(told: &[u8], case: &Case) -> &'static str {
    if told == case.bytes("told") {
        OK
    } else {
        "what is told of it differs"
    }
}

fn trace_case(alloc: Global, case: &Case) -> Result<&'static str> {
    let told = trace_told(alloc, case)?;
    Ok(told_difference(told.as_slice(), case))
}

fn script_case(alloc: Global, case: &Case) -> Result<&'static str> {
    let told = script_told(alloc, case)?;
    Ok(told_difference(told.as_slice(), case))
}

/// What is told of a case of a table: `ok`, or what differs.
pub fn verdict(alloc: Global, table: Table, case: &Case) -> Result<&'static str> {
    match table {
        Table::Cores => core_case(alloc, case),
        Table::Instructions => instruction_case(alloc, case),
        Table::Conditions => condition_case(alloc, case),
        Table::Listings => listing_case(alloc, case),
        Table::Programs => program_case(alloc, case),
        Table::Traces => trace_case(alloc, case),
        Table::Scripts => script_case(alloc, case),
    }
}
