// The text of the demonstration application.

ghost use Rattle.std.specs.Prelude.{◌≡◌, ◌≤◌, ◌++◌, flat_map, IfOk, OnOk};
ghost use Rattle.rt_ids.specs.Lists.{numbers_below};
ghost use Rattle.rt_soak.specs.Demo as spec;
ghost use Rattle.rt_soak.specs.declared.demo_text.TheConstants.{MOST_TASKS};

use rt_ids::{NoMemory, push_bytes, push_number};
use std::alloc::Global;

/// Hardware tasks of the application at most.
pub const MOST_TASKS: u8 = 48;

/// How many shared resources the tasks take turns with.
const RESOURCES: u8 = 4;
/// The lowest priority of a hardware task.
const LOWEST: u8 = 3;
/// How many priorities the hardware tasks take turns with.
const PRIORITIES: u8 = 12;

/// The text of the demonstration application with so many hardware tasks, each with a lock, a message that is sent at
/// once and one that is sent by the timer.
pub fn demo(alloc: Global, n: u8) -> Result<Vec<u8>, NoMemory>
    requires some { 1 ≤ n }
    requires most { n ≤ MOST_TASKS }
    ensures { IfOk result (λ text. text.items ≡ spec.demo n) }
{
    let mut out = Vec::new(alloc);
    push_bytes(&mut out, HEAD)?;
    push_interrupts(&mut out, n)?;
    push_bytes(&mut out, COMMON)?;
    push_tasks(&mut out, n)?;
    Ok(out)
}

/// The text in front of the hardware tasks' interrupts.
const HEAD: &[u8] = b"app demo(bits = 4, dispatchers = [D0, D1]);\n\
    interrupts { D0 = 200, D1 = 201, TM = 202";

/// The text between the interrupts and the hardware tasks.
const COMMON: &[u8] = b" }\n\
    monotonic(binds = TM, priority = 10);\n\
    shared { r0 = 0, r1 = 0, r2 = 0, r3 = 0 }\n\
    idle(shared = [r0]) {\n\
    \x20   lock r0 {\n\
    \x20       emit r0;\n\
    \x20   }\n\
    }\n\
    task work(priority = 1, capacity = 16, shared = [r1]) with x {\n\
    \x20   lock r1 {\n\
    \x20       r1 = r1 + x;\n\
    \x20   }\n\
    }\n\
    task later(priority = 2, capacity = 8, shared = [r2]) with x {\n\
    \x20   lock r2 {\n\
    \x20       r2 = r2 + x;\n\
    \x20       emit r2;\n\
    \x20   }\n\
    }\n";

/// Appends the declarations of the hardware tasks' interrupts.
fn push_interrupts(out: &mut Vec<u8>, n: u8) -> Result<(), NoMemory>
    ensures { OnOk result (out.new.items ≡ out.old.items ++ flat_map spec.interrupt (numbers_below n)) }
{
    for k in 0..n {
        push_interrupt(out, k)?;
    }
    Ok(())
}

/// Appends the declaration of the interrupt of this number.
fn push_interrupt(out: &mut Vec<u8>, k: u8) -> Result<(), NoMemory>
    ensures { OnOk result (out.new.items ≡ out.old.items ++ spec.interrupt k) }
{
    push_numbered(out, b", I", k)?;
    push_numbered(out, b" = ", k)
}

/// Appends the hardware tasks.
fn push_tasks(out: &mut Vec<u8>, n: u8) -> Result<(), NoMemory>
    ensures { OnOk result (out.new.items ≡ out.old.items ++ flat_map spec.demo_task (numbers_below n)) }
{
    for k in 0..n {
        push_task(out, k)?;
    }
    Ok(())
}

/// Appends the hardware task of this number.
fn push_task(out: &mut Vec<u8>, k: u8) -> Result<(), NoMemory>
    ensures { OnOk result (out.new.items ≡ out.old.items ++ spec.demo_task k) }
{
    push_options(out, k)?;
    push_section(out, k)?;
    push_messages(out, k)
}

/// Appends the name and the options of the task of this number.
fn push_options(out: &mut Vec<u8>, k: u8) -> Result<(), NoMemory>
    ensures { OnOk result (out.new.items ≡ out.old.items ++ spec.options k) }
{
    push_numbered(out, b"task h", k)?;
    push_numbered(out, b"(binds = I", k)?;
    push_numbered(out, b", priority = ", LOWEST + k % PRIORITIES)?;
    push_numbered(out, b", shared = [r", k % RESOURCES)?;
    push_bytes(out, b"]) {\n")
}

/// Appends the lock of the task of this number, where it adds its number to its resource.
fn push_section(out: &mut Vec<u8>, k: u8) -> Result<(), NoMemory>
    ensures { OnOk result (out.new.items ≡ out.old.items ++ spec.section k) }
{
    let resource = k % RESOURCES;
    push_numbered(out, b"    lock r", resource)?;
    push_numbered(out, b" {\n        r", resource)?;
    push_numbered(out, b" = r", resource)?;
    push_numbered(out, b" + ", k)?;
    push_bytes(out, b";\n    }\n")
}

/// Appends the messages of the task of this number.
fn push_messages(out: &mut Vec<u8>, k: u8) -> Result<(), NoMemory>
    ensures { OnOk result (out.new.items ≡ out.old.items ++ spec.messages k) }
{
    push_numbered(out, b"    spawn work(", k)?;
    push_numbered(out, b");\n    spawn_after(", k)?;
    push_numbered(out, b") later(", k)?;
    push_bytes(out, b");\n}\n")
}

/// Appends bytes and a number.
fn push_numbered(out: &mut Vec<u8>, bytes: &[u8], number: u8) -> Result<(), NoMemory>
    ensures { OnOk result (out.new.items ≡ out.old.items ++ spec.text_with_number bytes.now number) }
{
    push_bytes(out, bytes)?;
    push_number(out, u32::from(number))
}
