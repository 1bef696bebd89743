// The declared bodies in order, each with its priority.

ghost use Rattle.std.specs.Prelude.{◌≡◌, ◌++◌, map, option_map, IfOk, OnOk};
ghost use Rattle.rt_app.specs.View.{body_of, task_of, app_of};
ghost use Rattle.rt_app.specs.Bodies.{thread_members, task_members, members};
ghost use Rattle.rt_app.specs.Statements.{is_init};
ghost use Rattle.rt_rules.specs.Inside.View.{id_of, member_of};

use rt_app::{App, Body, Task};
use rt_ids::NoMemory;
use std::alloc::Global;

/// Which body it is.
#[derive(Clone, Copy)]
pub(crate) enum Which {
    Init,
    Idle,
    /// That of a task, by its index in the order of declaration.
    Task(usize),
}

/// A declared body, with the priority that it runs at.
#[derive(Clone, Copy)]
pub(crate) struct Member<'a> {
    pub(crate) which: Which,
    /// 0 of `init` and `idle`.
    pub(crate) priority: u8,
    /// How many arguments it takes.
    pub(crate) args: u8,
    pub(crate) body: &'a Body,
}

impl Which {
    /// Whether it is `init`.
    pub(crate) fn is_init(self) -> bool
        ensures { result ≡ is_init (id_of self) }
    {
        match self {
            Which::Init => true,
            Which::Idle | Which::Task(_) => false,
        }
    }
}

/// Appends `init` or `idle`, where it is declared.
fn push_thread<'a>(
    members: &mut Vec<Member<'a>>,
    which: Which,
    body: &'a Option<Body>,
) -> Result<(), NoMemory>
    ensures { OnOk result (map member_of members.new.items
        ≡ map member_of members.old.items ++ thread_members (id_of which) (option_map body_of body.now)) }
{
    if let Some(body) = body {
        members.push(Member {
            which,
            priority: 0,
            args: 0,
            body,
        })?;
    }
    Ok(())
}

/// Appends the bodies of tasks.
fn push_tasks<'a>(members: &mut Vec<Member<'a>>, tasks: &'a [Task]) -> Result<(), NoMemory>
    ensures { OnOk result (map member_of members.new.items
        ≡ map member_of members.old.items ++ task_members 0 (map task_of tasks.now)) }
{
    for (number, task) in tasks.iter().enumerate() {
        members.push(Member {
            which: Which::Task(number),
            priority: task.priority,
            args: task.args,
            body: &task.body,
        })?;
    }
    Ok(())
}

/// The declared bodies: `init`, `idle` and the tasks in order.
pub(crate) fn members<'a>(alloc: Global, app: &'a App) -> Result<Vec<Member<'a>>, NoMemory>
    ensures { IfOk result (λ list. map member_of list.items ≡ members (app_of app.now)) }
{
    let mut members = Vec::new(alloc);
    push_thread(&mut members, Which::Init, &app.init)?;
    push_thread(&mut members, Which::Idle, &app.idle)?;
    push_tasks(&mut members, &app.tasks)?;
    Ok(members)
}
