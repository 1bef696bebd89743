// The names that an application declares, found by name in constant time.

ghost use Rattle.std.specs.Prelude.{◌≡◌, ℕ, ◌<◌, [], None, length, slice_get, slice_index_or, option_map, IfOk, OnOk};
ghost use Rattle.std.specs.Prelude.{OnErr};
ghost use Rattle.rt_ids.specs.declared.limits.TheConstants.{IRQS, TASKS, SHARED};
ghost use Rattle.rt_ids.specs.Names.{AreNames, no_names, irq_of, task_index, resource_of, with_irq, with_task};
ghost use Rattle.rt_ids.specs.Names.{with_resource};
ghost use Rattle.rt_ids.specs.Naming as naming;
ghost use Rattle.rt_ids.specs.Inside.Kept.{with_first};
ghost use Rattle.rt_ids.specs.Word.{IsName};

use crate::ids::{ResId, TaskId};
use crate::irq::Irq;
use crate::memory::NoMemory;
use indexmap::{IndexMap, IndexSet};
use std::alloc::Global;
use std::marker::Model;

/// The names that an application declares, in order of declaration. Contracts see a record of three lists: each is of
/// names, none of them stands in it twice, and it is no longer than the limits allow.
pub struct Names {
    irqs: IndexMap<Vec<u8>, Irq>,
    /// By interrupt number, the index of the first declared interrupt of this number. Behind the end there is none.
    firsts: Vec<Option<u8>>,
    tasks: IndexSet<Vec<u8>>,
    shared: IndexSet<Vec<u8>>,
}

impl Model for Names {
    ghost use Rattle.rt_ids.specs.Names.{Names};
    ghost use Rattle.rt_ids.specs.Inside.Kept.{kept_names, AreKept};

    ghost Value = { Names };

    ghost view = { λ names. kept_names names.irqs.entries names.tasks.keys names.shared.keys };

    ghost invariant = { λ names. AreKept names.irqs.entries names.firsts.items names.tasks.keys names.shared.keys };
}

impl Drop for Names {
    fn drop(self) {
        let Names {
            irqs: _,
            firsts: _,
            tasks: _,
            shared: _,
        } = self;
    }
}

impl Names {
    /// No names.
    pub fn new(alloc: Global) -> Names
        ensures { result ≡ no_names }
    {
        Names {
            irqs: IndexMap::new(alloc),
            firsts: Vec::new(alloc),
            tasks: IndexSet::new(alloc),
            shared: IndexSet::new(alloc),
        }
    }

    /// Declares an interrupt more.
    pub fn add_irq(&mut self, alloc: Global, name: &[u8], number: Irq) -> Result<(), NoMemory>
        requires named { IsName name.now }
        requires unknown { irq_of self.old name.now ≡ None }
        requires room { length self.old.irqs < IRQS }
        ensures added { OnOk result (self.new ≡ with_irq self.old name.now number) }
        ensures unchanged { OnErr result (self.new ≡ self.old) }
    {
        let name = Vec::from_slice(alloc, name)?;
        make_room(&mut self.firsts, number)?;
        let index = self.irqs.len() as u8;
        self.irqs.insert(name, number)?;
        put_first(&mut self.firsts, number, index);
        Ok(())
    }

    /// Declares a task more.
    pub fn add_task(&mut self, alloc: Global, name: &[u8]) -> Result<(), NoMemory>
        requires named { IsName name.now }
        requires unknown { task_index self.old name.now ≡ None }
        requires room { length self.old.tasks < TASKS }
        ensures added { OnOk result (self.new ≡ with_task self.old name.now) }
        ensures unchanged { OnErr result (self.new ≡ self.old) }
    {
        self.tasks.insert(Vec::from_slice(alloc, name)?)?;
        Ok(())
    }

    /// Declares a shared resource more.
    pub fn add_resource(&mut self, alloc: Global, name: &[u8]) -> Result<(), NoMemory>
        requires named { IsName name.now }
        requires unknown { resource_of self.old name.now ≡ None }
        requires room { length self.old.shared < SHARED }
        ensures added { OnOk result (self.new ≡ with_resource self.old name.now) }
        ensures unchanged { OnErr result (self.new ≡ self.old) }
    {
        self.shared.insert(Vec::from_slice(alloc, name)?)?;
        Ok(())
    }

    /// How many interrupts are declared, at most 240.
    pub fn irq_count(&self) -> usize
        ensures count { result ≡ length self.now.irqs }
        ensures names { AreNames self.now }
    {
        self.irqs.len()
    }

    /// How many tasks there are, at most 64.
    pub fn task_count(&self) -> usize
        ensures count { result ≡ length self.now.tasks }
        ensures names { AreNames self.now }
    {
        self.tasks.len()
    }

    /// How many shared resources there are, at most 64.
    pub fn resource_count(&self) -> usize
        ensures count { result ≡ length self.now.shared }
        ensures names { AreNames self.now }
    {
        self.shared.len()
    }

    /// The interrupt at an index in the order of declaration, with its number.
    pub fn irq_at(&self, index: usize) -> Option<(&[u8], Irq)>
        ensures { option_map (λ irq. (irq.0.now, irq.1)) result ≡ slice_get self.now.irqs index }
    {
        match self.irqs.get_index(index) {
            Some((name, number)) => Some((name.as_slice(), *number)),
            None => None,
        }
    }

    /// The name of a task.
    pub fn task_at(&self, task: TaskId) -> Option<&[u8]>
        ensures { option_map (λ name. name.now) result ≡ slice_get self.now.tasks task }
    {
        match self.tasks.get_index(usize::from(task.0)) {
            Some(name) => Some(name.as_slice()),
            None => None,
        }
    }

    /// The name of a shared resource.
    pub fn resource_at(&self, resource: ResId) -> Option<&[u8]>
        ensures { option_map (λ name. name.now) result ≡ slice_get self.now.shared resource }
    {
        match self.shared.get_index(usize::from(resource.0)) {
            Some(name) => Some(name.as_slice()),
            None => None,
        }
    }

    /// The number of the interrupt of this name, where it is declared.
    pub fn irq_named(&self, name: &[u8]) -> Option<Irq>
        ensures { result ≡ irq_of self.now name.now }
    {
        self.irqs.get(name).copied()
    }

    /// The task of this name, where there is one.
    pub fn task_named(&self, name: &[u8]) -> Option<TaskId>
        ensures { result ≡ task_index self.now name.now }
    {
        match self.tasks.get_index_of(name) {
            Some(index) => Some(TaskId(index as u8)),
            None => None,
        }
    }

    /// The shared resource of this name, where there is one.
    pub fn resource_named(&self, name: &[u8]) -> Option<ResId>
        ensures { result ≡ resource_of self.now name.now }
    {
        match self.shared.get_index_of(name) {
            Some(index) => Some(ResId(index as u8)),
            None => None,
        }
    }

    /// The name of the first declared interrupt of this number, where there is one.
    pub fn irq_name(&self, number: Irq) -> Option<&[u8]>
        ensures { option_map (λ name. name.now) result ≡ option_map (λ irq. irq.0) (naming.irq_named self.now number) }
    {
        let index = first_of(&self.firsts, number)?;
        let (name, _) = self.irqs.get_index(usize::from(index))?;
        Some(name.as_slice())
    }

    /// The same names, in memory of their own.
    pub fn copy(&self, alloc: Global) -> Result<Names, NoMemory>
        ensures { IfOk result (λ names. names ≡ self.now) }
    {
        let mut names = Names::new(alloc);
        copy_irqs(alloc, self, &mut names)?;
        copy_tasks(alloc, self, &mut names)?;
        copy_resources(alloc, self, &mut names)?;
        Ok(names)
    }
}

/// The index that a table has for a number.
fn first_of(firsts: &[Option<u8>], number: Irq) -> Option<u8>
    ensures { result ≡ slice_index_or firsts.now number None }
{
    firsts.get(usize::from(number.get())).copied().flatten()
}

/// Makes room in a table for a number. What it has stays.
fn make_room(firsts: &mut Vec<Option<u8>>, number: Irq) -> Result<(), NoMemory>
    ensures room { OnOk result (number < length firsts.new.items) }
    ensures stays { (k : ℕ) → slice_index_or firsts.new.items k None ≡ slice_index_or firsts.old.items k None }
{
    let length = usize::from(number.get()) + 1;
    if firsts.len() < length {
        firsts.resize(length, None)?;
    }
    Ok(())
}

/// Puts an index into a table for a number, where it has none.
fn put_first(firsts: &mut Vec<Option<u8>>, number: Irq, index: u8)
    requires { number < length firsts.old.items }
    ensures { firsts.new.items ≡ with_first firsts.old.items number index }
{
    let row = usize::from(number.get());
    if firsts[row].is_none() {
        firsts[row] = Some(index);
    }
}

/// Declares the same interrupts.
fn copy_irqs(alloc: Global, from: &Names, to: &mut Names) -> Result<(), NoMemory>
    requires { to.old.irqs ≡ [] }
    ensures { OnOk result (to.new ≡ record to.old { irqs = from.now.irqs }) }
{
    for index in 0..from.irq_count() {
        let Some(irq) = from.irq_at(index) else {
            unreachable!()
        };
        to.add_irq(alloc, irq.0, irq.1)?;
    }
    Ok(())
}

/// Declares the same tasks.
fn copy_tasks(alloc: Global, from: &Names, to: &mut Names) -> Result<(), NoMemory>
    requires { to.old.tasks ≡ [] }
    ensures { OnOk result (to.new ≡ record to.old { tasks = from.now.tasks }) }
{
    for index in 0..from.task_count() as u8 {
        let Some(name) = from.task_at(TaskId(index)) else {
            unreachable!()
        };
        to.add_task(alloc, name)?;
    }
    Ok(())
}

/// Declares the same shared resources.
fn copy_resources(alloc: Global, from: &Names, to: &mut Names) -> Result<(), NoMemory>
    requires { to.old.shared ≡ [] }
    ensures { OnOk result (to.new ≡ record to.old { shared = from.now.shared }) }
{
    for index in 0..from.resource_count() as u8 {
        let Some(name) = from.resource_at(ResId(index)) else {
            unreachable!()
        };
        to.add_resource(alloc, name)?;
    }
    Ok(())
}
