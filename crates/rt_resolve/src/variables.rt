// The variables in scope, and what each name means.

ghost use Rattle.std.specs.Prelude.{◌≡◌, ◌-◌, ◌≤◌, ◌<◌, [], length, take, drop, find, option_map, OnOk};
ghost use Rattle.std.specs.List.{list_any};
ghost use Rattle.rt_resolve.specs.Scope as named;
ghost use Rattle.rt_resolve.specs.Inside.Bindings.{scope_after_block, HasMeaning, IsRestored};

use rt_ids::NoMemory;
use std::alloc::Global;
use std::collections::HashMap;
use std::marker::Model;

/// What a name means: its number, and its index among the variables in scope.
#[derive(Clone, Copy)]
pub(crate) struct Meaning {
    number: u16,
    index: usize,
}

/// A variable in scope.
#[derive(Clone, Copy)]
pub(crate) struct Binding<'a> {
    name: &'a [u8],
    number: u16,
    /// What the name means outside, where it means a variable.
    hidden: Option<Meaning>,
}

/// The variables in scope, in order of declaration.
#[derive(Drop)]
pub(crate) struct Variables<'a> {
    bindings: Vec<Binding<'a>>,
    /// The variable that each name means.
    meanings: HashMap<&'a [u8], Meaning>,
    /// How many variables stand before the innermost block.
    outer: usize,
}

impl<'a> Model for Variables<'a> {
    ghost use Rattle.rt_resolve.specs.Scope.{Scope};
    ghost use Rattle.rt_resolve.specs.Inside.Bindings.{scope_of, AreIndexed};

    ghost Value = { Scope };

    ghost view = { λ v. scope_of v.bindings.items v.outer };

    ghost invariant = { λ v. AreIndexed v.bindings.items v.meanings v.outer };
}

/// Gives a name that means a variable the meaning that it has outside.
fn restore<'a>(meanings: &mut HashMap<&'a [u8], Meaning>, name: &'a [u8], hidden: Option<Meaning>)
    requires { HasMeaning meanings.old name.now }
    ensures { IsRestored meanings.old meanings.new name.now hidden }
{
    match hidden {
        Some(hidden) => {
            if let Some(meaning) = meanings.get_mut(name) {
                *meaning = hidden;
            }
        }
        None => {
            meanings.remove(name);
        }
    }
}

impl<'a> Variables<'a> {
    /// No variables.
    pub(crate) fn new(alloc: Global) -> Variables<'a>
        ensures { result ≡ record { variables = []; here = 0 } }
    {
        Variables {
            bindings: Vec::new(alloc),
            meanings: HashMap::new(alloc),
            outer: 0,
        }
    }

    /// The number of the variable of this name that is declared last.
    pub(crate) fn number_of(&self, name: &[u8]) -> Option<u16>
        ensures { result ≡ option_map (λ v. v.number) (find (named.is_variable name.now) self.now.variables) }
    {
        match self.meanings.get(name) {
            Some(meaning) => Some(meaning.number),
            None => None,
        }
    }

    /// Whether a variable has this name.
    pub(crate) fn has(&self, name: &[u8]) -> bool
        ensures { result ≡ list_any (named.is_variable name.now) self.now.variables }
    {
        self.meanings.contains_key(name)
    }

    /// Whether a variable of the innermost block has this name.
    fn has_here(&self, name: &[u8]) -> bool
        ensures { result ≡ list_any (named.is_variable name.now) (take self.now.here self.now.variables) }
    {
        match self.meanings.get(name) {
            Some(meaning) => self.outer <= meaning.index,
            None => false,
        }
    }

    /// Adds a variable to the innermost block.
    fn push(&mut self, name: &'a [u8], number: u16) -> Result<(), NoMemory>
        ensures { OnOk result (self.new ≡ named.one_more self.old name.now number) }
    {
        self.bindings.reserve(1)?;
        let index = self.bindings.len();
        let hidden = self.meanings.insert(name, Meaning { number, index })?;
        self.bindings.push(Binding {
            name,
            number,
            hidden,
        })?;
        Ok(())
    }

    /// Declares a variable in the innermost block. A second one of a name there changes nothing.
    pub(crate) fn declare(&mut self, name: &'a [u8], number: u16) -> Result<(), NoMemory>
        ensures { OnOk result (self.new ≡ named.scope_with_variable self.old name.now number) }
    {
        if self.has_here(name) {
            return Ok(());
        }
        self.push(name, number)
    }

    /// Begins a block. Returns what `leave` takes at its end.
    pub(crate) fn enter(&mut self) -> usize
        ensures outer { result ≡ length self.old.variables - self.old.here }
        ensures within { self.old.here ≤ length self.old.variables }
        ensures entered { self.new ≡ named.scope_in_block self.old }
    {
        let outer = self.outer;
        self.outer = self.bindings.len();
        outer
    }

    /// Takes out the variable that is declared last.
    fn pop(&mut self)
        requires { 0 < self.old.here }
        ensures { self.new ≡ record { variables = drop 1 self.old.variables; here = self.old.here - 1 } }
    {
        if let Some(binding) = self.bindings.pop() {
            restore(&mut self.meanings, binding.name, binding.hidden);
        }
    }

    /// Ends a block: its variables go, and so many stand before the block outside.
    pub(crate) fn leave(&mut self, outer: usize)
        requires { outer ≤ length self.old.variables - self.old.here }
        ensures { self.new ≡ scope_after_block self.old outer }
    {
        let count = self.bindings.len() - self.outer;
        for _i in 0..count {
            self.pop();
        }
        self.outer = outer;
    }
}
