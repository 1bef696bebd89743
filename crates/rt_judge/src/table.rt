// What is open at each address that an owner comes to.

ghost use Rattle.std.specs.Prelude.{◌≡◌, IfOk, OnOk, None};
ghost use Rattle.rt_judge.specs.Inside.Tables as spec;

use crate::nesting::Nesting;
use rt_ids::NoMemory;
use std::alloc::Global;
use std::collections::BTreeMap;

/// The nesting at each address that an owner comes to.
#[derive(Drop)]
pub struct NestingTable {
    /// By the addresses of the code, where one is there.
    pub rows: Vec<Option<Nesting>>,
    /// At the addresses past the code.
    pub outside: BTreeMap<u32, Nesting>,
}

impl NestingTable {
    /// For code of this length, with nothing in it.
    pub fn new(alloc: Global, length: usize) -> Result<NestingTable, NoMemory>
        ensures { IfOk result (spec.IsEmptyTable length) }
    {
        Ok(NestingTable {
            rows: Vec::from_elem(alloc, None, length)?,
            outside: BTreeMap::new(alloc),
        })
    }

    /// The nesting at an address.
    pub fn find(&self, address: u32) -> Option<Nesting>
        ensures { result ≡ spec.found self.now address }
    {
        match self.rows.get(address as usize) {
            Some(row) => *row,
            None => self.outside.get(&address).copied(),
        }
    }

    /// Takes in the nesting at a new address.
    pub fn put(&mut self, address: u32, nesting: Nesting) -> Result<(), NoMemory>
        requires { spec.found self.old address ≡ None }
        ensures { OnOk result (spec.IsPut self.old self.new address nesting) }
    {
        let index = address as usize;
        if index < self.rows.len() {
            self.rows[index] = Some(nesting);
        } else {
            self.outside.insert(address, nesting)?;
        }
        Ok(())
    }
}
