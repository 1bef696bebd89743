// A source in memory, whose reads can be made to fail, for tests.

ghost use Rattle.std.specs.Prelude.{◌≡◌, ◌≤◌, ◌↔◌, Some, Contains, length, take, min, IfOk, OnOk, OnErr, IsErr};
ghost use Rattle.rt_outside.specs.Faults.{HasCause};
ghost use Rattle.rt_outside.specs.Bytes.{after_read, no_past, Moves};
ghost use Rattle.rt_outside.specs.Memory.{next_call, next_fault};

use crate::source::is_end;
use crate::{Failed, Source};
use rt_ids::NoMemory;
use std::alloc::Global;
use std::marker::Model;

/// A source over a copy of some bytes, whose reads are numbered from 0. It fails at the reads that it was told.
pub struct MemSource {
    bytes: Vec<u8>,
    start: usize,
    at_end: bool,
    reads: u32,
    failing: Vec<u32>,
    failed: u64,
}

impl Model for MemSource {
    ghost use Rattle.std.specs.Prelude.{take, drop, length, ◌≤◌};
    ghost use Rattle.rt_outside.specs.Memory.{Supply};

    ghost Value = { Supply };

    ghost view = { λ s. record {
      past = record { bytes = take s.start s.bytes.items; at_end = s.at_end };
      left = drop s.start s.bytes.items;
      calls = s.reads;
      fails = s.failing.items;
      faults = s.failed;
    } };

    ghost invariant = { λ s. s.start ≤ length s.bytes.items };
}

impl Drop for MemSource {
    fn drop(self) {
        let MemSource {
            bytes: _,
            start: _,
            at_end: _,
            reads: _,
            failing: _,
            failed: _,
        } = self;
    }
}

impl MemSource {
    /// A source of these bytes that fails at the reads with these numbers.
    pub fn new(alloc: Global, bytes: &[u8], fails: &[u32]) -> Result<MemSource, NoMemory>
        ensures { IfOk result (λ source. source
            ≡ record { past = no_past; left = bytes.now; calls = 0; fails = fails.now; faults = 0 }) }
    {
        Ok(MemSource {
            bytes: Vec::from_slice(alloc, bytes)?,
            start: 0,
            at_end: false,
            reads: 0,
            failing: Vec::from_slice(alloc, fails)?,
            failed: 0,
        })
    }
}

impl Source for MemSource {
    ghost past = { λ s. s.past };

    ghost left = { λ s. Some s.left };

    ghost faults = { λ s. s.faults };

    fn read(&mut self, buffer: &mut [u8]) -> Result<usize, Failed>
        ensures within { IfOk result (λ n. n ≤ length buffer.old) }
        ensures given { IfOk result (λ n. self.new.past
            ≡ after_read self.old.past (take n buffer.new) (length buffer.old)) }
        ensures moved { IfOk result (λ n. Moves (Some self.old.left) (Some self.new.left) buffer.new n) }
        ensures none_given { OnErr result (self.new.past ≡ self.old.past) }
        ensures none_moved { OnErr result (self.new.left ≡ self.old.left) }
        ensures cause { HasCause self.old.faults self.new.faults result }

        // It fails at the listed reads alone, and else moves as much as fits.
        ensures fails { IsErr result ↔ Contains self.old.fails self.old.calls }
        ensures count { IfOk result (λ n. n ≡ min (length buffer.old) (length self.old.left)) }

        ensures calls { self.new.calls ≡ next_call self.old.calls }
        ensures list { self.new.fails ≡ self.old.fails }
        ensures quiet { OnOk result (self.new.faults ≡ self.old.faults) }
        ensures counted { OnErr result (self.new.faults ≡ next_fault self.old.faults) }
    {
        let fails = self.failing.contains(&self.reads);
        self.reads = self.reads.saturating_add(1);
        if fails {
            self.failed = self.failed.saturating_add(1);
            return Err(Failed);
        }
        let rest = &self.bytes[self.start..];
        let room = buffer.len();
        let count = room.min(rest.len());
        buffer[..count].copy_from_slice(&rest[..count]);
        self.start += count;
        self.at_end = is_end(&buffer[..count], room);
        Ok(count)
    }
}
