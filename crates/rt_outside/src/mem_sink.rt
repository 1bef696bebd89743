// A sink in memory, whose writes can be made to fail, for tests.

ghost use Rattle.std.specs.Prelude.{◌≡◌, ◌-◌, ◌<◌, ◌≤◌, ◌↔◌, ◌⊎◌, [], Contains, length, take, min, IfOk, OnOk};
ghost use Rattle.std.specs.Prelude.{OnErr, IsErr};
ghost use Rattle.rt_outside.specs.Faults.{HasCause};
ghost use Rattle.rt_outside.specs.Bytes.{Took};
ghost use Rattle.rt_outside.specs.Memory.{next_call, next_fault};

use crate::{Failed, Sink};
use rt_ids::NoMemory;
use std::alloc::Global;
use std::marker::Model;

/// A sink that keeps what it takes in memory, made at once, and whose writes are numbered from 0. It fails at the
/// writes that it was told, and once its room is used.
pub struct MemSink {
    kept: Vec<u8>,
    free: u32,
    writes: u32,
    failing: Vec<u32>,
    failed: u64,
}

impl Model for MemSink {
    ghost use Rattle.std.specs.Prelude.{vec_len, vec_capacity, ◌+◌, ◌≤◌};
    ghost use Rattle.rt_outside.specs.Memory.{Store};

    ghost Value = { Store };

    ghost view = { λ s. record {
      taken = s.kept.items;
      room = s.free;
      calls = s.writes;
      fails = s.failing.items;
      faults = s.failed;
    } };

    ghost invariant = { λ s. vec_len s.kept + s.free ≤ vec_capacity s.kept };
}

impl Drop for MemSink {
    fn drop(self) {
        let MemSink {
            kept: _,
            free: _,
            writes: _,
            failing: _,
            failed: _,
        } = self;
    }
}

impl MemSink {
    /// A sink with room for so many bytes that fails at the writes with these numbers.
    pub fn new(alloc: Global, room: u32, fails: &[u32]) -> Result<MemSink, NoMemory>
        ensures { IfOk result (λ sink. sink
            ≡ record { taken = []; room = room; calls = 0; fails = fails.now; faults = 0 }) }
    {
        Ok(MemSink {
            kept: Vec::with_capacity(alloc, room as usize)?,
            free: room,
            writes: 0,
            failing: Vec::from_slice(alloc, fails)?,
            failed: 0,
        })
    }

    /// What was taken.
    pub fn bytes(&self) -> &[u8]
        ensures { result.now ≡ self.now.taken }
    {
        self.kept.as_slice()
    }
}

impl Sink for MemSink {
    ghost taken = { λ s. s.taken };

    ghost faults = { λ s. s.faults };

    fn write(&mut self, piece: &[u8]) -> Result<usize, Failed>
        ensures within { IfOk result (λ n. n ≤ length piece.now) }
        ensures some { IfOk result (λ n. 0 < length piece.now → 0 < n) }
        ensures took { IfOk result (λ n. Took self.old.taken self.new.taken (take n piece.now)) }
        ensures err { OnErr result (self.new.taken ≡ self.old.taken) }
        ensures cause { HasCause self.old.faults self.new.faults result }

        // It fails at the listed writes and where no room is left for any byte, and else takes as much as there is room
        // for.
        ensures fails { IsErr result
            ↔ (Contains self.old.fails self.old.calls ⊎ ((0 < length piece.now) × (self.old.room ≡ 0))) }
        ensures count { IfOk result (λ n. n ≡ min (length piece.now) self.old.room) }
        ensures room { IfOk result (λ n. self.new.room ≡ self.old.room - n) }
        ensures room_kept { OnErr result (self.new.room ≡ self.old.room) }

        ensures calls { self.new.calls ≡ next_call self.old.calls }
        ensures list { self.new.fails ≡ self.old.fails }
        ensures quiet { OnOk result (self.new.faults ≡ self.old.faults) }
        ensures counted { OnErr result (self.new.faults ≡ next_fault self.old.faults) }
    {
        let fails = self.failing.contains(&self.writes);
        self.writes = self.writes.saturating_add(1);
        if fails || (self.free == 0 && !piece.is_empty()) {
            self.failed = self.failed.saturating_add(1);
            return Err(Failed);
        }
        let count = piece.len().min(self.free as usize);
        self.kept.extend_from_slice(&piece[..count]).unwrap();
        self.free -= count as u32;
        Ok(count)
    }
}
