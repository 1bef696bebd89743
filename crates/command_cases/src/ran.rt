// Runs a command on sources in memory.

use rt_ids::{NoMemory, Status};
use rt_outside::{MemSink, MemSource};
use rt_top::{Gate, rtic};
use std::alloc::Global;
use std::thread::Threads;

/// Bytes that a sink has room for, where nothing else is said.
const ROOM: u32 = 1 << 23;

/// The sources of a command and its sink.
pub struct Outside {
    pub app: MemSource,
    pub second: MemSource,
    pub third: MemSource,
    pub out: MemSink,
}

impl Drop for Outside {
    fn drop(self) {
        let Outside {
            app: _,
            second: _,
            third: _,
            out: _,
        } = self;
    }
}

impl Outside {
    /// Sources of these texts and a sink, in which nothing fails but a read of the third source.
    pub fn of(alloc: Global, app: &[u8], second: &[u8]) -> Result<Outside, NoMemory> {
        Ok(Outside {
            app: MemSource::new(alloc, app, &[])?,
            second: MemSource::new(alloc, second, &[])?,
            third: MemSource::new(alloc, b"third", &[0])?,
            out: MemSink::new(alloc, ROOM, &[])?,
        })
    }

    /// Sources of these three texts and a sink, in which nothing fails.
    pub fn of_three(
        alloc: Global,
        app: &[u8],
        second: &[u8],
        third: &[u8],
    ) -> Result<Outside, NoMemory> {
        Ok(Outside {
            app: MemSource::new(alloc, app, &[])?,
            second: MemSource::new(alloc, second, &[])?,
            third: MemSource::new(alloc, third, &[])?,
            out: MemSink::new(alloc, ROOM, &[])?,
        })
    }
}

/// How a command ended, and what is left outside.
#[derive(Drop)]
pub struct Ran {
    pub status: Status,
    pub outside: Outside,
}

impl Ran {
    /// What was written.
    pub fn output(&self) -> &[u8] {
        self.outside.out.bytes()
    }

    /// Whether it ended with status 0.
    pub fn is_done(&self) -> bool {
        self.status.number() == 0
    }
}

/// Runs words on sources in memory, with a gate that is told what comes next.
pub fn run_on<R: Threads + Sync, G: Gate + Sync>(
    rt: &R,
    alloc: Global,
    words: &[&str],
    mut outside: Outside,
    gate: &G,
) -> Ran {
    let status = rtic(
        rt,
        alloc,
        words,
        &mut outside.app,
        &mut outside.second,
        &mut outside.third,
        &mut outside.out,
        gate,
    );
    Ran { status, outside }
}
