// Lines of a trace that wait to go out.

ghost use Rattle.std.specs.Prelude.{◌≡◌, ◌+◌, ◌^◌, ◌<◌, ◌≤◌, ◌↔◌, [], ◌++◌, length, IsTrue};
ghost use Rattle.rt_trace.specs.Lined.{HasLine};
ghost use Rattle.rt_trace.specs.Text as spec;

use crate::item::Item;
use crate::text::{put_line, put_total};
use rt_ids::Names;
use std::marker::Model;

/// Bytes that a buffer of lines holds at most.
pub const BUFFER_BYTES: usize = 4096;

/// Bytes for which there must be room where a line is written.
pub const LINE_BYTES: usize = 160;

/// Lines of a trace that wait to go out, at most `BUFFER_BYTES` bytes of them. Contracts see the bytes.
#[derive(Drop)]
pub struct LineBuffer {
    bytes: [u8; BUFFER_BYTES],
    len: usize,
}

impl Model for LineBuffer {
    ghost use Rattle.std.specs.Prelude.{ℕ, List, take, ◌≤◌};

    ghost Value = { List ℕ };

    ghost view = { λ buffer. take buffer.len buffer.bytes };

    ghost invariant = { λ buffer. buffer.len ≤ 4096 };
}

impl LineBuffer {
    /// A buffer without lines.
    pub fn new() -> LineBuffer
        ensures { result ≡ [] }
    {
        LineBuffer {
            bytes: [0; BUFFER_BYTES],
            len: 0,
        }
    }

    /// Whether there is room for another line.
    pub fn has_room(&self) -> bool
        ensures { IsTrue result ↔ (length self.now + LINE_BYTES ≤ BUFFER_BYTES) }
    {
        self.len + LINE_BYTES <= BUFFER_BYTES
    }

    /// Appends the line of an item, with its line feed.
    pub fn put(&mut self, item: &Item, names: &Names)
        requires line { HasLine names.now item.now }
        requires room { length self.old + LINE_BYTES ≤ BUFFER_BYTES }
        ensures { self.new ≡ self.old ++ spec.text names.now item.now }
    {
        let at = self.len;
        self.len = put_line(&mut self.bytes, at, item, names);
    }

    /// Appends the last line of a trace, the number of its core steps.
    pub fn put_total(&mut self, total: u64)
        requires total { total < 2 ^ 32 }
        requires room { length self.old + LINE_BYTES ≤ BUFFER_BYTES }
        ensures { self.new ≡ self.old ++ spec.total_text total }
    {
        let at = self.len;
        self.len = put_total(&mut self.bytes, at, total as u32);
    }

    /// The bytes of the lines.
    pub fn bytes(&self) -> &[u8]
        ensures value { result.now ≡ self.now }
        ensures few { length result.now ≤ BUFFER_BYTES }
    {
        &self.bytes[..self.len]
    }

    /// Lets go of all lines.
    pub fn clear(&mut self)
        ensures { self.new ≡ [] }
    {
        self.len = 0;
    }
}
