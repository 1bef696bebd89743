// A source over borrowed bytes that never fails.

ghost use Rattle.std.specs.Prelude.{◌≡◌, Some};
ghost use Rattle.rt_outside.specs.Bytes.{no_past};

use crate::source::is_end;
use crate::{Failed, Source};
use std::marker::Model;

/// A source over borrowed bytes that never fails: its count of faults is always 0.
#[derive(Drop)]
pub struct NeverFails<'a> {
    bytes: &'a [u8],
    start: usize,
    at_end: bool,
}

impl<'a> Model for NeverFails<'a> {
    ghost use Rattle.std.specs.Prelude.{take, drop, length, ◌≤◌};
    ghost use Rattle.rt_outside.specs.Memory.{SureSupply};

    ghost Value = { SureSupply };

    ghost view = { λ s. record {
      past = record { bytes = take s.start s.bytes.now; at_end = s.at_end };
      left = drop s.start s.bytes.now;
    } };

    ghost invariant = { λ s. s.start ≤ length s.bytes.now };
}

impl<'a> NeverFails<'a> {
    /// A source of these bytes.
    pub fn of(bytes: &'a [u8]) -> NeverFails<'a>
        ensures { result ≡ record { past = no_past; left = bytes.now } }
    {
        NeverFails {
            bytes,
            start: 0,
            at_end: false,
        }
    }
}

impl Source for NeverFails<'_> {
    ghost past = { λ s. s.past };

    ghost left = { λ s. Some s.left };

    ghost faults = { λ _. 0 };

    fn read(&mut self, buffer: &mut [u8]) -> Result<usize, Failed> {
        let rest = &self.bytes[self.start..];
        let room = buffer.len();
        let count = room.min(rest.len());
        buffer[..count].copy_from_slice(&rest[..count]);
        self.start += count;
        self.at_end = is_end(&buffer[..count], room);
        Ok(count)
    }
}
