// Why a file of cases was not read.

use std::alloc::{AllocError, AllocFailed};
use thiserror::Error;

/// Why a file of cases was not read.
#[derive(Clone, Copy, Debug, PartialEq, Eq, Error)]
pub enum Unread {
    #[error("out of memory")]
    NoMemory,
    /// This line, from 1 on, is not one of a file of cases.
    #[error("line {0} is not one of a file of cases")]
    Line(usize),
}

impl From<AllocError> for Unread {
    fn from(_error: AllocError) -> Unread {
        Unread::NoMemory
    }
}

impl<T: Drop> From<AllocFailed<T>> for Unread {
    fn from(_error: AllocFailed<T>) -> Unread {
        Unread::NoMemory
    }
}
