//! What a mode is run with, the least of several times, and why nothing was timed.

use std::alloc::AllocError;
use std::time::{Duration, Instant};
use std::{fmt, io};

/// The sizes of a run, and how often to time.
pub type Run<const N: usize> = ([usize; N], usize);

/// What is made, or why nothing was timed.
pub type Result<T> = std::result::Result<T, Fault>;

/// Why nothing was timed.
#[derive(Debug, Drop)]
pub enum Fault {
    /// The arguments name no run.
    Usage,
    /// The sizes are none that a matrix or a word has here.
    Sizes,
    /// What was to be committed to, opened or verified is refused: so few random columns, or rows
    /// for so many queries, hide nothing.
    Refused,
    /// Memory was refused.
    Memory,
    /// A write failed.
    Output,
}

impl From<AllocError> for Fault {
    fn from(_error: AllocError) -> Self {
        Fault::Memory
    }
}

impl From<io::Error> for Fault {
    fn from(_error: io::Error) -> Self {
        Fault::Output
    }
}

/// When something begins, if the clock says it.
pub fn now(rt: &HostRuntime) -> Option<Instant> {
    Instant::now(rt).ok()
}

/// The least of the times that it saw, if the clock said any.
#[derive(Clone, Copy)]
pub struct Watch(Option<Duration>);

impl Watch {
    /// It saw no time yet.
    pub const UNSEEN: Watch = Watch(None);

    /// Sees the time since then.
    pub fn see(&mut self, rt: &HostRuntime, start: Option<Instant>) {
        let Some(start) = start else {
            return;
        };
        let Ok(time) = start.elapsed(rt) else {
            return;
        };
        self.0 = match self.0 {
            Some(least) => Some(least.min(time)),
            None => Some(time),
        };
    }
}

impl fmt::Display for Watch {
    fn fmt<W: fmt::Write>(&self, f: &mut fmt::Formatter<W>) -> fmt::Result {
        match self.0 {
            Some(time) => write!(f, "{} us", time.as_micros()),
            None => write!(f, "no time"),
        }
    }
}
