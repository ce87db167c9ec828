//! The working variables of eight messages.

use crate::words::Words;

/// The eight working variables of a round, or the eight words of a hash value, of each message.
#[derive(Clone, Copy)]
pub(crate) struct Variables {
    pub(crate) a: Words,
    pub(crate) b: Words,
    pub(crate) c: Words,
    pub(crate) d: Words,
    pub(crate) e: Words,
    pub(crate) f: Words,
    pub(crate) g: Words,
    pub(crate) h: Words,
}
