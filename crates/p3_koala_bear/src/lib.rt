//! KoalaBear, the prime field of `2^31 - 2^24 + 1` elements, and KoalaBear4, its extension of
//! degree 4.
#![tactic(auto)]

pub mod koala_bear;
pub mod koala_bear4;

pub use crate::koala_bear::{KoalaBear, KoalaBearFactor};
pub use crate::koala_bear4::KoalaBear4;
