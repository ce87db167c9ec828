//! BabyBear, the prime field of `2^31 - 2^27 + 1` elements, and BabyBear4, its extension of degree
//! 4.
#![tactic(auto)]

pub mod baby_bear;
pub mod baby_bear4;

pub use crate::baby_bear::{BabyBear, BabyBear8Lanes, BabyBearFactor};
pub use crate::baby_bear4::{BabyBear4, BabyBear4x8Lanes};
