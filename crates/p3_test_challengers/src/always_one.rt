//! A challenger without witnesses.

ghost use Rattle.p3_test_challengers.specs.AlwaysOne.{ignored, one_drawn, bits_of_one};
ghost use Rattle.p3_test_challengers.specs.AlwaysOne.{solution_of_one};
ghost use Rattle.p3_test_challengers.specs.AlwaysOneLaws.{max_small, bits_below};

use p3_challenger_core::{
    CanObserve, CanSample, CanSampleBits, FieldChallenger, GrindingChallenger,
};
use p3_field::{BabyBear, Field};

/// A challenger that absorbs nothing and whose drawn number is always 1, so that no proof of work
/// has a solution but that of no bits.
#[derive(Debug, Drop)]
pub struct AlwaysOne {}

impl CanObserve<BabyBear> for AlwaysOne {
    ghost observed = { ignored };

    fn observe(&mut self, value: BabyBear) {}
}

impl CanObserve<[u8; 32]> for AlwaysOne {
    ghost observed = { ignored };

    fn observe(&mut self, value: [u8; 32]) {}
}

impl CanSample<BabyBear> for AlwaysOne {
    ghost sampled = { one_drawn };

    fn sample(&mut self) -> BabyBear {
        BabyBear::ONE
    }
}

/// The lowest bits of 1.
impl CanSampleBits for AlwaysOne {
    ghost MAX_SAMPLE_BITS = { 63 };

    const MAX_SAMPLE_BITS: usize = 63;

    ghost sampled_bits = { bits_of_one };

    fn sample_bits(&mut self, bits: usize) -> usize {
        if bits == 0 { 0 } else { 1 }
    }

    ghost max_law = { max_small };

    ghost width_law = { bits_below };
}

impl FieldChallenger<BabyBear> for AlwaysOne {}

/// No witness passes, but at no bits.
impl GrindingChallenger for AlwaysOne {
    type Witness = BabyBear;

    ghost solution = { solution_of_one };

    fn grind(&mut self, bits: usize) -> Option<BabyBear> {
        if bits == 0 {
            Some(BabyBear::ZERO)
        } else {
            None
        }
    }
}
