//! The challenger over each field. The numbers are those of a program of its own.

use p3_challenger::{
    CanObserve, CanSampleBits, FieldChallenger, GrindingChallenger, Sha256Challenger, Sha256Field,
};
use p3_field::{BabyBear, BabyBear4, ExtensionField};
use p3_goldilocks::{Goldilocks, Goldilocks2};
use p3_koala_bear::{KoalaBear, KoalaBear4};

/// Which digest is absorbed.
const DIGEST: [u8; 32] = [7; 32];

/// How many bits are drawn.
const WIDTH: usize = 20;

/// How many bits a witness is searched for.
const DIFFICULTY: usize = 6;

/// The element with the coefficients 5, 6 and so on.
fn counted<F: Sha256Field, EF: ExtensionField<F>>() -> EF {
    let mut element = EF::ZERO;
    for index in 0..EF::DIMENSION {
        element = element.with_coefficient(index, F::from_u64(index as u64 % 8 + 5));
    }
    element
}

/// Whether the coefficients have these numbers.
fn has_numbers<F: Sha256Field, EF: ExtensionField<F>>(element: EF, numbers: &[u64]) -> bool {
    if numbers.len() != EF::DIMENSION {
        return false;
    }
    for index in 0..EF::DIMENSION {
        if element.coefficient(index).as_canonical_u64() != numbers[index] {
            return false;
        }
    }
    true
}

/// Whether these are drawn after the number 5, an element of the extension and a digest: an element
/// of the extension, then bits; and then this is the least witness.
fn draws<F: Sha256Field, EF: ExtensionField<F>>(
    numbers: &[u64],
    bits: usize,
    witness: u64,
) -> bool {
    let mut challenger = Sha256Challenger::<F>::over_field();
    challenger.observe(F::from_u64(5));
    challenger.observe_algebra_element(counted::<F, EF>());
    challenger.observe(DIGEST);
    let drawn: EF = challenger.sample_algebra_element();
    let drawn_bits = challenger.sample_bits(WIDTH);
    let found = challenger.grind(DIFFICULTY);
    has_numbers::<F, EF>(drawn, numbers)
        && drawn_bits == bits
        && found == Some(F::from_u64(witness))
}

#[test]
fn over_each_field(rt: HostRuntime) {
    assert!(rt;
        draws::<BabyBear, BabyBear4>(
            &[1_948_129_316, 1_986_919_980, 1_394_987_363, 39_484_842],
            403_584,
            86,
        )
    );
    assert!(rt;
        draws::<KoalaBear, KoalaBear4>(
            &[1_644_530_370, 837_206_705, 1_852_575_881, 609_264_625],
            403_584,
            86,
        )
    );
    assert!(rt;
        draws::<Goldilocks, Goldilocks2>(
            &[9_495_572_354_640_376_704, 18_103_471_030_622_265_366],
            934_972,
            121,
        )
    );
}
