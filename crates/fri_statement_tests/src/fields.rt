//! What is drawn after a context, and after a statement of a scheme that hides, over each field.
//! The numbers are those of a program of its own.

use fri_statement::{
    StatedCommitment, StatedMatrix, absorb_hiding, absorb_statement, challenge_after,
};
use p3_baby_bear::{BabyBear, BabyBear4};
use p3_challenger_core::FieldChallenger;
use p3_challenger_sha256::{Sha256Challenger, Sha256Field};
use p3_field_core::{ExtensionField, PrimeField64, TwoAdicField, TwoAdicMultiplicativeCoset};
use p3_fri_folding::FriParameters;
use p3_goldilocks::{Goldilocks, Goldilocks2};
use p3_koala_bear::{KoalaBear, KoalaBear4};
use std::alloc::Global;

/// A context, any bytes.
const CONTEXT: &[u8] = b"some context";

/// Parameters with no commitment.
const PARAMETERS: FriParameters<()> = FriParameters {
    log_blowup: 1,
    log_final_poly_len: 0,
    max_log_arity: 2,
    num_queries: 3,
    batch_proof_of_work_bits: 0,
    commit_proof_of_work_bits: 4,
    query_proof_of_work_bits: 5,
    mmcs: (),
};

/// The element with the coefficients 5, 6 and so on.
fn counted<F: PrimeField64, EF: ExtensionField<F>>() -> EF {
    let mut element = EF::ZERO;
    for index in 0..EF::DIMENSION {
        element = element.with_coefficient(index, F::from_u64(index as u64 % 8 + 5));
    }
    element
}

/// Whether the coefficients have these numbers.
fn has_numbers<F: PrimeField64, EF: ExtensionField<F>>(element: EF, numbers: &[u64]) -> bool {
    if numbers.len() != EF::DIMENSION {
        return false;
    }
    for index in 0..EF::DIMENSION {
        let coefficient: F = element.coefficient(index);
        if coefficient.as_canonical_u64() != numbers[index] {
            return false;
        }
    }
    true
}

/// Whether this is drawn after the context.
fn is_drawn_after_context<F: Sha256Field, EF: ExtensionField<F>>(
    alloc: Global,
    numbers: &[u64],
) -> bool {
    match challenge_after::<F, EF>(alloc, CONTEXT) {
        Ok(challenge) => has_numbers::<F, EF>(challenge, numbers),
        Err(_) => false,
    }
}

/// A commitment to one matrix of two columns of sixteen values, opened at one point.
fn commitment<F: TwoAdicField + PrimeField64, EF: ExtensionField<F>>(
    alloc: Global,
) -> Option<StatedCommitment<EF, TwoAdicMultiplicativeCoset<F>>> {
    let mut points = Vec::with_capacity(alloc, 1).ok()?;
    points.push(counted::<F, EF>()).ok()?;
    let matrix = StatedMatrix {
        domain: TwoAdicMultiplicativeCoset::new(F::from_u64(3), 4)?,
        width: 2,
        points,
    };
    let mut matrices = Vec::with_capacity(alloc, 1).ok()?;
    matrices.push(matrix).ok()?;
    Some(StatedCommitment {
        commitment: [7; 32],
        matrices,
    })
}

/// What is drawn after the statement.
fn drawn_after_statement<F: Sha256Field + TwoAdicField, EF: ExtensionField<F>>(
    alloc: Global,
) -> Option<EF> {
    let stated = commitment::<F, EF>(alloc)?;
    let mut challenger = Sha256Challenger::<F>::over_field();
    absorb_hiding(alloc, &mut challenger, 2, None).ok()?;
    absorb_statement(alloc, &mut challenger, CONTEXT, &PARAMETERS, &[stated]).ok()?;
    Some(challenger.sample_algebra_element())
}

/// Whether this is drawn after the statement.
fn is_drawn_after_statement<F: Sha256Field + TwoAdicField, EF: ExtensionField<F>>(
    alloc: Global,
    numbers: &[u64],
) -> bool {
    match drawn_after_statement::<F, EF>(alloc) {
        Some(element) => has_numbers::<F, EF>(element, numbers),
        None => false,
    }
}

#[test]
fn after_a_context(rt: HostRuntime) {
    assert!(rt;
        is_drawn_after_context::<BabyBear, BabyBear4>(
            rt.alloc(),
            &[14_254_578, 345_610_125, 1_888_942_310, 540_117_168],
        )
    );
    assert!(rt;
        is_drawn_after_context::<KoalaBear, KoalaBear4>(
            rt.alloc(),
            &[606_911_310, 589_737_201, 606_478_491, 1_683_773_440],
        )
    );
    assert!(rt;
        is_drawn_after_context::<Goldilocks, Goldilocks2>(
            rt.alloc(),
            &[2_890_018_577_251_669_225, 9_554_567_366_256_177_475],
        )
    );
}

#[test]
fn after_a_statement(rt: HostRuntime) {
    assert!(rt;
        is_drawn_after_statement::<BabyBear, BabyBear4>(
            rt.alloc(),
            &[1_909_973_609, 1_414_959_702, 2_009_271_627, 343_444_185],
        )
    );
    assert!(rt;
        is_drawn_after_statement::<KoalaBear, KoalaBear4>(
            rt.alloc(),
            &[1_772_368_296, 607_776_001, 501_603_470, 359_407_809],
        )
    );
    assert!(rt;
        is_drawn_after_statement::<Goldilocks, Goldilocks2>(
            rt.alloc(),
            &[6_460_985_293_648_963_230, 3_929_170_750_825_416_159],
        )
    );
}
