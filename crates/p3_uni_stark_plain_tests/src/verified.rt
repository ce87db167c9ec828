//! The proof, verified of the system with public values as numbers.

use crate::given::{KEY, Known, Scheme, proof, scheme, system};
use p3_challenger::Sha256Challenger;
use p3_dft::Radix2Dit;
use p3_field::{BabyBear, BabyBear4};
use p3_fri_plain::TwoAdicFriProof;
use p3_uni_stark_plain::StarkProof;
use p3_uni_stark_statement::{PlainStatement, verify_plain};
use p3_uni_stark_verifier::PreprocessedVerifierKey;
use std::alloc::Global;

/// Public values, and whether the proof is accepted with them, by `tools/relation/stark.py verify`.
static CASES: [(&[u64], bool); 4] = [
    (&[2, 25], true),
    (&[2, 26], false),
    (&[2], false),
    (&[2, 2013265921], false),
];

/// Whether the proof is accepted of the system with these public values.
fn is_accepted(
    alloc: Global,
    system: &Known,
    proof: &StarkProof<TwoAdicFriProof>,
    public_values: &[u64],
) -> bool {
    let statement = PlainStatement {
        air: &system.form,
        preprocessed: Some(PreprocessedVerifierKey {
            commitment: KEY,
            log_height: 2,
        }),
        periodic: &system.periodic,
        public_values,
    };
    let mut challenger = Sha256Challenger::new();
    let answer = verify_plain::<
        BabyBear,
        BabyBear4,
        [u8; 32],
        Sha256Challenger,
        Radix2Dit<BabyBear>,
        Scheme,
    >(&scheme(), alloc, &statement, proof, &mut challenger);
    answer.is_ok()
}

#[test]
fn a_proof_is_verified_of_numbers(rt: HostRuntime) {
    let system = system(&rt, rt.alloc());
    let proof = proof(&rt, rt.alloc());
    for (public_values, accepted) in &CASES {
        let found = is_accepted(rt.alloc(), &system, &proof, *public_values);
        assert!(rt; found == *accepted, "{public_values:?}");
    }
}
