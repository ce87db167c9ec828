//! Proofs that are accepted, and such that are refused by name.

use crate::belief::Disbelief;
use crate::believing::Believing;
use crate::made::parts_of;
use crate::shown::{CUBES, FIBONACCI, FIRST_CHUNK, HIDDEN_CUBES, Shown};
use p3_air::Node;
use p3_challenger::Sha256Challenger;
use p3_dft::Radix2Dit;
use p3_field::{BabyBear, BabyBear4};
use p3_uni_stark_verifier::{PreprocessedVerifierKey, Statement, VerificationError, verify};
use std::alloc::Global;
use std::marker::PhantomData;
use std::process::Abort;

/// What a verifier says.
#[derive(Clone, Copy, PartialEq, Eq)]
enum Verdict {
    Accepted,
    InvalidAir,
    DegreeTooLarge,
    InvalidPublicValues,
    InvalidPeriodicCount,
    InvalidPreprocessed,
    InvalidProofShape,
    RandomizationError,
    PointOnTraceDomain,
    InvalidPeriodicColumns,
    InvalidOpeningArgument,
    OodEvaluationMismatch,
    OutOfMemory,
}

/// What an answer says.
fn verdict_of(answer: &Result<(), VerificationError<Disbelief>>) -> Verdict {
    match answer {
        Ok(()) => Verdict::Accepted,
        Err(VerificationError::InvalidAir(_)) => Verdict::InvalidAir,
        Err(VerificationError::DegreeTooLarge) => Verdict::DegreeTooLarge,
        Err(VerificationError::InvalidPublicValues) => Verdict::InvalidPublicValues,
        Err(VerificationError::InvalidPeriodicCount) => Verdict::InvalidPeriodicCount,
        Err(VerificationError::InvalidPreprocessed) => Verdict::InvalidPreprocessed,
        Err(VerificationError::InvalidProofShape) => Verdict::InvalidProofShape,
        Err(VerificationError::RandomizationError) => Verdict::RandomizationError,
        Err(VerificationError::PointOnTraceDomain) => Verdict::PointOnTraceDomain,
        Err(VerificationError::InvalidPeriodicColumns(_)) => Verdict::InvalidPeriodicColumns,
        Err(VerificationError::InvalidOpeningArgument(_)) => Verdict::InvalidOpeningArgument,
        Err(VerificationError::OodEvaluationMismatch) => Verdict::OodEvaluationMismatch,
        Err(VerificationError::OutOfMemory) => Verdict::OutOfMemory,
    }
}

/// What the verifier says of what is shown, by a scheme that hides or doesn't.
fn judge<const HIDES: bool>(rt: &impl Abort, alloc: Global, shown: &Shown) -> Verdict {
    let parts = parts_of::<BabyBear, BabyBear4>(rt, alloc, shown);
    let statement = Statement {
        air: &parts.air,
        preprocessed: parts.preprocessed,
        periodic: &parts.periodic,
        public_values: &parts.public_values,
    };
    let scheme = Believing::<BabyBear, Radix2Dit<BabyBear>, HIDES> {
        dft: Radix2Dit::default(),
        field: PhantomData,
    };
    let mut challenger = Sha256Challenger::new();
    let answer = verify::<
        BabyBear,
        BabyBear4,
        [u8; 32],
        Sha256Challenger,
        Radix2Dit<BabyBear>,
        Believing<BabyBear, Radix2Dit<BabyBear>, HIDES>,
    >(&scheme, alloc, &statement, &parts.proof, &mut challenger);
    verdict_of(&answer)
}

/// A name, what is shown, and what the verifier says.
type Case = (&'static str, Shown, Verdict);

static CASES: [Case; 22] = [
    ("Fibonacci numbers", FIBONACCI, Verdict::Accepted),
    ("cubes", CUBES, Verdict::Accepted),
    ("hidden cubes", HIDDEN_CUBES, Verdict::Accepted),
    (
        "a node of itself",
        Shown {
            nodes: &[Node::Neg(0)],
            ..CUBES
        },
        Verdict::InvalidAir,
    ),
    (
        "one public value",
        Shown {
            public_values: &[2],
            ..CUBES
        },
        Verdict::InvalidPublicValues,
    ),
    (
        "another public value",
        Shown {
            public_values: &[2, 8],
            ..CUBES
        },
        Verdict::OodEvaluationMismatch,
    ),
    (
        "no periodic column",
        Shown {
            periodic: &[],
            ..CUBES
        },
        Verdict::InvalidPeriodicCount,
    ),
    (
        "a period of three",
        Shown {
            periodic: &[&[3, 5, 3]],
            ..CUBES
        },
        Verdict::InvalidPeriodicColumns,
    ),
    (
        "another periodic column",
        Shown {
            periodic: &[&[3, 6]],
            ..CUBES
        },
        Verdict::OodEvaluationMismatch,
    ),
    (
        "no key",
        Shown {
            preprocessed: None,
            ..CUBES
        },
        Verdict::InvalidPreprocessed,
    ),
    (
        "a key of another height",
        Shown {
            preprocessed: Some(PreprocessedVerifierKey {
                commitment: [3; 32],
                log_height: 3,
            }),
            ..CUBES
        },
        Verdict::InvalidProofShape,
    ),
    (
        "another key",
        Shown {
            preprocessed: Some(PreprocessedVerifierKey {
                commitment: [5; 32],
                log_height: 2,
            }),
            ..CUBES
        },
        Verdict::OodEvaluationMismatch,
    ),
    (
        "a height past the two-adicity",
        Shown {
            log_height: 28,
            ..CUBES
        },
        Verdict::InvalidProofShape,
    ),
    (
        "a chunk too few",
        Shown {
            quotient_chunks: &[FIRST_CHUNK],
            ..CUBES
        },
        Verdict::InvalidProofShape,
    ),
    (
        "a random value",
        Shown {
            random_values: &[[1, 2, 3, 4]],
            ..CUBES
        },
        Verdict::InvalidProofShape,
    ),
    (
        "random polynomials",
        Shown {
            random: Some([4; 32]),
            ..CUBES
        },
        Verdict::RandomizationError,
    ),
    (
        "another number of claims",
        Shown { claims: 4, ..CUBES },
        Verdict::InvalidOpeningArgument,
    ),
    (
        "another trace",
        Shown {
            trace: [5; 32],
            ..CUBES
        },
        Verdict::OodEvaluationMismatch,
    ),
    (
        "another next row",
        Shown {
            trace_next: &[[1, 2, 3, 4]],
            ..CUBES
        },
        Verdict::OodEvaluationMismatch,
    ),
    (
        "no random polynomials",
        Shown {
            random: None,
            ..HIDDEN_CUBES
        },
        Verdict::RandomizationError,
    ),
    (
        "62 squares",
        Shown {
            nodes: &[Node::Local(0)],
            squares: 62,
            constraints: &[],
            ..FIBONACCI
        },
        Verdict::OodEvaluationMismatch,
    ),
    (
        "63 squares",
        Shown {
            nodes: &[Node::Local(0)],
            squares: 63,
            constraints: &[],
            ..FIBONACCI
        },
        Verdict::DegreeTooLarge,
    ),
];

#[test]
fn proofs_are_accepted_or_refused_by_name(rt: HostRuntime) {
    for (name, shown, verdict) in &CASES {
        let found = if shown.hides {
            judge::<true>(&rt, rt.alloc(), shown)
        } else {
            judge::<false>(&rt, rt.alloc(), shown)
        };
        assert!(rt; found == *verdict, "{name}");
    }
}
