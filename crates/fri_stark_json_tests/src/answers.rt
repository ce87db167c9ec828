//! What comes of proving a trace and verifying the proof.

use crate::texts::{PUBLIC_VALUES, SYSTEM, THREE_ROWS, TRACE};
use fri_stark_bytes::{Failure, check, prove};
use fri_stark_json::{
    Accepted, Coset, Failure as Unread, HidingScheme, MALFORMED, MadeScheme, PlainScheme,
    PublicValues, REFUSED, Refusal, System, read, seed_of, verify,
};
use p3_field::{BabyBear, BabyBear4};
use p3_fri_folding::FriProverError;
use p3_fri_plain::Plain;
use serde::{Deserialize, Serialize};
use std::alloc::Global;
use std::process::Abort;

/// A change of a text: what stands there, and what does then.
type Change = (&'static str, &'static str);

/// No change.
const NONE: Change = ("", "");

/// Changes of what is proved and of what the verifier knows, the status, and what is told of an
/// acceptance or of a refusal. Where it is empty a refusal's reason hangs on what is drawn.
#[derive(Clone, Copy)]
struct Case {
    /// Of the system, for both sides.
    system: Change,
    trace: Change,
    /// Of the verifier's own system.
    known: Change,
    public_values: Change,
    status: u8,
    told: &'static str,
}

/// What is accepted.
const GOOD: Case = Case {
    system: NONE,
    trace: NONE,
    known: NONE,
    public_values: NONE,
    status: 0,
    told: "log_height 5, 6 bits",
};

/// What is refused for a reason that isn't compared.
const OTHERWISE: Case = Case {
    status: REFUSED,
    told: "",
    ..GOOD
};

static CASES: [Case; 17] = [
    GOOD,
    // more bits
    Case {
        system: (
            "\"query_proof_of_work_bits\":2",
            "\"query_proof_of_work_bits\":3",
        ),
        told: "log_height 5, 7 bits",
        ..GOOD
    },
    Case {
        system: ("\"log_blowup\":1", "\"log_blowup\":2"),
        told: "log_height 5, 10 bits",
        ..GOOD
    },
    // traces that don't satisfy the system
    Case {
        trace: ("[2,3]", "[2,4]"),
        status: REFUSED,
        told: "Unsatisfied { row: 2, constraint: 3 }: constraint 3 does not hold at row 2",
        ..GOOD
    },
    Case {
        trace: ("[0,1,2178309]", "[0,1,2178310]"),
        status: REFUSED,
        told: "Unsatisfied { row: 31, constraint: 4 }: constraint 4 does not hold at row 31",
        ..GOOD
    },
    // and one that does, whose height is no power of two
    Case {
        trace: (TRACE, THREE_ROWS),
        status: REFUSED,
        told: "TraceHeight { height: 3 }: trace: 3 rows are no power of two with room in the field",
        ..GOOD
    },
    // parameters that aren't a prover's, or that no verifier takes
    Case {
        system: ("\"num_queries\":4", "\"num_queries\":0"),
        status: MALFORMED,
        told: "NumQueries: parameters.num_queries: expected a number above 0",
        ..GOOD
    },
    Case {
        system: ("\"log_final_poly_len\":0", "\"log_final_poly_len\":63"),
        status: MALFORMED,
        told: "LogFinalPolyLen: parameters.log_final_poly_len: expected a number below 64 \
            together with log_blowup",
        ..GOOD
    },
    // texts that aren't JSON, or not of such a record
    Case {
        trace: ("[[0,1]", "[[0,-1]"),
        status: MALFORMED,
        ..OTHERWISE
    },
    Case {
        system: ("\"constraints\":", "\"constraint\":"),
        status: MALFORMED,
        ..OTHERWISE
    },
    Case {
        system: ("{\"local\":0}", "{\"column\":0}"),
        status: MALFORMED,
        ..OTHERWISE
    },
    // a verifier that knows other public values
    Case {
        public_values: ("2178309", "2178310"),
        ..OTHERWISE
    },
    Case {
        public_values: (",2178309", ""),
        ..OTHERWISE
    },
    // or another system
    Case {
        known: ("{\"sub\":[3,9]}", "{\"sub\":[9,3]}"),
        ..OTHERWISE
    },
    Case {
        known: (
            "\"rows\":\"last\",\"node\":12",
            "\"rows\":\"first\",\"node\":5",
        ),
        ..OTHERWISE
    },
    // or asks for more queries, or more work
    Case {
        known: ("\"num_queries\":4", "\"num_queries\":5"),
        ..OTHERWISE
    },
    Case {
        known: (
            "\"query_proof_of_work_bits\":2",
            "\"query_proof_of_work_bits\":12",
        ),
        ..OTHERWISE
    },
];

/// The text with a change.
fn changed(rt: &impl Abort, alloc: Global, text: &str, change: Change) -> String {
    text.replacen(alloc, change.0, change.1, 1)
        .expect(rt, "memory")
}

/// The texts of a case.
#[derive(Drop)]
struct Texts {
    system: String,
    trace: String,
    known: String,
    public_values: String,
}

fn texts_of(rt: &impl Abort, alloc: Global, case: &Case) -> Texts {
    let system = changed(rt, alloc, SYSTEM, case.system);
    Texts {
        trace: changed(rt, alloc, TRACE, case.trace),
        known: changed(rt, alloc, system.as_str(), case.known),
        public_values: changed(rt, alloc, PUBLIC_VALUES, case.public_values),
        system,
    }
}

/// What a proof is accepted with, read as text.
fn accepted_text<'de, P: MadeScheme<BabyBear, BabyBear4, Coset>>(
    alloc: Global,
    texts: &Texts,
    proof: &'de [u8],
) -> Option<Accepted>
where
    P::Proof: Plain<Value = P::Proof>,
    <P::Proof as Plain>::Form: Deserialize<'de>,
{
    let proof = str::from_utf8(proof).ok()?;
    let system: Result<System, Unread<P::ProverError>> = read(alloc, texts.known.as_str());
    let system = system.ok()?;
    let public_values: Result<PublicValues, Unread<P::ProverError>> = read(
        alloc,
        texts.public_values.as_str(),
    );
    verify::<P>(alloc, &system, &public_values.ok()?, proof).ok()
}

/// What comes of verifying a proof, of the trace where none is given: the height in bytes, and what
/// the proof is accepted with as text.
fn outcome_of<'de, P: MadeScheme<BabyBear, BabyBear4, Coset>>(
    alloc: Global,
    texts: &Texts,
    proof: &'de mut Vec<u8>,
) -> Result<(Vec<u8>, Option<Accepted>), Failure>
where
    P::ProverError: Refusal,
    P::Proof: Plain<Value = P::Proof>,
    <P::Proof as Plain>::Form: Serialize + Deserialize<'de>,
{
    if proof.is_empty() {
        *proof = prove::<P>(
            alloc,
            texts.system.as_bytes(),
            texts.trace.as_bytes(),
            &[7; 32],
        )?;
    }
    let proof: &'de [u8] = proof.as_slice();
    let height = fri_stark_bytes::verify::<P>(
        alloc,
        texts.known.as_bytes(),
        texts.public_values.as_bytes(),
        proof,
    )?;
    Ok((height, accepted_text::<P>(alloc, texts, proof)))
}

/// That of the plain scheme.
fn in_plain(
    alloc: Global,
    texts: &Texts,
    proof: &mut Vec<u8>,
) -> Result<(Vec<u8>, Option<Accepted>), Failure> {
    outcome_of::<PlainScheme>(alloc, texts, proof)
}

/// That of the scheme that hides.
fn in_hiding(
    alloc: Global,
    texts: &Texts,
    proof: &mut Vec<u8>,
) -> Result<(Vec<u8>, Option<Accepted>), Failure> {
    outcome_of::<HidingScheme>(alloc, texts, proof)
}

/// What is told of an acceptance.
fn told_of(rt: &impl Abort, alloc: Global, height: &[u8], accepted: Option<Accepted>) -> String {
    let Accepted {
        log_height,
        soundness_bits,
    } = accepted.expect(rt, "refused as text");
    assert!(rt;
        height == (log_height as u64).to_le_bytes().as_slice(),
        "{height:?} in bytes"
    );
    format!(in alloc; "log_height {log_height}, {soundness_bits} bits").expect(rt, "memory")
}

/// Asserts that a case at this place comes out as it says, in the scheme that hides or in the plain
/// one.
fn assert_answer(
    rt: &impl Abort,
    alloc: Global,
    (place, case): (usize, &Case),
    texts: &Texts,
    hides: bool,
    proof: &mut Vec<u8>,
) {
    let outcome = if hides {
        in_hiding(alloc, texts, proof)
    } else {
        in_plain(alloc, texts, proof)
    };
    let (status, told) = match outcome {
        Ok((height, accepted)) => (0, told_of(rt, alloc, height.as_slice(), accepted)),
        Err(failure) => {
            let told = format!(in alloc; "{failure}").expect(rt, "memory");
            (failure.status(), told)
        },
    };
    let is_told = case.told.is_empty() || told.as_str() == case.told;
    assert!(rt;
        status == case.status && is_told,
        "case {place}, hides {hides}: status {status}, {told}"
    );
}

/// Asserts that in both schemes.
fn assert_answers(rt: &impl Abort, alloc: Global, place: usize, case: &Case) {
    let texts = texts_of(rt, alloc, case);
    let mut proof = Vec::new(alloc);
    assert_answer(rt, alloc, (place, case), &texts, false, &mut proof);
    proof.clear();
    assert_answer(rt, alloc, (place, case), &texts, true, &mut proof);
}

#[test]
fn what_is_proved_is_accepted_of_the_same_system_alone(rt: HostRuntime) {
    for (place, case) in CASES.iter().enumerate() {
        assert_answers(&rt, rt.alloc(), place, case);
    }
}

#[test]
fn a_proof_is_one_of_its_scheme(rt: HostRuntime) {
    let malformed = Case {
        status: MALFORMED,
        ..OTHERWISE
    };
    let texts = texts_of(&rt, rt.alloc(), &GOOD);
    let mut proof = Vec::new(rt.alloc());
    assert_answer(&rt, rt.alloc(), (0, &GOOD), &texts, false, &mut proof);
    assert_answer(&rt, rt.alloc(), (0, &malformed), &texts, true, &mut proof);
}

#[test]
fn a_trace_that_satisfies_its_system_is_checked_without_bytes(rt: HostRuntime) {
    let answer = check(rt.alloc(), SYSTEM.as_bytes(), TRACE.as_bytes());
    assert!(rt; answer.is_ok_and(|bytes| bytes.is_empty()));
}

/// Whether bytes are a seed.
fn is_seed(bytes: &[u8]) -> bool {
    let seed: Result<[u8; 32], Unread<FriProverError>> = seed_of(bytes);
    seed.is_ok()
}

#[test]
fn a_seed_has_32_bytes(rt: HostRuntime) {
    assert!(rt; is_seed(&[9; 32]) && !is_seed(&[9; 31]) && !is_seed(&[9; 33]) && !is_seed(&[]));
}
