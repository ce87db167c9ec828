//! What is asked of the scheme over two-adic fields. It is named here alone, since each mention of
//! its instance is proved anew.

use crate::accepted::{Seen, is_seen};
use crate::altered::{Change, alter};
use crate::committed::commit;
use crate::headline::{Shown, is_shown};
use crate::numbers::{Points, points_of};
use crate::scheme::{Domain, PLAIN, Scheme, Setting, VerifierError};
use crate::tested::Tested;
use p3_challenger::Sha256Challenger;
use p3_field::BabyBear4;
use p3_fri_folding::FriProverError;
use p3_pcs::{KnownCommitment, OpeningRequest, claims_of};
use std::alloc::Global;
use std::process::Abort;

/// What comes of an opening.
pub(crate) enum Expected {
    /// The prover refuses so, before its challenger is touched.
    Unopened(FriProverError),
    /// The verifier accepts, and ends as the prover.
    Accepted,
    Refused,
    /// The verifier refuses so, and here before its challenger is touched.
    Named(&'static str, bool),
}

/// An opening of what was committed to, what is seen of it, what becomes of it before it is
/// verified, and the answer.
pub(crate) struct Opening {
    pub name: &'static str,
    pub setting: Setting,
    pub points: Points<'static>,
    pub seen: Option<Seen>,
    pub change: Change,
    pub verifier: Setting,
    pub expected: Expected,
}

/// The opening of one column at 5, which is accepted.
pub(crate) const AT_FIVE: Opening = Opening {
    name: "as it is",
    setting: PLAIN,
    points: &[&[&[5]]],
    seen: None,
    change: Change::Nothing,
    verifier: PLAIN,
    expected: Expected::Accepted,
};

/// The columns of each commitment, and openings of them, one after another.
pub(crate) struct Case {
    pub setting: Setting,
    pub batches: Points<'static>,
    pub openings: &'static [Opening],
}

/// What is asked of a scheme.
pub(crate) enum Question {
    Openings(&'static [Case]),
    Headline(&'static [Shown]),
}

/// A request for the data of each commitment, at these points.
fn requests_of<'a, Data>(
    rt: &impl Abort,
    alloc: Global,
    data: &'a mut [Data],
    points: Points<'_>,
) -> Vec<OpeningRequest<'a, Data, BabyBear4>> {
    let mut requests = Vec::new(alloc);
    for (held, lists) in data.iter_mut().zip(points) {
        let request = OpeningRequest {
            prover_data: held,
            points: points_of(rt, alloc, *lists),
        };
        requests.push(request).expect(rt, "memory");
    }
    requests
}

/// Whether the verifier's answer is expected, where it leaves its challenger so and the prover's is
/// the other.
fn is_answered(
    rt: &impl Abort,
    alloc: Global,
    answer: Result<(), VerifierError>,
    expected: &Expected,
    verifier: &Sha256Challenger,
    prover: &Sha256Challenger,
) -> bool {
    let Err(refusal) = answer else {
        return matches!(expected, Expected::Accepted) && verifier == prover;
    };
    let text = format!(in alloc; "{refusal:?}").expect(rt, "memory");
    match expected {
        Expected::Refused => true,
        Expected::Named(name, at_once) => {
            text.as_str() == *name && (!*at_once || *verifier == Sha256Challenger::new())
        },
        _ => false,
    }
}

/// Whether the prover's refusal is expected, where it leaves its challenger so.
fn is_unopened(refusal: FriProverError, expected: &Expected, prover: &Sha256Challenger) -> bool {
    match expected {
        Expected::Unopened(wanted) => refusal == *wanted && *prover == Sha256Challenger::new(),
        _ => false,
    }
}

/// Whether what is expected comes of the opening of these data, by challengers that are new.
fn is_met<P: Tested>(
    rt: &impl Abort,
    alloc: Global,
    known: &[KnownCommitment<[u8; 32], Domain>],
    data: &mut [P::ProverData],
    opening: &Opening,
) -> bool {
    assert!(rt;
        opening.setting.max_log_arity > 0 && opening.verifier.log_final_poly_len <= 31,
        "not in the range of prover and verifier"
    );
    let mut requests = requests_of(rt, alloc, data, opening.points);
    let scheme = P::of(opening.setting);
    if !scheme.are_openable(&requests) {
        panic!(rt; "the requests can't be opened")
    }
    let mut prover = Sha256Challenger::new();
    match scheme.open(alloc, requests.as_mut_slice(), &mut prover) {
        Ok((values, made)) => {
            let mut proof = made;
            let mut claims = claims_of(alloc, known, &requests, &values).expect(rt, "memory");
            let lent = P::lent(&mut proof);
            let is_seen = is_seen(rt, alloc, opening, &values, &*lent, &claims, &prover);
            alter(rt, alloc, opening, lent, &mut claims);
            let mut verifier = Sha256Challenger::new();
            let answer = P::of(opening.verifier).verify(alloc, claims, &proof, &mut verifier);
            is_seen && is_answered(rt, alloc, answer, &opening.expected, &verifier, &prover)
        },
        Err(refusal) => is_unopened(refusal, &opening.expected, &prover),
    }
}

/// Asserts that this comes of openings of columns that are committed to.
fn assert_met<P: Tested>(rt: &impl Abort, alloc: Global, case: &Case) {
    let mut known = Vec::new(alloc);
    let mut data = Vec::new(alloc);
    for columns in case.batches {
        let (commitment, held) = commit(rt, &mut P::of(case.setting), alloc, *columns);
        known.push(commitment).expect(rt, "memory");
        data.push(held).expect(rt, "memory");
    }
    for opening in case.openings {
        let is_met = is_met::<P>(rt, alloc, &known, data.as_mut_slice(), opening);
        assert!(rt; is_met, "{}", opening.name);
    }
}

/// Asserts that a scheme answers as it is expected.
fn assert_answers<P: Tested>(rt: &impl Abort, alloc: Global, question: Question) {
    match question {
        Question::Openings(cases) => {
            for case in cases {
                assert_met::<P>(rt, alloc, case);
            }
        },
        Question::Headline(cases) => {
            for case in cases {
                assert!(rt; is_shown::<P>(rt, alloc, case), "{}", case.name);
            }
        },
    }
}

/// Asserts that the scheme over two-adic fields does.
pub(crate) fn ask(rt: &impl Abort, alloc: Global, question: Question) {
    assert_answers::<Scheme>(rt, alloc, question);
}
