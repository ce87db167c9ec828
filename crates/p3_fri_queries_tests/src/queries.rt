//! Two queries through two rounds of a word, opened from real commitments, and what is refused of
//! them.

ghost use Rattle.std.specs.Prelude.{◌≡◌, ◌<◌, [], ◌∷◌, length, All, EachIndex};
ghost use Rattle.algebra.specs.Nested.{lists};
ghost use Rattle.p3_fri_relation.specs.FoldedQuery.{IsInOrder};
ghost use Rattle.p3_fri_queries.specs.Folded.{query_at};

use crate::elements::{Coefficients, element, elements};
use crate::fold_query::{Folding, Opening, Scheme, fold};
use crate::words::{BETAS, FINAL_POLY, FIRST_WORD, ROWS, SECOND_WORD};
use p3_field::{BabyBear, BabyBear4};
use p3_fri_folding::TwoAdicFriFolding;
use p3_fri_queries::{FoldedQueries, QuerySetting, fold_queries, verify_rounds};
use p3_fri_relation::error::{FriError, FriOpenings};
use p3_fri_relation::proof::CommitPhaseMultiStep;
use p3_matrix::RowMajorMatrix;
use p3_mmcs::{Mmcs, Sha256Mmcs, Sha256MmcsError, have_power_heights, indices_are_below};
use std::alloc::Global;
use std::marker::PhantomData;
use std::process::Abort;

type Answer = Result<FoldedQueries<BabyBear4>, FriError<Sha256MmcsError, ()>>;

/// Asserts that each query is in order, as it is found by itself.
fn assert_in_order(
    rt: &impl Abort,
    alloc: Global,
    positions: &[usize],
    betas: &[BabyBear4],
    openings: &[Opening],
    inputs: &[FriOpenings<BabyBear4>],
)
    requires count { length inputs.now ≡ length positions.now }
    requires positions { All (λ position. position < 16) positions.now }
    ensures { EachIndex positions.now (λ j.
        IsInOrder (query_at positions.now betas.now (1 ∷ 1 ∷ []) openings.now
        (lists inputs.now) 4 2 j)) }
{
    for query in 0..positions.len() {
        let met = inputs[query].as_slice();
        let folded = fold(
            rt,
            alloc,
            query,
            positions[query],
            betas,
            &[1, 1],
            openings,
            met,
            2,
        );
        if !folded.value.is_ok() {
            panic!(rt; "not in order");
        }
    }
}

/// The siblings of these positions in the word, of each the only one in its row.
fn siblings(
    rt: &impl Abort,
    alloc: Global,
    word: &[Coefficients],
    positions: &[usize],
) -> Vec<Vec<BabyBear4>> {
    let mut siblings = Vec::new(alloc);
    for position in positions {
        let sibling = word.get(*position ^ 1).expect(rt, "not a position");
        let row = vec![in alloc; element(*sibling)].expect(rt, "memory");
        siblings.push(row).expect(rt, "memory");
    }
    siblings
}

/// The commitment to a word in rows, with the proof of what it opens at these indices.
fn commit_and_open<T: Copy, M: Mmcs<T>>(
    rt: &impl Abort,
    alloc: Global,
    scheme: &M,
    matrix: RowMajorMatrix<T>,
    indices: &[usize],
) -> (M::Commitment, M::MultiProof) {
    if !have_power_heights(&[matrix.dimensions()]) {
        panic!(rt; "not a word");
    }
    let (commitment, data) = scheme.commit_matrix(alloc, matrix).expect(rt, "memory");
    let height = scheme.get_max_height(&data);
    assert!(rt; indices_are_below(indices, height), "not positions");
    let (_rows, proof) = scheme
        .open_multi_batch(alloc, indices, &data)
        .expect(rt, "memory");
    (commitment, proof)
}

/// A round: the word that it folds, where it is looked up, and the indices of those rows.
#[derive(Clone, Copy)]
struct Round {
    word: &'static [Coefficients],
    positions: [usize; 2],
    indices: [usize; 2],
}

/// The commitment to the round's word in rows of two, with what it opens.
fn opening(rt: &impl Abort, alloc: Global, round: &Round) -> ([u8; 32], Opening) {
    let values = elements(rt, alloc, round.word);
    assert!(rt; values.len() % 2 == 0, "not rows");
    let matrix = RowMajorMatrix::new(values, 2);
    let scheme: Scheme = Sha256Mmcs::new();
    let (commitment, opening_proof) = commit_and_open(rt, alloc, &scheme, matrix, &round.indices);
    let opening = CommitPhaseMultiStep {
        sibling_values: siblings(rt, alloc, round.word, &round.positions),
        opening_proof,
    };
    (commitment, opening)
}

/// The positions of two queries.
const POSITIONS: [usize; 2] = [13, 6];

const FIRST_ROUND: Round = Round {
    word: &FIRST_WORD,
    positions: POSITIONS,
    indices: [6, 3],
};

const SECOND_ROUND: Round = Round {
    word: &SECOND_WORD,
    positions: [6, 3],
    indices: [3, 1],
};

/// What two queries meet, and what comes of them.
#[derive(Clone, Copy)]
struct Case {
    name: &'static str,
    inputs: [Coefficients; 2],
    /// In the place of the last round's commitment.
    other_commitment: Option<[u8; 32]>,
    refusal: Option<&'static str>,
}

const FOLDED: [Case; 1] = [Case {
    name: "honest queries",
    inputs: [[119_886_129, 0, 0, 0], [980_435_797, 0, 0, 0]],
    other_commitment: None,
    refusal: None,
}];

const REFUSED: [Case; 2] = [
    Case {
        name: "the second ends elsewhere",
        inputs: [[119_886_129, 0, 0, 0], [159_009_831, 0, 0, 0]],
        other_commitment: None,
        refusal: Some("FinalPolyMismatch"),
    },
    Case {
        name: "another commitment of the last round",
        inputs: [[119_886_129, 0, 0, 0], [980_435_797, 0, 0, 0]],
        other_commitment: Some([0; 32]),
        refusal: Some("CommitPhaseMmcsError(RootMismatch)"),
    },
];

/// What two queries meet.
fn inputs(
    rt: &impl Abort,
    alloc: Global,
    values: &[Coefficients; 2],
) -> Vec<FriOpenings<BabyBear4>> {
    let mut inputs = Vec::new(alloc);
    for value in values {
        let met = vec![in alloc; (4, element(*value))].expect(rt, "memory");
        inputs.push(met).expect(rt, "memory");
    }
    inputs
}

/// The commitments of both rounds, and what they open.
fn rounds_of(rt: &impl Abort, alloc: Global, case: &Case) -> ([[u8; 32]; 2], [Opening; 2]) {
    let (first_commitment, first) = opening(rt, alloc, &FIRST_ROUND);
    let (second_commitment, second) = opening(rt, alloc, &SECOND_ROUND);
    let last_commitment = case.other_commitment.unwrap_or(second_commitment);
    ([first_commitment, last_commitment], [first, second])
}

/// The queries of the case folded and their rows verified.
fn answer(rt: &impl Abort, alloc: Global, case: &Case) -> Answer {
    let (commitments, openings) = rounds_of(rt, alloc, case);
    let inputs = inputs(rt, alloc, &case.inputs);
    let betas = [element(BETAS[0]), element(BETAS[1])];
    assert!(rt;
        inputs.len() == 2 && indices_are_below(&POSITIONS, 16),
        "not two queries"
    );
    assert_in_order(rt, alloc, &POSITIONS, &betas, &openings, &inputs);
    let folding: Folding = TwoAdicFriFolding(PhantomData);
    let setting = QuerySetting {
        folding: &folding,
        betas: &betas,
        log_arities: &[1, 1],
        openings: openings.as_slice(),
        log_global_max_height: 4,
        log_final_height: 2,
    };
    let folded = fold_queries::<BabyBear, BabyBear4, Scheme, Folding>(
        alloc,
        &setting,
        &POSITIONS,
        inputs,
        &[element(FINAL_POLY[0]), element(FINAL_POLY[1])],
    );
    let folded = match folded {
        Ok(folded) => folded,
        Err(refusal) => return Err(refusal),
    };
    let scheme: Scheme = Sha256Mmcs::new();
    match verify_rounds::<BabyBear4, Scheme, ()>(
        &scheme,
        &commitments,
        &[1, 1],
        4,
        &openings,
        &folded,
    ) {
        Ok(()) => Ok(folded),
        Err(refusal) => Err(refusal),
    }
}

/// Whether the set is of this row alone.
fn is_row(set: &[Vec<BabyBear4>], row: &[Coefficients; 2]) -> bool {
    let [found] = set else {
        return false;
    };
    found.as_slice() == [element(row[0]), element(row[1])].as_slice()
}

/// Whether a round's sets are of these rows.
fn are_rows(sets: &[Vec<Vec<BabyBear4>>], rows: &[[Coefficients; 2]; 2]) -> bool {
    let [first, second] = sets else {
        return false;
    };
    is_row(first, &rows[0]) && is_row(second, &rows[1])
}

/// Whether the rounds' rows and their indices are those of the words.
fn are_folded(folded: &FoldedQueries<BabyBear4>) -> bool {
    let [first_indices, second_indices] = folded.group_indices_by_round.as_slice() else {
        return false;
    };
    let [first, second] = folded.rows_by_round.as_slice() else {
        return false;
    };
    first_indices.as_slice() == FIRST_ROUND.indices.as_slice()
        && second_indices.as_slice() == SECOND_ROUND.indices.as_slice()
        && are_rows(first, &ROWS[0])
        && are_rows(second, &ROWS[1])
}

/// Whether this is the answer of the case.
fn is_expected(rt: &impl Abort, alloc: Global, case: &Case, answer: &Answer) -> bool {
    match (answer, case.refusal) {
        (Ok(folded), None) => are_folded(folded),
        (Err(refusal), Some(text)) => {
            format!(in alloc; "{refusal:?}")
                .expect(rt, "memory")
                .as_str()
                == text
        },
        _ => false,
    }
}

/// Asserts that each case has its answer.
fn assert_all(rt: &impl Abort, alloc: Global, cases: &[Case]) {
    for case in cases {
        let answer = answer(rt, alloc, case);
        assert!(rt; is_expected(rt, alloc, case, &answer), "{}", case.name);
    }
}

#[test]
fn folds_two_queries_through_two_rounds(rt: HostRuntime) {
    assert_all(&rt, rt.alloc(), &FOLDED);
}

#[test]
fn refuses_queries(rt: HostRuntime) {
    assert_all(&rt, rt.alloc(), &REFUSED);
}
