//! Queries that are folded by themselves.

ghost use Rattle.std.specs.Prelude.{◌<◌, ◌≤◌, length, IsOk};
ghost use Rattle.p3_fri_relation.specs.FoldedQuery.{IsInOrder};
ghost use Rattle.p3_fri_relation.specs.Views.{query_input};

use crate::cases::{Case, FOLDED, Outcome, REFUSED};
use crate::elements::{Coefficients, element, elements};
use p3_field::{BabyBear, BabyBear4};
use p3_fri_folding::TwoAdicFriFolding;
use p3_fri_queries::{QuerySetting, fold_query};
use p3_fri_relation::error::{FriError, FriOpenings};
use p3_fri_relation::proof::CommitPhaseMultiStep;
use p3_mmcs::{Sha256Mmcs, Sha256MmcsError};
use std::alloc::Global;
use std::marker::PhantomData;
use std::process::Abort;

pub(crate) type Folding = TwoAdicFriFolding<(), ()>;

pub(crate) type Scheme = Sha256Mmcs<BabyBear4>;

pub(crate) type Opening = CommitPhaseMultiStep<BabyBear4, Scheme>;

/// Whether these are the elements of the coefficients.
fn are(row: &[BabyBear4], all: &[Coefficients]) -> bool {
    for (value, coefficients) in row.iter().zip(all) {
        if *value != element(*coefficients) {
            return false;
        }
    }
    row.len() == all.len()
}

/// What a round opens, query by query.
fn opening(rt: &impl Abort, alloc: Global, rows: &[&[Coefficients]]) -> Opening {
    let mut sibling_values = Vec::new(alloc);
    for row in rows {
        let siblings = elements(rt, alloc, *row);
        sibling_values.push(siblings).expect(rt, "memory");
    }
    CommitPhaseMultiStep {
        sibling_values,
        opening_proof: Vec::new(alloc),
    }
}

/// What each round opens.
fn openings(rt: &impl Abort, alloc: Global, rounds: &[&[&[Coefficients]]]) -> Vec<Opening> {
    let mut all = Vec::new(alloc);
    for rows in rounds {
        all.push(opening(rt, alloc, *rows)).expect(rt, "memory");
    }
    all
}

/// What the query meets.
fn inputs(
    rt: &impl Abort,
    alloc: Global,
    each: &[(usize, Coefficients)],
) -> FriOpenings<BabyBear4> {
    let mut all = Vec::new(alloc);
    for (log_height, value) in each {
        all.push((*log_height, element(*value)))
            .expect(rt, "memory");
    }
    all
}

/// Where a query ends, and what was collected, by round.
#[derive(Drop)]
pub(crate) struct Folded {
    pub value: Result<BabyBear4, FriError<Sha256MmcsError, ()>>,
    index: usize,
    group_indices: [Vec<usize>; 2],
    rows: [Vec<Vec<Vec<BabyBear4>>>; 2],
}

/// A query of words of log height 4, folded by itself.
pub(crate) fn fold(
    rt: &impl Abort,
    alloc: Global,
    query: usize,
    position: usize,
    betas: &[BabyBear4],
    schedule: &[usize],
    openings: &[Opening],
    inputs: &[(usize, BabyBear4)],
    log_final_height: usize,
) -> Folded
    requires query { query < usize.MAX }
    requires position { position < 16 }
    requires rounds { length schedule.now ≤ 2 }
    ensures { IsOk result.value → IsInOrder (query_input query position betas.now schedule.now
        openings.now inputs.now 4 log_final_height) }
{
    let rounds = schedule.len();
    let inputs = Vec::from_slice(alloc, inputs).expect(rt, "memory");
    let mut index = position;
    let mut group_indices = [Vec::new(alloc), Vec::new(alloc)];
    let mut rows = [Vec::new(alloc), Vec::new(alloc)];
    let folding: Folding = TwoAdicFriFolding(PhantomData);
    let setting = QuerySetting {
        folding: &folding,
        betas,
        log_arities: schedule,
        openings,
        log_global_max_height: 4,
        log_final_height,
    };
    let value = fold_query::<BabyBear, BabyBear4, Scheme, Folding>(
        alloc,
        &setting,
        query,
        &mut index,
        inputs,
        &mut group_indices[..rounds],
        &mut rows[..rounds],
    );
    Folded {
        value,
        index,
        group_indices,
        rows,
    }
}

/// The case's query, folded.
fn fold_case(rt: &impl Abort, alloc: Global, case: &Case) -> Folded {
    assert!(rt;
        case.query <= 1 && case.index < 16 && case.schedule.len() <= 2,
        "not a query of the call"
    );
    let betas = elements(rt, alloc, case.betas);
    let openings = openings(rt, alloc, case.openings);
    let inputs = inputs(rt, alloc, case.inputs);
    fold(
        rt,
        alloc,
        case.query,
        case.index,
        &betas,
        case.schedule,
        &openings,
        &inputs,
        case.log_final_height,
    )
}

/// Whether one row was collected, at this index.
fn is_collected(
    group_indices: &[usize],
    rows: &[Vec<Vec<BabyBear4>>],
    expected: &(usize, &[Coefficients]),
) -> bool {
    let [matrices] = rows else {
        return false;
    };
    let [row] = matrices.as_slice() else {
        return false;
    };
    group_indices == [expected.0].as_slice() && are(row, expected.1)
}

/// Whether the query ends so, with these rows.
fn is_folded(
    folded: &Folded,
    value: Coefficients,
    index: usize,
    rounds: &[(usize, &[Coefficients])],
) -> bool {
    let Ok(found) = &folded.value else {
        return false;
    };
    for ((group_indices, rows), expected) in folded
        .group_indices
        .iter()
        .zip(&folded.rows)
        .zip(rounds)
    {
        if !is_collected(group_indices, rows, expected) {
            return false;
        }
    }
    *found == element(value) && folded.index == index
}

/// Whether the query is refused by this text.
fn is_refused(rt: &impl Abort, alloc: Global, folded: &Folded, text: &str) -> bool {
    match &folded.value {
        Ok(_) => false,
        Err(refusal) => {
            format!(in alloc; "{refusal:?}")
                .expect(rt, "memory")
                .as_str()
                == text
        },
    }
}

/// Whether the case has its outcome.
fn is_met(rt: &impl Abort, alloc: Global, case: &Case) -> bool {
    let folded = fold_case(rt, alloc, case);
    match case.outcome {
        Outcome::Folded(value, index, rounds) => is_folded(&folded, value, index, rounds),
        Outcome::Refused(text) => is_refused(rt, alloc, &folded, text),
    }
}

/// Asserts that each case has its outcome.
fn assert_all(rt: &impl Abort, alloc: Global, cases: &[Case]) {
    for case in cases {
        assert!(rt; is_met(rt, alloc, case), "{}", case.name);
    }
}

#[test]
fn folds_queries(rt: HostRuntime) {
    assert_all(&rt, rt.alloc(), &FOLDED);
}

#[test]
fn refuses_queries(rt: HostRuntime) {
    assert_all(&rt, rt.alloc(), &REFUSED);
}
