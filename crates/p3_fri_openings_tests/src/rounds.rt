//! Matrices and points to open, and what a prover makes of them. What has to hold of them is found
//! when the tests run.

ghost use Rattle.std.specs.Prelude.{All, IsTrue, length};
ghost use Rattle.std.specs.Int.{IsPowerOfTwo};
ghost use Rattle.p3_matrix.specs.Matrix.{rows};
ghost use Rattle.p3_fri_openings.specs.Rounds.{HasCoset, IsRound};

use p3_dft::Radix2Dit;
use p3_field::{BabyBear, BabyBear4, Field, TwoAdicMultiplicativeCoset};
use p3_fri_batch::batch_words;
use p3_fri_extensions::extend;
use p3_fri_folding::FriProverError;
use p3_fri_openings::{
    Denominators, OpeningRound, check_points, denominators_of_rounds, open_values,
};
use p3_matrix::RowMajorMatrix;
use p3_mmcs::OpenedValues;
use std::alloc::Global;
use std::process::Abort;

pub(crate) type Domain = TwoAdicMultiplicativeCoset<BabyBear>;

/// The matrix of these numbers, row by row.
pub(crate) fn matrix(
    rt: &impl Abort,
    alloc: Global,
    numbers: &[u64],
    width: usize,
) -> RowMajorMatrix<BabyBear> {
    let mut elements = Vec::new(alloc);
    for number in numbers {
        elements
            .push(BabyBear::from_u64(*number))
            .expect(rt, "memory");
    }
    assert!(rt;
        width != 0 && elements.len() % width == 0,
        "the values aren't whole rows"
    );
    RowMajorMatrix::new(elements, width)
}

/// The coset of this shift and of `2^log_size` points.
pub(crate) fn coset_of(rt: &impl Abort, shift: BabyBear, log_size: usize) -> Domain {
    Domain::new(shift, log_size).expect(rt, "no such domain")
}

/// The column of these values on the natural domain of their number, extended.
pub(crate) fn extended(
    rt: &impl Abort,
    alloc: Global,
    log_blowup: usize,
    column: &[u64],
) -> RowMajorMatrix<BabyBear>
    ensures { IsPowerOfTwo (length (rows result)) }
{
    let domain = coset_of(rt, BabyBear::ONE, column.len().trailing_zeros() as usize);
    let matrix = matrix(rt, alloc, column, 1);
    assert!(rt;
        matrix.height() == domain.size(),
        "the column isn't as long as a domain"
    );
    assert!(rt;
        log_blowup <= 8 && domain.log_size() <= 8,
        "the column is too long"
    );
    extend(&Radix2Dit::default(), alloc, log_blowup, domain, matrix).expect(rt, "memory")
}

/// Whether the matrix stands on a coset.
pub(crate) fn has_coset(matrix: &RowMajorMatrix<BabyBear>) -> bool
    ensures { IsTrue result → HasCoset 27 matrix.now }
{
    let log_height = matrix.height().trailing_zeros() as usize;
    match Domain::new(BabyBear::GENERATOR, log_height) {
        Some(coset) => coset.size() == matrix.height(),
        None => false,
    }
}

/// Whether each of them does.
fn have_cosets(matrices: &[RowMajorMatrix<BabyBear>]) -> bool
    ensures { IsTrue result → All (HasCoset 27) matrices.now }
{
    for matrix in matrices {
        if !has_coset(matrix) {
            return false;
        }
    }
    true
}

/// Whether the rounds may be opened.
fn are_rounds(rounds: &[OpeningRound<'_, BabyBear, BabyBear4>]) -> bool
    ensures { IsTrue result → All (IsRound 27) rounds.now }
{
    for round in rounds {
        if round.points.len() != round.matrices.len() {
            return false;
        }
        if !have_cosets(round.matrices) {
            return false;
        }
    }
    true
}

/// The values that are opened, by which denominators, and the words of the quotients.
type Opened = (
    OpenedValues<BabyBear4>,
    Denominators<BabyBear, BabyBear4>,
    Vec<Vec<BabyBear4>>,
);

/// What is opened of these rounds, with blowup 2, and the words by the powers of `alpha`, unless a
/// point is refused.
pub(crate) fn open(
    rt: &impl Abort,
    alloc: Global,
    alpha: BabyBear4,
    rounds: &[OpeningRound<'_, BabyBear, BabyBear4>],
) -> Result<Opened, FriProverError> {
    assert!(rt; are_rounds(rounds), "the rounds can't be opened");
    check_points(rounds)?;
    let denominators = denominators_of_rounds(alloc, rounds).expect(rt, "memory");
    let values = open_values(alloc, 1, rounds, &denominators).expect(rt, "memory");
    let words = batch_words(alloc, alpha, rounds, &values, &denominators.entries);
    Ok((values, denominators, words.expect(rt, "memory")))
}

/// The matrices and the points of a round.
#[derive(Drop)]
pub(crate) struct Held {
    pub matrices: Vec<RowMajorMatrix<BabyBear>>,
    pub points: Vec<Vec<BabyBear4>>,
}

/// The rounds that hold these.
pub(crate) fn lent<'a>(
    rt: &impl Abort,
    alloc: Global,
    held: &'a [Held],
) -> Vec<OpeningRound<'a, BabyBear, BabyBear4>> {
    let mut rounds = Vec::new(alloc);
    for each in held {
        let round = OpeningRound {
            matrices: &each.matrices,
            points: &each.points,
        };
        rounds.push(round).expect(rt, "memory");
    }
    rounds
}
