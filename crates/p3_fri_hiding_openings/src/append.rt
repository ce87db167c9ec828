//! Random values appended to claims, point by point.

ghost use Rattle.std.specs.Prelude.{◌≡◌, ◌≢◌, ◌↔◌, ◌<◌, ◌≤◌, Err, IsTrue, IsOk, IfErr, OnOk};
ghost use Rattle.std.specs.Prelude.{MatchOption, All, map, length, vec_len};
ghost use Rattle.std.specs.List.{AllZip, zip};
ghost use Rattle.algebra.specs.Nested.{lists, nested};
ghost use Rattle.p3_pcs.specs.Claims.{opened_values, zip_with};
ghost use Rattle.p3_fri_masks.specs.Budget.{required_height};
ghost use Rattle.p3_fri_pow.specs.Counts.{IsWrongCount};
ghost use Rattle.p3_fri_relation.specs.declared.error.FriError.TheVariants.{OutOfMemory};
ghost use Rattle.p3_pcs.specs.Claims.{point_claim};
ghost use Rattle.p3_fri_relation.specs.Views.{matrix_claim, claims_of};
ghost use Rattle.p3_fri_relation.specs.Faults.{At};
ghost use Rattle.p3_fri_hiding_openings.specs.RandomValues.{count_at, with_values, with_points};
ghost use Rattle.p3_fri_hiding_openings.specs.RandomValues.{with_random_values, MayAppend};
ghost use Rattle.p3_fri_hiding_openings.specs.RandomValues.{FitsMatrix, FitRounds};
ghost use Rattle.p3_fri_hiding_openings.specs.RandomValues.{with_matrices, commitment_claim};
ghost use Rattle.p3_fri_hiding_openings.specs.RandomFaults.{MatrixFaults, HidingFaults};

use p3_field_core::{ExtensionField, TwoAdicField, TwoAdicMultiplicativeCoset};
use p3_fri_masks::hiding_budget;
use p3_fri_relation::error::FriError;
use p3_mmcs::{CommitmentOpening, MatrixOpening, PointOpening};
use std::alloc::AllocError;

/// Whether masks of this height hide what is opened at so many points and queries.
fn is_budget_met(
    mask_height: usize,
    num_queries: usize,
    extension_degree: usize,
    num_opening_points: usize,
) -> bool
    ensures { IsTrue result
        ↔ (required_height num_queries extension_degree num_opening_points ≤ mask_height) }
{
    match hiding_budget(num_queries, extension_degree, num_opening_points) {
        Some(required) => required <= mask_height,
        None => false,
    }
}

/// The first point at which another number of random values stands, and how many stand there.
fn wrong_count<EF>(random: &[Vec<EF>], expected: usize) -> Option<(usize, usize)>
    ensures { MatchOption result (All (λ values. length values ≡ expected) (lists random.now))
        (λ found. At found.0 (λ values. IsWrongCount expected (length values) expected found.1)
        (lists random.now)) }
{
    for (point, values) in random.iter().enumerate() {
        if values.len() != expected {
            return Some((point, values.len()));
        }
    }
    None
}

/// Appends random values to those claimed at a point.
fn append_at_point<EF: Copy>(point: &mut PointOpening<EF>, random: &[EF]) -> Result<(), AllocError>
    ensures { OnOk result
        (point_claim point.new ≡ with_values (point_claim point.old) random.now) }
{
    point.values.extend_from_slice(random)?;
    Ok(())
}

/// Appends at each of these points the random values of its place.
fn append_at_points<EF: Copy>(
    points: &mut [PointOpening<EF>],
    random: &[Vec<EF>],
) -> Result<(), AllocError>
    requires one_each { length random.now ≡ length points.old }
    ensures { OnOk result (map point_claim points.new
        ≡ zip_with with_values (map point_claim points.old) (lists random.now)) }
{
    for i in 0..points.len() {
        append_at_point(&mut points[i], random[i].as_slice())?;
    }
    Ok(())
}

/// Appends at each point of a matrix, where its mask is high enough and `expected` values are given
/// for each of its points. The matrix is named by the indices of its commitment and its own.
fn append_at_matrix<F: TwoAdicField, EF: ExtensionField<F>, A, B>(
    claim: &mut MatrixOpening<EF, TwoAdicMultiplicativeCoset<F>>,
    random: &[Vec<EF>],
    num_queries: usize,
    expected: usize,
    round: usize,
    matrix: usize,
) -> Result<(), FriError<A, B>>
    ensures fits { OnOk result (FitsMatrix num_queries EF.DIMENSION expected
        (matrix_claim (λ d. d.log_size) claim.old) (lists random.now)) }
    ensures appended { OnOk result (matrix_claim (λ d. d.log_size) claim.new
        ≡ with_points (matrix_claim (λ d. d.log_size) claim.old) (lists random.now)) }
    ensures stands { IfErr result (MatrixFaults num_queries EF.DIMENSION
        (λ r m Holds. (r ≡ round) × (m ≡ matrix)
        × Holds expected (matrix_claim (λ d. d.log_size) claim.old) (lists random.now))) }
{
    let mask_height = claim.domain.size() / 2;
    let num_opening_points = claim.points.len();
    if !is_budget_met(mask_height, num_queries, EF::DIMENSION, num_opening_points) {
        return Err(FriError::HidingBudgetExceeded {
            round,
            matrix,
            mask_height,
            num_queries,
            num_opening_points,
            extension_degree: EF::DIMENSION,
        });
    }
    if random.len() != num_opening_points {
        return Err(FriError::HidingRandomOpeningPointCountMismatch {
            round,
            matrix,
            expected: num_opening_points,
            got: random.len(),
        });
    }
    if let Some((point, got)) = wrong_count(random, expected) {
        return Err(FriError::HidingRandomOpeningValueCountMismatch {
            round,
            matrix,
            point,
            expected,
            got,
        });
    }
    match append_at_points(claim.points.as_mut_slice(), random) {
        Ok(()) => Ok(()),
        Err(AllocError) => Err(FriError::OutOfMemory),
    }
}

/// Appends to each of these matrices, which are those of one commitment.
fn append_at_matrices<F: TwoAdicField, EF: ExtensionField<F>, A, B>(
    claims: &mut [MatrixOpening<EF, TwoAdicMultiplicativeCoset<F>>],
    random: &[Vec<Vec<EF>>],
    num_queries: usize,
    expected: usize,
    round: usize,
) -> Result<(), FriError<A, B>>
    requires one_each { length random.now ≡ length claims.old }
    ensures fits { OnOk result (AllZip (FitsMatrix num_queries EF.DIMENSION expected)
        (map (matrix_claim (λ d. d.log_size)) claims.old) (nested random.now)) }
    ensures appended { OnOk result (map (matrix_claim (λ d. d.log_size)) claims.new
        ≡ zip_with with_points (map (matrix_claim (λ d. d.log_size)) claims.old)
        (nested random.now)) }
    ensures stands { IfErr result (MatrixFaults num_queries EF.DIMENSION
        (λ r m Holds. (r ≡ round) × At m (λ (claim, points). Holds expected claim points)
        (zip (map (matrix_claim (λ d. d.log_size)) claims.old) (nested random.now)))) }
{
    for i in 0..claims.len() {
        let random = random[i].as_slice();
        match append_at_matrix(&mut claims[i], random, num_queries, expected, round, i) {
            Ok(()) => {},
            Err(refusal) => return Err(refusal),
        }
    }
    Ok(())
}

/// How many random values stand at each point of a commitment's matrices, by its index: none in the
/// preprocessed one.
pub(crate) fn expected_count(
    num_random_codewords: usize,
    preprocessing: Option<usize>,
    round: usize,
) -> usize
    ensures { result ≡ count_at num_random_codewords preprocessing round }
{
    match preprocessing {
        Some(index) => {
            if index == round {
                0
            } else {
                num_random_codewords
            }
        },
        None => num_random_codewords,
    }
}

/// Appends to the matrices under a commitment, of which there are as many as are given values.
fn append_at_round<F: TwoAdicField, EF: ExtensionField<F>, Com, A, B>(
    claim: &mut CommitmentOpening<EF, Com, TwoAdicMultiplicativeCoset<F>>,
    random: &[Vec<Vec<EF>>],
    num_queries: usize,
    expected: usize,
    round: usize,
) -> Result<(), FriError<A, B>>
    requires one_each { length random.now ≡ vec_len claim.old.matrices }
    ensures fits { OnOk result (AllZip (FitsMatrix num_queries EF.DIMENSION expected)
        (commitment_claim (λ d. d.log_size) claim.old).matrices (nested random.now)) }
    ensures appended { OnOk result (commitment_claim (λ d. d.log_size) claim.new
        ≡ with_matrices (commitment_claim (λ d. d.log_size) claim.old) (nested random.now)) }
    ensures stands { IfErr result (MatrixFaults num_queries EF.DIMENSION
        (λ r m Holds. (r ≡ round) × At m (λ (claim, points). Holds expected claim points)
        (zip (commitment_claim (λ d. d.log_size) claim.old).matrices (nested random.now)))) }
{
    append_at_matrices(
        claim.matrices.as_mut_slice(),
        random,
        num_queries,
        expected,
        round,
    )
}

/// Appends to the matrices under each of these commitments.
fn append_at_rounds<F: TwoAdicField, EF: ExtensionField<F>, Com, A, B>(
    claims: &mut [CommitmentOpening<EF, Com, TwoAdicMultiplicativeCoset<F>>],
    random: &[Vec<Vec<Vec<EF>>>],
    num_random_codewords: usize,
    num_queries: usize,
    preprocessing: Option<usize>,
) -> Result<(), FriError<A, B>>
    requires one_each { length random.now ≡ length claims.old }
    ensures fits { OnOk result (FitRounds num_random_codewords num_queries EF.DIMENSION
        preprocessing (claims_of (λ d. d.log_size) claims.old) (opened_values random.now)) }
    ensures appended { OnOk result (claims_of (λ d. d.log_size) claims.new
        ≡ with_random_values (claims_of (λ d. d.log_size) claims.old)
        (opened_values random.now)) }
    ensures stands { IfErr result (HidingFaults num_random_codewords num_queries EF.DIMENSION
        preprocessing (claims_of (λ d. d.log_size) claims.old) (opened_values random.now)) }
{
    for i in 0..claims.len() {
        let expected = claims[i].matrices.len();
        let got = random[i].len();
        if got != expected {
            return Err(FriError::HidingRandomOpeningMatrixCountMismatch {
                round: i,
                expected,
                got,
            });
        }
        let count = expected_count(num_random_codewords, preprocessing, i);
        match append_at_round(&mut claims[i], random[i].as_slice(), num_queries, count, i) {
            Ok(()) => {},
            Err(refusal) => return Err(refusal),
        }
    }
    Ok(())
}

/// Appends the random values of a proof to the claims, point by point and in place: the values
/// nest as the claims do, with one for each random codeword at each point, and none in the
/// preprocessed commitment, if the index names one. A matrix's mask, half as high as its domain is
/// large, meets the hiding budget for the points at which the matrix is claimed.
///
/// # Errors
///
/// A refusal names a fault of the claims or of the random values: of the index, of the number of
/// random codewords, of a number of commitments, matrices, points or values, or of a budget. It is
/// `OutOfMemory` where memory is refused. After a refusal some values may have been appended.
pub fn append_random_values<F: TwoAdicField, EF: ExtensionField<F>, Com, A, B>(
    claims: &mut [CommitmentOpening<EF, Com, TwoAdicMultiplicativeCoset<F>>],
    random: &[Vec<Vec<Vec<EF>>>],
    num_random_codewords: usize,
    num_queries: usize,
    preprocessing: Option<usize>,
) -> Result<(), FriError<A, B>>
    ensures exactly { result ≢ Err OutOfMemory → (IsOk result ↔ MayAppend num_random_codewords
        num_queries EF.DIMENSION preprocessing (claims_of (λ d. d.log_size) claims.old)
        (opened_values random.now)) }
    ensures appended { OnOk result (claims_of (λ d. d.log_size) claims.new
        ≡ with_random_values (claims_of (λ d. d.log_size) claims.old)
        (opened_values random.now)) }
    ensures stands { IfErr result (HidingFaults num_random_codewords num_queries EF.DIMENSION
        preprocessing (claims_of (λ d. d.log_size) claims.old) (opened_values random.now)) }
{
    if let Some(index) = preprocessing {
        if index >= claims.len() {
            return Err(FriError::HidingPreprocessedCommitmentOutOfBounds {
                index,
                num_rounds: claims.len(),
            });
        }
    }
    if num_random_codewords < EF::DIMENSION {
        return Err(FriError::InsufficientHidingRandomCodewords {
            required: EF::DIMENSION,
            got: num_random_codewords,
        });
    }
    if random.len() != claims.len() {
        return Err(FriError::HidingRandomOpeningRoundCountMismatch {
            expected: claims.len(),
            got: random.len(),
        });
    }
    append_at_rounds(
        claims,
        random,
        num_random_codewords,
        num_queries,
        preprocessing,
    )
}
