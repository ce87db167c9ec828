//! Commitments to preprocessed columns.

ghost use Rattle.std.specs.Prelude.{◌≡◌, ◌<◌, ◌≤◌, ◌+◌, ◌^◌, ◌↔◌, [], ◌∷◌, All};
ghost use Rattle.std.specs.Prelude.{IsTrue, IfOk, IfErr, length};
ghost use Rattle.algebra.specs.Nested.{lists};
ghost use Rattle.p3_matrix.specs.Matrix.{rows as matrix_rows, matrix_width};
ghost use Rattle.p3_uni_stark_verifier.specs.Chunks.{hiding_bits};
ghost use Rattle.p3_uni_stark_system.specs.Keys.{AreHeld, MatrixFault, ColumnsFault};
ghost use Rattle.p3_uni_stark_system.specs.Keys.{IsKeyOfNumbers, PreprocessingFault};

use crate::error::PreprocessingError;
use p3_air_plain::{Part, rows_from_plain};
use p3_field_core::{
    ExtensionField, PrimeField64, TwoAdicField, TwoAdicMultiplicativeCoset, log2_strict_usize,
};
use p3_matrix::RowMajorMatrix;
use p3_uni_stark_pcs::TwoAdicStarkPcs;
use p3_uni_stark_statement::{have_width, matrix_of_rows};
use p3_uni_stark_verifier::PreprocessedVerifierKey;
use p3_uni_stark_verifier::chunks::with_hiding;
use p3_uni_stark_verifier::opened::subgroup;
use std::alloc::{AllocError, Global};

/// A commitment to preprocessed columns: the key that a verifier has, and the data for a prover.
/// Where there are no such columns there is neither.
#[derive(Drop)]
pub struct Preprocessed<Com, D> {
    pub key: Option<PreprocessedVerifierKey<Com>>,
    pub prover_data: Option<D>,
}

/// A list of one.
fn one<T: Drop>(alloc: Global, value: T) -> Result<Vec<T>, AllocError>
    ensures { IfOk result (λ all. all.items ≡ value ∷ []) }
{
    let mut all = Vec::with_capacity(alloc, 1)?;
    all.push(value)?;
    Ok(all)
}

/// Commits to the columns of a matrix of `2^log_height` rows.
fn commit_matrix<
    F: TwoAdicField + PrimeField64,
    EF: ExtensionField<F>,
    Com: Copy,
    C,
    P: TwoAdicStarkPcs<EF, C, TwoAdicMultiplicativeCoset<F>, Commitment = Com>,
>(
    scheme: &mut P,
    alloc: Global,
    matrix: RowMajorMatrix<F>,
    log_height: usize,
) -> Result<Preprocessed<Com, P::ProverData>, PreprocessingError<P::ProverError>>
    requires height { length (matrix_rows matrix) ≡ 2 ^ log_height }
    requires width { 0 < matrix_width matrix }
    requires room { log_height + hiding_bits P.ZK + P.log_blowup scheme.old ≤ F.TWO_ADICITY }
    ensures kept { P.Keeps scheme.old scheme.new }
    ensures held { IfOk result (λ p. AreHeld (P.rules scheme.new) P.ZK
        (λ k d. (d.shift ≡ F.ONE) × (d.log_size ≡ k)) (P.stark_rules scheme.new) log_height
        (matrix_width matrix) (matrix_rows matrix) p.key p.prover_data) }
    ensures refused { IfErr result (MatrixFault (P.stark_rules scheme.old) P.ZK
        (λ k d. (d.shift ≡ F.ONE) × (d.log_size ≡ k)) log_height matrix) }
{
    let hides = P::ZK;
    let domain = subgroup::<F>(with_hiding(log_height, hides));
    let evaluations = one(alloc, (domain, matrix))?;
    match scheme.commit_preprocessing(alloc, evaluations) {
        Ok((commitment, prover_data)) => Ok(Preprocessed {
            key: Some(PreprocessedVerifierKey {
                commitment,
                log_height,
            }),
            prover_data: Some(prover_data),
        }),
        Err(error) => Err(PreprocessingError::Refused(error)),
    }
}

/// Commits to the preprocessed columns of these rows, `2^log_height` of them, if there are any
/// columns.
pub(crate) fn commit_rows<
    F: TwoAdicField + PrimeField64,
    EF: ExtensionField<F>,
    Com: Copy,
    C,
    P: TwoAdicStarkPcs<EF, C, TwoAdicMultiplicativeCoset<F>, Commitment = Com>,
>(
    scheme: &mut P,
    alloc: Global,
    rows: &[Vec<F>],
    width: usize,
    log_height: usize,
) -> Result<Preprocessed<Com, P::ProverData>, PreprocessingError<P::ProverError>>
    requires widths { All (λ row. length row ≡ width) (lists rows.now) }
    requires height { 0 < width → length (lists rows.now) ≡ 2 ^ log_height }
    requires room { log_height + hiding_bits P.ZK + P.log_blowup scheme.old ≤ F.TWO_ADICITY }
    ensures kept { P.Keeps scheme.old scheme.new }
    ensures held { IfOk result (λ p. AreHeld (P.rules scheme.new) P.ZK
        (λ k d. (d.shift ≡ F.ONE) × (d.log_size ≡ k)) (P.stark_rules scheme.new) log_height
        width (lists rows.now) p.key p.prover_data) }
    ensures refused { IfErr result (ColumnsFault (P.stark_rules scheme.old) P.ZK
        (λ k d. (d.shift ≡ F.ONE) × (d.log_size ≡ k)) log_height (lists rows.now)) }
{
    if width == 0 {
        return Ok(Preprocessed {
            key: None,
            prover_data: None,
        });
    }
    let matrix = matrix_of_rows(alloc, rows, width)?;
    commit_matrix::<F, EF, Com, C, P>(scheme, alloc, matrix, log_height)
}

/// Whether both logarithms together are at most so large.
fn has_room(log_rows: usize, log_blowup: usize, most: usize) -> bool
    ensures { IsTrue result ↔ (log_rows + log_blowup ≤ most) }
{
    log_rows <= most && log_blowup <= most - log_rows
}

/// Commits to the preprocessed columns of rows of numbers, each as wide as there are columns, and
/// returns their key. The number of rows is a power of two that has room in the field, with the
/// scheme's blowup. Without columns there is no key.
pub fn commit_numbers<
    F: TwoAdicField + PrimeField64,
    EF: ExtensionField<F>,
    Com: Copy,
    C,
    P: TwoAdicStarkPcs<EF, C, TwoAdicMultiplicativeCoset<F>, Commitment = Com>,
>(
    scheme: &mut P,
    alloc: Global,
    numbers: &[Vec<u64>],
    width: usize,
) -> Result<Option<PreprocessedVerifierKey<Com>>, PreprocessingError<P::ProverError>>
    ensures kept { P.Keeps scheme.old scheme.new }
    ensures key { IfOk result (IsKeyOfNumbers (P.rules scheme.new) P.ZK
        (λ k d. (d.shift ≡ F.ONE) × (d.log_size ≡ k)) F.canonical width (lists numbers.now)) }
    ensures refused { IfErr result (PreprocessingFault (P.stark_rules scheme.old) P.ZK
        (λ k d. (d.shift ≡ F.ONE) × (d.log_size ≡ k)) F.ORDER_U64 F.TWO_ADICITY
        (P.log_blowup scheme.old) F.canonical width (lists numbers.now)) }
{
    if !have_width(numbers, width) {
        return Err(PreprocessingError::Width);
    }
    let rows = match rows_from_plain::<F>(alloc, numbers, Part::Preprocessed) {
        Ok(rows) => rows,
        Err(fault) => return Err(PreprocessingError::Element(fault)),
    };
    if width == 0 {
        return Ok(None);
    }
    if !numbers.len().is_power_of_two() {
        return Err(PreprocessingError::Height);
    }
    let log_height = log2_strict_usize(numbers.len());
    let log_blowup = scheme.log_blowup();
    if !has_room(with_hiding(log_height, P::ZK), log_blowup, F::TWO_ADICITY) {
        return Err(PreprocessingError::Height);
    }
    let matrix = matrix_of_rows(alloc, rows.as_slice(), width)?;
    match commit_matrix::<F, EF, Com, C, P>(scheme, alloc, matrix, log_height) {
        Ok(committed) => Ok(committed.key),
        Err(error) => Err(error),
    }
}
