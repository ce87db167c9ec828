//! How words are folded: the strategy that prover and verifier share.

ghost use Rattle.std.specs.Prelude.{◌≡◌, ◌+◌, ◌*◌, ◌<◌, ◌≤◌, ◌^◌, ℕ, List, length, IfOk};
ghost use Rattle.std.specs.Int.{IsPowerOfTwo};
ghost use Rattle.algebra.specs.Words.{IsWord};
ghost use Rattle.p3_matrix.specs.Matrix.{rows, matrix_width};
ghost use Rattle.algebra.specs.Folds.{LowersDegrees};
ghost use Rattle.p3_fri_folding.specs.Strategy.{folded_rows};

use p3_field_core::{ExtensionField, TwoAdicField};
use p3_matrix::RowMajorMatrix;
use std::alloc::{AllocError, Global};

/// A strategy of folding, over a two-adic field and the extension of the challenges. The commitment
/// scheme around FRI chooses it.
pub trait FriFoldingStrategy<F: TwoAdicField, EF: ExtensionField<F>> {
    /// The proof of the input openings, in the protocol around FRI.
    type InputProof;

    /// The error of the input openings.
    type InputError;

    ghost extra_query_index_bits: { Self → ℕ };

    ghost max_log_height: { Self → ℕ };

    ghost row_fold: { Self → ℕ → ℕ → ℕ → EF → List EF → EF };

    /// How many bits are drawn with each query's index and shifted off it, alike on both sides, so
    /// that a query's position is the drawn index without its lowest bits.
    fn extra_query_index_bits(&self) -> usize
        ensures { result ≡ extra_query_index_bits self.now };

    /// The greatest log height of a word that is folded.
    fn max_log_height(&self) -> usize
        ensures { result ≡ max_log_height self.now };

    /// The fold at `beta` of row `index`, of `2^log_arity` values, to a word of log height
    /// `log_height`.
    fn fold_row(
        &self,
        index: usize,
        log_height: usize,
        log_arity: usize,
        beta: EF,
        row: &[EF],
    ) -> EF
        requires positive { 1 ≤ log_arity }
        requires width { length row.now ≡ 2 ^ log_arity }
        requires within_word { index < 2 ^ log_height }
        requires within_max_height { log_height + log_arity ≤ max_log_height self.now }
        ensures { result ≡ row_fold self.now index log_height log_arity beta row.now };

    /// The fold at `beta` of each row of a matrix of `2^log_arity` columns, whose height is a power
    /// of two.
    fn fold_matrix(
        &self,
        alloc: Global,
        beta: EF,
        log_arity: usize,
        matrix: &RowMajorMatrix<EF>,
    ) -> Result<Vec<EF>, AllocError>
        requires positive { 1 ≤ log_arity }
        requires width { matrix_width matrix.now ≡ 2 ^ log_arity }
        requires power_of_two { IsPowerOfTwo (length (rows matrix.now)) }
        requires within_max_height { (log_height : ℕ) → length (rows matrix.now) ≡ 2 ^ log_height →
            log_height + log_arity ≤ max_log_height self.now }
        ensures { IfOk result (λ word.
            (log_height : ℕ) → length (rows matrix.now) ≡ 2 ^ log_height → word.items
            ≡ folded_rows (row_fold self.now) log_height log_arity beta (rows matrix.now)) };

    ghost lowers_degrees: { (strategy : Self) → LowersDegrees EF.ops (λ k. EF.lift (F.root k))
        (max_log_height strategy) (row_fold strategy) };
}

/// Another strategy, with so many extra bits drawn with each query's index.
#[derive(Drop)]
pub struct WithExtraBits<S> {
    inner: S,
    bits: usize,
    ghost within_index: { bits ≤ 63 },
}

impl<S> WithExtraBits<S> {
    /// The strategy `inner` with that many such bits, at most 63.
    pub fn new(inner: S, bits: usize) -> WithExtraBits<S>
        requires within_index { bits ≤ 63 }
        ensures inner { result.inner ≡ inner }
        ensures bits { result.bits ≡ bits }
    {
        WithExtraBits { inner, bits }
    }
}

impl<F: TwoAdicField, EF: ExtensionField<F>, S: FriFoldingStrategy<F, EF>> FriFoldingStrategy<F, EF>
    for WithExtraBits<S> {
    type InputProof = S::InputProof;

    type InputError = S::InputError;

    ghost extra_query_index_bits = { λ strategy. strategy.bits };

    ghost max_log_height = { λ strategy. S.max_log_height strategy.inner };

    ghost row_fold = { λ strategy. S.row_fold strategy.inner };

    fn extra_query_index_bits(&self) -> usize {
        self.bits
    }

    fn max_log_height(&self) -> usize {
        self.inner.max_log_height()
    }

    fn fold_row(
        &self,
        index: usize,
        log_height: usize,
        log_arity: usize,
        beta: EF,
        row: &[EF],
    ) -> EF {
        self.inner.fold_row(index, log_height, log_arity, beta, row)
    }

    fn fold_matrix(
        &self,
        alloc: Global,
        beta: EF,
        log_arity: usize,
        matrix: &RowMajorMatrix<EF>,
    ) -> Result<Vec<EF>, AllocError> {
        self.inner.fold_matrix(alloc, beta, log_arity, matrix)
    }

    ghost lowers_degrees = { λ strategy. S.lowers_degrees strategy.inner };
}
