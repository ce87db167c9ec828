//! The fold of rows over two-adic domains.

ghost use Rattle.std.specs.Prelude.{◌≡◌, ◌+◌, ◌*◌, ◌<◌, ◌≤◌, ◌^◌, ℕ, suc, [], ◌∷◌, length, IfOk};
ghost use Rattle.algebra.specs.Folds.{fold_value, IsHalfInverse};
ghost use Rattle.algebra.proofs.FoldedWords.{two_adic_lowers_degrees};
ghost use Rattle.p3_fri_folding.specs.Rows.{StartsRow, AreFirstHalfInverses};

use crate::challenges::Challenges;
use crate::strategy::FriFoldingStrategy;
use crate::table::FoldTable;
use p3_field_core::{
    ExtensionField, Field, TwoAdicField, bit_reversed_powers, log2_strict_usize, reverse_bits_len,
};
use p3_matrix::RowMajorMatrix;
use std::alloc::{AllocError, Global};
use std::marker::PhantomData;

/// Folding over the two-adic domains of a field, in bit-reversed order. The parameters name the
/// proof and the error of the input openings that the protocol around it has.
#[derive(Drop)]
pub struct TwoAdicFriFolding<InputProof, InputError>(pub PhantomData<(InputProof, InputError)>);

/// The fold of a row is the value at the challenge of the one polynomial with as many coefficients
/// that has the row's values at the row's points (the folding step of FRI, ICALP 2018). For two
/// values `y0` and `y1` at the points `s` and `-s` that is `(y0 + y1) / 2 + (y0 - y1) * beta / (2
/// s)`.
///
/// A row is that of a word in bit-reversed order: row `index` holds the neighbours from `index *
/// 2^log_arity` on.
impl<F: TwoAdicField, EF: ExtensionField<F>, InputProof, InputError> FriFoldingStrategy<F, EF>
    for TwoAdicFriFolding<InputProof, InputError> {
    type InputProof = InputProof;

    type InputError = InputError;

    ghost extra_query_index_bits = { λ _. 0 };

    ghost max_log_height = { λ _. F.TWO_ADICITY };

    ghost row_fold = { λ _. fold_value EF.ops (λ k. EF.lift (F.root k)) };

    fn extra_query_index_bits(&self) -> usize {
        0
    }

    fn max_log_height(&self) -> usize {
        F::TWO_ADICITY
    }

    fn fold_row(
        &self,
        index: usize,
        log_height: usize,
        log_arity: usize,
        beta: EF,
        row: &[EF],
    ) -> EF {
        let challenges = Challenges::new(beta, log_arity);
        let root = F::two_adic_generator(log_height + log_arity);
        let half_inverse = half_inverse(root, index, log_height, log_arity);
        let root_inverse = root_inverse(root, log_height, log_arity);
        let (fold, _) = fold_halves::<F, EF>(
            row,
            log_arity,
            half_inverse,
            root_inverse,
            &challenges,
        );
        fold
    }

    fn fold_matrix(
        &self,
        alloc: Global,
        beta: EF,
        log_arity: usize,
        matrix: &RowMajorMatrix<EF>,
    ) -> Result<Vec<EF>, AllocError> {
        let log_height = log2_strict_usize(matrix.height());
        let table = FoldTable::<F, EF>::new(alloc, log_height, log_arity, beta)?;
        let mut word = Vec::with_capacity(alloc, matrix.height())?;
        for i in 0..matrix.height() {
            word.push(table.fold_row(i, matrix.row(i)))?;
        }
        Ok(word)
    }

    ghost lowers_degrees = { λ _. two_adic_lowers_degrees F.ops EF.ops EF.lift F.Field.laws
        EF.Field.laws EF.lift_law F.TWO_ADICITY F.root F.roots_law };
}

/// The fold of two values at `s` and `-s`, by half the inverse of `s`.
fn fold_pair<F: TwoAdicField, EF: ExtensionField<F>>(
    half_inverse: F,
    beta: EF::Prepared,
    left: EF,
    right: EF,
) -> EF
    ensures { (i h : ℕ) → i < 2 ^ h → h < F.TWO_ADICITY →
        IsHalfInverse F.ops F.root i h half_inverse → result
        ≡ fold_value EF.ops (λ k. EF.lift (F.root k)) i h 1 (EF.factor_of beta)
        (left ∷ right ∷ []) }
{
    (left + right).halve() + (left - right).scale(half_inverse).times(beta)
}

/// The fold of a row half by half, and half the inverse of the row's point, by which the halves'
/// folds are folded.
///
/// It takes half the inverse of the first point of the row's first pair, and the inverse of the
/// root whose order is the row's length. Later layers' inverses are squares of the first's.
pub(crate) fn fold_halves<F: TwoAdicField, EF: ExtensionField<F>>(
    row: &[EF],
    log_arity: usize,
    half_inverse: F,
    root_inverse: F,
    challenges: &Challenges<EF>,
) -> (EF, F)
    requires positive { 1 ≤ log_arity }
    requires width { length row.now ≡ 2 ^ log_arity }
    requires rounds { log_arity ≤ challenges.now.rounds }
    ensures value { (i h a : ℕ) → log_arity ≡ suc a → i < 2 ^ h → h + suc a ≤ F.TWO_ADICITY →
        StartsRow F.ops F.root i h a half_inverse root_inverse → result.0
        ≡ fold_value EF.ops (λ k. EF.lift (F.root k)) i h (suc a) challenges.now.beta row.now }
    ensures half_inverse { (i h a : ℕ) → log_arity ≡ suc a → h + suc a ≤ F.TWO_ADICITY →
        StartsRow F.ops F.root i h a half_inverse root_inverse →
        IsHalfInverse F.ops F.root i h result.1 }
{
    let round = log_arity - 1;
    let beta = challenges.factor_of_round(round);
    if round == 0 {
        let fold = fold_pair::<F, EF>(half_inverse, beta, row[0], row[1]);
        return (fold, half_inverse);
    }
    let (first, second) = row.split_at(row.len() / 2);
    let square = root_inverse.square();
    let middle = half_inverse * root_inverse;
    let (left, first_half) = fold_halves::<F, EF>(first, round, half_inverse, square, challenges);
    let (right, _) = fold_halves::<F, EF>(second, round, middle, square, challenges);
    let half = first_half.double() * first_half;
    (fold_pair::<F, EF>(half, beta, left, right), half)
}

/// The inverse of the root of unity of order `2^log_arity`, from the root of order `2^(log_height +
/// log_arity)`: a power of it.
pub(crate) fn root_inverse<F: TwoAdicField>(root: F, log_height: usize, log_arity: usize) -> F
    requires positive { 1 ≤ log_arity }
    requires within_two_adicity { log_height + log_arity ≤ F.TWO_ADICITY }
    requires is_root { root ≡ F.root (log_height + log_arity) }
    ensures { F.ops.mul (F.root log_arity) result ≡ F.ops.one }
{
    if log_arity == 1 {
        return -F::ONE;
    }
    let order = 1u64 << log_arity;
    root.exp_power_of_2(log_height).exp_u64(order - 1)
}

/// Half the inverse of the first point of a row's first pair: since that point is a power of a root
/// of unity, so is its inverse.
pub(crate) fn half_inverse<F: TwoAdicField>(
    root: F,
    index: usize,
    log_height: usize,
    log_arity: usize,
) -> F
    requires positive { 1 ≤ log_arity }
    requires within_word { index < 2 ^ log_height }
    requires within_two_adicity { log_height + log_arity ≤ F.TWO_ADICITY }
    requires is_root { root ≡ F.root (log_height + log_arity) }
    ensures { (a : ℕ) → log_arity ≡ suc a →
        IsHalfInverse F.ops F.root (index * 2 ^ a) (log_height + a) result }
{
    let order = 1 << (log_height + log_arity);
    let power = order - reverse_bits_len(index, log_height);
    root.exp_u64(power as u64).halve()
}

/// Half the inverse of the first point of each row's first pair, by one inversion and running
/// products.
pub(crate) fn half_inverses<F: TwoAdicField>(
    alloc: Global,
    root: F,
    log_height: usize,
    log_arity: usize,
) -> Result<Vec<F>, AllocError>
    requires positive { 1 ≤ log_arity }
    requires within_two_adicity { log_height + log_arity ≤ F.TWO_ADICITY }
    requires is_root { root ≡ F.root (log_height + log_arity) }
    ensures { IfOk result (λ halves. (a : ℕ) → log_arity ≡ suc a →
        AreFirstHalfInverses F.ops F.root log_height a halves.items) }
{
    bit_reversed_powers(alloc, F::ONE.halve(), root.inverse(), log_height)
}
