//! What the rows of a matrix are folded by.

ghost use Rattle.std.specs.Prelude.{◌≡◌, ◌+◌, ◌-◌, ◌*◌, ◌<◌, ◌≤◌, ◌^◌, ℕ, length};
ghost use Rattle.std.specs.Prelude.{slice_index_or, IfOk};
ghost use Rattle.algebra.specs.Folds.{fold_value, IsHalfInverse};

use crate::challenges::Challenges;
use crate::folding::{fold_halves, half_inverses, root_inverse};
use p3_field_core::{ExtensionField, TwoAdicField};
use std::alloc::{AllocError, Global};

/// The challenges of the rounds in which each of `2^log_height` rows of `2^log_arity` values is
/// folded, and where the rows start: half the inverse of the first point of each row's first pair,
/// and the inverse of the root whose order is the rows' length.
#[derive(Drop)]
pub struct FoldTable<F: TwoAdicField, EF: ExtensionField<F>> {
    log_height: usize,
    log_arity: usize,
    halves: Vec<F>,
    root_inverse: F,
    challenges: Challenges<EF>,
    ghost positive: { 1 ≤ log_arity },
    ghost within_two_adicity: { log_height + log_arity ≤ F.TWO_ADICITY },
    ghost rounds: { challenges.rounds ≡ log_arity },
    ghost count: { length halves.items ≡ 2 ^ log_height },
    ghost first_pairs: { (i : ℕ) (d : F) → i < 2 ^ log_height →
        IsHalfInverse F.ops F.root (i * 2 ^ (log_arity - 1)) (log_height + (log_arity - 1))
        (slice_index_or halves.items i d) },
    ghost inverse: { F.ops.mul (F.root log_arity) root_inverse ≡ F.ops.one },
}

impl<F: TwoAdicField, EF: ExtensionField<F>> FoldTable<F, EF> {
    /// The table of a fold at `beta`.
    pub fn new(
        alloc: Global,
        log_height: usize,
        log_arity: usize,
        beta: EF,
    ) -> Result<Self, AllocError>
        requires positive { 1 ≤ log_arity }
        requires within_two_adicity { log_height + log_arity ≤ F.TWO_ADICITY }
        ensures log_height { IfOk result (λ table. table.log_height ≡ log_height) }
        ensures log_arity { IfOk result (λ table. table.log_arity ≡ log_arity) }
        ensures beta { IfOk result (λ table. table.challenges.beta ≡ beta) }
    {
        let root = F::two_adic_generator(log_height + log_arity);
        Ok(Self {
            log_height,
            log_arity,
            halves: half_inverses(alloc, root, log_height, log_arity)?,
            root_inverse: root_inverse(root, log_height, log_arity),
            challenges: Challenges::new(beta, log_arity),
        })
    }

    /// The fold of the row at `index`.
    pub fn fold_row(&self, index: usize, row: &[EF]) -> EF
        requires within_word { index < 2 ^ self.now.log_height }
        requires width { length row.now ≡ 2 ^ self.now.log_arity }
        ensures { result ≡ fold_value EF.ops (λ k. EF.lift (F.root k)) index
            self.now.log_height self.now.log_arity self.now.challenges.beta row.now }
    {
        let (fold, _) = fold_halves::<F, EF>(
            row,
            self.log_arity,
            self.halves[index],
            self.root_inverse,
            &self.challenges,
        );
        fold
    }
}
