//! Laws as calls that give nothing and whose contracts are theorems over the definitions.

ghost use Rattle.std.specs.Prelude.{◌≡◌, ◌+◌, ◌<◌, ◌≤◌, ◌^◌, length};
ghost use Rattle.algebra.specs.Folds.{IsFoldOfBinaryFolds};

use p3_field_core::{ExtensionField, TwoAdicField};

/// The fold of a row of `2^log_arity` values is what `log_arity` folds by two leave, pair by pair,
/// at `beta`, `beta^2`, `beta^4` and so on.
pub fn binary_folds_law<F: TwoAdicField, EF: ExtensionField<F>>(
    index: usize,
    log_height: usize,
    log_arity: usize,
    beta: EF,
    row: &[EF],
)
    requires width { length row.now ≡ 2 ^ log_arity }
    requires within_word { index < 2 ^ log_height }
    requires within_two_adicity { log_height + log_arity ≤ F.TWO_ADICITY }
    ensures { IsFoldOfBinaryFolds EF.ops (λ k. EF.lift (F.root k)) index log_height log_arity beta
        row.now }
{}
