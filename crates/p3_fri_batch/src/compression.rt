//! Matrices compressed to one column, and its quotients by a point.

ghost use Rattle.std.specs.Prelude.{◌≡◌, ◌≤◌, ◌<◌, ℕ, IfOk, length, map, slice_index_or, vec_len};
ghost use Rattle.algebra.specs.Field.{sub};
ghost use Rattle.algebra.specs.Polynomial.{val};
ghost use Rattle.p3_matrix.specs.Matrix.{rows, matrix_width};

use p3_field_core::{ExtensionField, Field};
use p3_fri_relation::{Ladder, combine_row};
use p3_matrix::RowMajorMatrix;
use std::alloc::{AllocError, Global};

/// For each row the sum of its entries times the powers of the ladder's element.
pub fn compress<F: Field, EF: ExtensionField<F>>(
    alloc: Global,
    ladder: &Ladder<EF>,
    matrix: &RowMajorMatrix<F>,
) -> Result<Vec<EF>, AllocError>
    requires { matrix_width matrix.now ≤ vec_len ladder.now.powers }
    ensures { IfOk result (λ compressed. compressed.items
        ≡ map (λ row. val EF.ops (map EF.lift row) ladder.now.alpha) (rows matrix.now)) }
{
    let height = matrix.height();
    let mut compressed = Vec::with_capacity(alloc, height)?;
    for i in 0..height {
        compressed.push(combine_row(ladder, matrix.row(i)))?;
    }
    Ok(compressed)
}

/// Adds to each entry of the word the quotient of the claimed value and the compressed row's.
fn add_plain_quotients<EF: Field>(word: &mut [EF], claimed: EF, compressed: &[EF], inverses: &[EF])
    requires compressed { length compressed.now ≡ length word.old }
    requires inverses { length inverses.now ≡ length word.old }
    ensures { (i : ℕ) (d : EF) → i < length word.old → slice_index_or word.new i d
        ≡ EF.ops.add (slice_index_or word.old i d) (EF.ops.mul
        (sub EF.ops claimed (slice_index_or compressed.now i d))
        (slice_index_or inverses.now i d)) }
{
    for i in 0..word.len() {
        word[i] = word[i] + (claimed - compressed[i]) * inverses[i];
    }
}

/// The same, times `step`.
fn add_scaled_quotients<EF: Field>(
    word: &mut [EF],
    step: EF,
    claimed: EF,
    compressed: &[EF],
    inverses: &[EF],
)
    requires compressed { length compressed.now ≡ length word.old }
    requires inverses { length inverses.now ≡ length word.old }
    ensures { (i : ℕ) (d : EF) → i < length word.old → slice_index_or word.new i d
        ≡ EF.ops.add (slice_index_or word.old i d) (EF.ops.mul step (EF.ops.mul
        (sub EF.ops claimed (slice_index_or compressed.now i d))
        (slice_index_or inverses.now i d))) }
{
    for i in 0..word.len() {
        word[i] = word[i] + step * ((claimed - compressed[i]) * inverses[i]);
    }
}

/// Adds to each entry of the word the quotient of the claimed value and the compressed row's, times
/// `step`, which is often one.
pub(crate) fn add_quotients<EF: Field>(
    word: &mut [EF],
    step: EF,
    claimed: EF,
    compressed: &[EF],
    inverses: &[EF],
)
    requires compressed { length compressed.now ≡ length word.old }
    requires inverses { length inverses.now ≡ length word.old }
    ensures { (i : ℕ) (d : EF) → i < length word.old → slice_index_or word.new i d
        ≡ EF.ops.add (slice_index_or word.old i d) (EF.ops.mul step (EF.ops.mul
        (sub EF.ops claimed (slice_index_or compressed.now i d))
        (slice_index_or inverses.now i d))) }
{
    if step == EF::ONE {
        add_plain_quotients(word, claimed, compressed, inverses);
    } else {
        add_scaled_quotients(word, step, claimed, compressed, inverses);
    }
}
