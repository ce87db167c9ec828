//! The quotients of a matrix by all points at which it is opened.

ghost use Rattle.std.specs.Prelude.{◌≡◌, ◌≤◌, ◌<◌, ◌+◌, ◌*◌, ◌++◌, ℕ, List, [], All, IsOk, IfOk};
ghost use Rattle.std.specs.Prelude.{length, map};
ghost use Rattle.std.specs.Int.{IsPowerOfTwo};
ghost use Rattle.std.specs.Prelude.{slice_index_or, vec_len};
ghost use Rattle.algebra.specs.Field.{pow};
ghost use Rattle.algebra.specs.Polynomial.{val};
ghost use Rattle.algebra.specs.Nested.{lists};
ghost use Rattle.p3_matrix.specs.Matrix.{rows, matrix_width};
ghost use Rattle.p3_fri_openings.specs.Log2.{log2};
ghost use Rattle.p3_fri_openings.specs.Denominators.{AreInverses, IsCovered};
ghost use Rattle.p3_pcs.specs.Claims.{point_claims};
ghost use Rattle.p3_fri_batch.specs.Words.{point_of_entry, terms_at};

use crate::compression::{add_quotients, compress};
use crate::opened::OpenedMatrix;
use p3_field_core::{ExtensionField, TwoAdicField};
use p3_fri_openings::{PointDenominators, inverses_at};
use p3_fri_relation::Ladder;
use p3_fri_relation::setting::ChallengeField;
use std::alloc::{AllocError, Global};

/// Adds to each entry of a word over the evaluation coset of its size the quotients of an opened
/// matrix's row there, point by point and column by column: `compressed` has the rows' sums. `step`
/// is the power of the ladder's element at which they begin; the answer is the one after them.
pub fn add_opened_points<F: TwoAdicField, EF: ExtensionField<F>>(
    word: &mut [EF],
    step: EF,
    ladder: &Ladder<EF>,
    table: &[PointDenominators<EF>],
    opened: &OpenedMatrix<'_, F, EF>,
    compressed: &[EF],
) -> EF
    requires height { IsPowerOfTwo (length word.old) }
    requires compressed { length compressed.now ≡ length word.old }
    requires ladder { matrix_width opened.now.matrix.now ≤ vec_len ladder.now.powers }
    requires counts { length opened.now.values.now ≡ length opened.now.points.now }
    requires widths { All (λ ys. length ys ≡ matrix_width opened.now.matrix.now)
        (lists opened.now.values.now) }
    requires inverses { All (AreInverses ⟦<EF as ChallengeField<F>>⟧.fields) table.now }
    requires covered { All (IsCovered (length word.old) table.now) opened.now.points.now }
    ensures sums { (i : ℕ) (d : EF) (row ts : List EF) → i < length word.old
        → length row ≡ matrix_width opened.now.matrix.now
        → slice_index_or compressed.now i d ≡ val EF.ops row ladder.now.alpha
        → step ≡ pow EF.ops ladder.now.alpha (length ts)
        → slice_index_or word.old i d ≡ val EF.ops ts ladder.now.alpha
        → slice_index_or word.new i d ≡ val EF.ops (ts
        ++ terms_at EF.ops
        (point_of_entry ⟦<EF as ChallengeField<F>>⟧.fields (log2 (length word.old)) i) row
        (point_claims opened.now.points.now (lists opened.now.values.now))) ladder.now.alpha }
    ensures step { (n : ℕ) → step ≡ pow EF.ops ladder.now.alpha n
        → result ≡ pow EF.ops ladder.now.alpha
        (n + length opened.now.points.now * matrix_width opened.now.matrix.now) }
{
    let mut step = step;
    let width = opened.matrix.width();
    let after = ladder.step(width);
    let height = word.len();
    let points = opened.points;
    let values = opened.values;
    for point in 0..points.len() {
        let claimed = ladder.combine(&values[point]);
        let inverses = inverses_at::<F, EF>(table, points[point], height);
        add_quotients(word, step, claimed, compressed, inverses);
        step = step * after;
    }
    step
}

/// Adds to the word, which is as long as the opened matrix is high, the quotients of the matrix's
/// rows: it is compressed once, for all points. `step` is the power of the ladder's element at
/// which they begin; the answer is the one after them.
pub fn add_matrix<F: TwoAdicField, EF: ExtensionField<F>>(
    alloc: Global,
    word: &mut [EF],
    step: EF,
    ladder: &Ladder<EF>,
    table: &[PointDenominators<EF>],
    opened: &OpenedMatrix<'_, F, EF>,
) -> Result<EF, AllocError>
    requires height { length word.old ≡ length (rows opened.now.matrix.now) }
    requires power_of_two { IsPowerOfTwo (length word.old) }
    requires ladder { matrix_width opened.now.matrix.now ≤ vec_len ladder.now.powers }
    requires counts { length opened.now.values.now ≡ length opened.now.points.now }
    requires widths { All (λ ys. length ys ≡ matrix_width opened.now.matrix.now)
        (lists opened.now.values.now) }
    requires inverses { All (AreInverses ⟦<EF as ChallengeField<F>>⟧.fields) table.now }
    requires covered { All (IsCovered (length word.old) table.now) opened.now.points.now }
    ensures sums { IsOk result → (i : ℕ) (d : EF) (ts : List EF) → i < length word.old
        → step ≡ pow EF.ops ladder.now.alpha (length ts)
        → slice_index_or word.old i d ≡ val EF.ops ts ladder.now.alpha
        → slice_index_or word.new i d ≡ val EF.ops (ts
        ++ terms_at EF.ops
        (point_of_entry ⟦<EF as ChallengeField<F>>⟧.fields (log2 (length word.old)) i)
        (map EF.lift (slice_index_or (rows opened.now.matrix.now) i []))
        (point_claims opened.now.points.now (lists opened.now.values.now))) ladder.now.alpha }
    ensures step { (n : ℕ) → step ≡ pow EF.ops ladder.now.alpha n → IfOk result (λ after.
        after ≡ pow EF.ops ladder.now.alpha
        (n + length opened.now.points.now * matrix_width opened.now.matrix.now)) }
{
    let compressed = compress(alloc, ladder, opened.matrix)?;
    Ok(add_opened_points(word, step, ladder, table, opened, &compressed))
}
