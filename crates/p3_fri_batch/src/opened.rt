//! The matrices of all rounds, each with its points and the values there.

ghost use Rattle.std.specs.Prelude.{◌≡◌, ◌≤◌, ◌==◌, ◌++◌, List, All, IfOk, map};
ghost use Rattle.std.specs.List.{AllZip};
ghost use Rattle.algebra.specs.Nested.{nested};
ghost use Rattle.p3_matrix.specs.Matrix.{matrix_width};
ghost use Rattle.p3_pcs.specs.Claims.{opened_values};
ghost use Rattle.p3_fri_openings.specs.Denominators.{ArePointsCovered};
ghost use Rattle.p3_fri_openings.specs.declared.denominators.PointDenominators.{PointDenominators};
ghost use Rattle.p3_fri_openings.specs.Rounds.{HasCoset, IsRound, log_height};
ghost use Rattle.p3_fri_batch.specs.Heights.{has_height};
ghost use Rattle.p3_fri_batch.specs.Rounds.{HaveValues, IsReady};
ghost use Rattle.p3_fri_batch.specs.Rounds.{as_opened, opened_in, opened_of};

use p3_field_core::{ExtensionField, TwoAdicField, log2_strict_usize};
use p3_fri_openings::OpeningRound;
use p3_matrix::RowMajorMatrix;
use std::alloc::{AllocError, Global};

/// A committed matrix, the points at which it is opened, and for each the value of each column.
#[derive(Drop)]
pub struct OpenedMatrix<'a, F, EF> {
    pub matrix: &'a RowMajorMatrix<F>,
    pub points: &'a [EF],
    pub values: &'a [Vec<EF>],
}

/// Adds the matrices of a round.
fn push_round<'a, F: TwoAdicField, EF: ExtensionField<F>>(
    opened: &mut Vec<OpenedMatrix<'a, F, EF>>,
    round: &OpeningRound<'a, F, EF>,
    values: &'a [Vec<Vec<EF>>],
) -> Result<(), AllocError>
    requires round { IsRound F.TWO_ADICITY round.now }
    requires values { HaveValues round.now (nested values.now) }
    ensures opened { IfOk result (λ _. map as_opened opened.new.items
        ≡ map as_opened opened.old.items ++ opened_in round.now (nested values.now)) }
    ensures ready { IfOk result (λ _. (table : List (PointDenominators EF))
        → ArePointsCovered table round.now → All (IsReady F.TWO_ADICITY table) opened.old.items
        → All (IsReady F.TWO_ADICITY table) opened.new.items) }
{
    for index in 0..round.matrices.len() {
        opened.push(OpenedMatrix {
            matrix: &round.matrices[index],
            points: round.points[index].as_slice(),
            values: values[index].as_slice(),
        })?;
    }
    Ok(())
}

/// The matrices of all rounds, in order.
pub(crate) fn opened_matrices<'a, F: TwoAdicField, EF: ExtensionField<F>>(
    alloc: Global,
    rounds: &[OpeningRound<'a, F, EF>],
    values: &'a [Vec<Vec<Vec<EF>>>],
) -> Result<Vec<OpenedMatrix<'a, F, EF>>, AllocError>
    requires rounds { All (IsRound F.TWO_ADICITY) rounds.now }
    requires values { AllZip HaveValues rounds.now (opened_values values.now) }
    ensures opened { IfOk result (λ matrices. map as_opened matrices.items
        ≡ opened_of rounds.now (opened_values values.now)) }
    ensures ready { IfOk result (λ matrices. (table : List (PointDenominators EF))
        → All (ArePointsCovered table) rounds.now
        → All (IsReady F.TWO_ADICITY table) matrices.items) }
{
    let mut opened = Vec::new(alloc);
    for index in 0..rounds.len() {
        push_round(&mut opened, &rounds[index], &values[index])?;
    }
    Ok(opened)
}

/// The number of columns of the widest of these matrices, 0 if there is none.
pub(crate) fn greatest_width<F: TwoAdicField, EF: ExtensionField<F>>(
    matrices: &[OpenedMatrix<'_, F, EF>],
) -> usize
    ensures { All (λ m. matrix_width m.matrix.now ≤ result) matrices.now }
{
    let mut greatest = 0;
    for opened in matrices {
        greatest = opened.matrix.width().max(greatest);
    }
    greatest
}

/// Whether this is the matrix's log height.
pub(crate) fn is_of_log_height<F: TwoAdicField>(matrix: &RowMajorMatrix<F>, wanted: usize) -> bool
    requires coset { HasCoset F.TWO_ADICITY matrix.now }
    ensures { result ≡ (log_height matrix.now == wanted) }
{
    log2_strict_usize(matrix.height()) == wanted
}

/// Whether some of these matrices has this log height.
pub(crate) fn has_log_height<F: TwoAdicField, EF: ExtensionField<F>>(
    matrices: &[OpenedMatrix<'_, F, EF>],
    log_height: usize,
) -> bool
    requires cosets { All (λ m. HasCoset F.TWO_ADICITY m.matrix.now) matrices.now }
    ensures { result ≡ has_height (map as_opened matrices.now) log_height }
{
    for opened in matrices {
        if is_of_log_height(opened.matrix, log_height) {
            return true;
        }
    }
    false
}
