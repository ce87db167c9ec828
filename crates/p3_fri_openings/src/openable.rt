//! The test of what an opening asks of its requests.

ghost use Rattle.std.specs.Prelude.{◌≡◌, ◌≢◌, ◌↔◌, [], All, IsTrue, length, map};
ghost use Rattle.std.specs.List.{flat_map};
ghost use Rattle.p3_matrix.specs.declared.dense.RowMajorMatrix.{RowMajorMatrix};
ghost use Rattle.p3_pcs.specs.Requests.{Held, AreOpenable, request};
ghost use Rattle.p3_fri_openings.specs.Rounds.{HasCoset};
ghost use Rattle.p3_fri_openings.specs.Openable.{MayBeOpened};

use p3_field_core::{TwoAdicField, log2_strict_usize};
use p3_matrix::RowMajorMatrix;
use p3_mmcs::Mmcs;
use p3_pcs::OpeningRequest;

/// Whether the field has a coset on which the matrix stands.
fn has_coset<F: TwoAdicField>(matrix: &RowMajorMatrix<F>) -> bool
    ensures { IsTrue result ↔ HasCoset F.TWO_ADICITY matrix.now }
{
    let height = matrix.height();
    if !height.is_power_of_two() {
        return false;
    }
    log2_strict_usize(height) <= F::TWO_ADICITY
}

/// Whether it has one for each.
fn have_cosets<F: TwoAdicField>(matrices: &[RowMajorMatrix<F>]) -> bool
    ensures { IsTrue result ↔ All (HasCoset F.TWO_ADICITY) matrices.now }
{
    for matrix in matrices {
        if !has_coset(matrix) {
            return false;
        }
    }
    true
}

/// Whether each datum's matrices stand on cosets.
fn stand_on_cosets<F: TwoAdicField, EF: Copy, M: Mmcs<F>>(
    mmcs: &M,
    requests: &[OpeningRequest<'_, M::ProverData, EF>],
) -> bool
    ensures { IsTrue result ↔ All (λ r. All (HasCoset F.TWO_ADICITY)
        (M.committed r.prover_data.now)) requests.now }
{
    for request in requests {
        if !have_cosets(mmcs.get_matrices(&*request.prover_data)) {
            return false;
        }
    }
    true
}

/// Whether there is a list of points for each matrix.
fn have_points<F: TwoAdicField, EF: Copy, M: Mmcs<F>>(
    mmcs: &M,
    requests: &[OpeningRequest<'_, M::ProverData, EF>],
) -> bool
    ensures { IsTrue result ↔ All (λ r. length r.points.items
        ≡ length (M.committed r.prover_data.now)) requests.now }
{
    for request in requests {
        if request.points.len() != mmcs.get_matrices(&*request.prover_data).len() {
            return false;
        }
    }
    true
}

/// Whether there is some matrix.
fn have_matrix<F: TwoAdicField, EF: Copy, M: Mmcs<F>>(
    mmcs: &M,
    requests: &[OpeningRequest<'_, M::ProverData, EF>],
) -> bool
    ensures { IsTrue result ↔ (flat_map (λ r. M.committed r.prover_data.now) requests.now ≢ []) }
{
    for request in requests {
        if mmcs.get_matrices(&*request.prover_data).len() != 0 {
            return true;
        }
    }
    false
}

/// Whether the requests may be opened: each matrix has a list of points and stands on a coset of
/// the field, and there is some matrix. So an opening's condition holds, whatever of a matrix is
/// held. Data of `commit` and `commit_ldes` stands on cosets.
pub fn are_openable<F: TwoAdicField, EF: Copy, M: Mmcs<F>>(
    mmcs: &M,
    requests: &[OpeningRequest<'_, M::ProverData, EF>],
) -> bool
    ensures exactly { IsTrue result
        ↔ MayBeOpened (HasCoset F.TWO_ADICITY) M.committed requests.now }
    ensures openable { IsTrue result → (held : RowMajorMatrix F → Held EF)
        → AreOpenable (λ d. All (HasCoset F.TWO_ADICITY) (M.committed d))
        (λ d. map held (M.committed d)) (map request requests.now) }
{
    if !stand_on_cosets::<F, EF, M>(mmcs, requests) {
        return false;
    }
    if !have_points::<F, EF, M>(mmcs, requests) {
        return false;
    }
    have_matrix::<F, EF, M>(mmcs, requests)
}
