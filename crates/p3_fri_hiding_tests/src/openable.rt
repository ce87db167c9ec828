//! Whether what was committed to may be opened or read.

ghost use Rattle.std.specs.Prelude.{◌<◌, ◌≤◌, All, IsTrue, length, slice_index_or};
ghost use Rattle.p3_matrix.specs.Matrix.{matrix_width};
ghost use Rattle.p3_mmcs.specs.ProverData.{matrices_of};
ghost use Rattle.p3_fri_hiding_openings.specs.Data.{hidden_columns};
ghost use Rattle.p3_fri_hiding_tests.specs.Openable.{IsHeld, AreFresh};

use crate::scheme::{Data, Inputs};
use p3_field::{BabyBear, BabyBear4, Field, TwoAdicMultiplicativeCoset};
use p3_fri_hiding_openings::{committed_matrices, hidden_columns};
use p3_pcs::OpeningRequest;

/// Whether the data is of so many random codewords and a blowup of 4, and each of its matrices is
/// as high as a coset is large, and has the columns that hide the others.
fn is_held(held: &Data, codewords: usize) -> bool
    ensures held { IsTrue result → IsHeld codewords held.now (matrices_of held.now.inner) }
    ensures wide { IsTrue result → All (λ m. hidden_columns codewords held.now ≤ matrix_width m)
        (matrices_of held.now.inner) }
{
    if held.num_random_codewords() != codewords || held.log_blowup() != 2 {
        return false;
    }
    let matrices = committed_matrices(&Inputs::new(), held);
    let hidden = hidden_columns(held, codewords);
    for matrix in matrices {
        let height = matrix.height();
        let log_height = height.trailing_zeros() as usize;
        let Some(coset) = TwoAdicMultiplicativeCoset::new(BabyBear::ONE, log_height) else {
            return false;
        };
        if coset.size() != height || matrix.width() < hidden {
            return false;
        }
    }
    true
}

/// Whether the requests are for all matrices of such data, the first of preprocessing or not, and
/// all else of private data that wasn't opened.
pub(crate) fn are_openable(
    requests: &[OpeningRequest<'_, Data, BabyBear4>],
    codewords: usize,
    is_first_preprocessed: bool,
) -> bool
    ensures { IsTrue result
        → AreFresh codewords is_first_preprocessed matrices_of requests.now }
{
    let mut is_preprocessed = is_first_preprocessed;
    for request in requests {
        let held = &*request.prover_data;
        let matrices = committed_matrices(&Inputs::new(), held);
        if !is_held(held, codewords) || held.is_preprocessing() != is_preprocessed {
            return false;
        }
        if held.is_opened() && !is_preprocessed {
            return false;
        }
        if matrices.len() == 0 || request.points.len() != matrices.len() {
            return false;
        }
        is_preprocessed = false;
    }
    requests.len() != 0
}

/// Whether the data is such, and has a matrix of this index with a column beside those that hide
/// the others.
pub(crate) fn is_readable(held: &Data, codewords: usize, index: usize) -> bool
    ensures held { IsTrue result → IsHeld codewords held.now (matrices_of held.now.inner) }
    ensures below { IsTrue result → index < length (matrices_of held.now.inner) }
    ensures wider { IsTrue result → (m : _) → hidden_columns codewords held.now
        < matrix_width (slice_index_or (matrices_of held.now.inner) index m) }
{
    let matrices = committed_matrices(&Inputs::new(), held);
    if !is_held(held, codewords) || index >= matrices.len() {
        return false;
    }
    matrices[index].width() > hidden_columns(held, codewords)
}
