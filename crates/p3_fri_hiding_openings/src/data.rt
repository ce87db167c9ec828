//! What the committing side keeps of a hiding commitment, and its matrices.

ghost use Rattle.std.specs.Prelude.{◌≡◌, false};
ghost use Rattle.p3_fri_hiding_openings.specs.Data.{hidden_columns};

use p3_field_core::Field;
use p3_matrix::RowMajorMatrix;
use p3_mmcs::Mmcs;

/// What is kept of a commitment, over the data `T` of the commitment to its matrices. The masks of
/// private data serve one opening alone, so there is no copy of it; preprocessing is public, and
/// may be opened again.
#[derive(Debug, Drop)]
pub struct HidingFriPcsProverData<T> {
    pub(crate) inner: T,
    pub(crate) preprocessed: bool,
    pub(crate) num_random_codewords: usize,
    pub(crate) log_blowup: usize,
    pub(crate) opened: bool,
}

/// Data that no opening has used, over the data of a commitment. That the matrices inside are
/// masked as the scheme masks them, and that they are committed to with so many codewords and this
/// blowup, is known to the committing calls of the scheme alone: so this isn't a method.
pub fn new_prover_data<T>(
    inner: T,
    preprocessed: bool,
    num_random_codewords: usize,
    log_blowup: usize,
) -> HidingFriPcsProverData<T>
    ensures inner { result.inner ≡ inner }
    ensures preprocessed { result.preprocessed ≡ preprocessed }
    ensures codewords { result.num_random_codewords ≡ num_random_codewords }
    ensures blowup { result.log_blowup ≡ log_blowup }
    ensures unopened { result.opened ≡ false }
{
    HidingFriPcsProverData {
        inner,
        preprocessed,
        num_random_codewords,
        log_blowup,
        opened: false,
    }
}

impl<T> HidingFriPcsProverData<T> {
    /// Whether an opening has used it. Preprocessing is never marked.
    pub fn is_opened(&self) -> bool
        ensures { result ≡ self.now.opened }
    {
        self.opened
    }

    /// Whether it is public preprocessing.
    pub fn is_preprocessing(&self) -> bool
        ensures { result ≡ self.now.preprocessed }
    {
        self.preprocessed
    }

    /// How many columns of each private matrix only hide the others.
    pub fn num_random_codewords(&self) -> usize
        ensures { result ≡ self.now.num_random_codewords }
    {
        self.num_random_codewords
    }

    /// The logarithm of the blowup that it was committed with.
    pub fn log_blowup(&self) -> usize
        ensures { result ≡ self.now.log_blowup }
    {
        self.log_blowup
    }
}

/// How many of the last columns of a datum's matrices only hide the others.
pub fn hidden_columns<T>(
    prover_data: &HidingFriPcsProverData<T>,
    num_random_codewords: usize,
) -> usize
    ensures { result ≡ hidden_columns num_random_codewords prover_data.now }
{
    if prover_data.preprocessed {
        0
    } else {
        num_random_codewords
    }
}

/// The matrices of a datum, in their order, with the columns that only hide others.
pub fn committed_matrices<'a, F: Field, InputMmcs: Mmcs<F>>(
    input_mmcs: &InputMmcs,
    prover_data: &'a HidingFriPcsProverData<InputMmcs::ProverData>,
) -> &'a [RowMajorMatrix<F>]
    ensures { result.now ≡ InputMmcs.committed prover_data.now.inner }
{
    input_mmcs.get_matrices(&prover_data.inner)
}
