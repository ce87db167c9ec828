//! Proofs of the low-degree test.

use p3_mmcs::Mmcs;

/// A proof that committed words are close to words of low degree, with what a verifier asks for at
/// its queries. `F` is the field of the challenges, `M` the commitment scheme of the folded words.
#[derive(Drop)]
pub struct FriProof<F: Copy, M: Mmcs<F>, Witness, InputProof> {
    /// The witness before the challenge that batches the openings.
    pub batch_pow_witness: Witness,
    /// The commitment of each round to the word that it folds.
    pub commit_phase_commits: Vec<M::Commitment>,
    /// The witness before each round's challenge.
    pub commit_pow_witnesses: Vec<Witness>,
    /// The openings of the inputs, which the scheme around the test defines.
    pub input_openings: InputProof,
    /// For each round the opened siblings of all queries.
    pub commit_phase_openings: Vec<CommitPhaseMultiStep<F, M>>,
    /// The coefficients of the final polynomial, the constant first.
    pub final_poly: Vec<F>,
    /// The witness before the queries' indices.
    pub query_pow_witness: Witness,
}

/// What one round opens, for all queries.
#[derive(Drop)]
#[derive_where(Debug; F, M::MultiProof)]
pub struct CommitPhaseMultiStep<F: Copy, M: Mmcs<F>> {
    /// For each query the values of its row but the one at its own place, in order.
    pub sibling_values: Vec<Vec<F>>,
    /// That the rows are those of the round's commitment.
    pub opening_proof: M::MultiProof,
}

/// The rows that are opened of one commitment.
#[derive(Drop)]
pub struct BatchMultiOpening<T: Copy, M: Mmcs<T>> {
    /// For each query and each matrix the opened row.
    pub opened_values: Vec<Vec<Vec<T>>>,
    /// That they are the commitment's.
    pub opening_proof: M::MultiProof,
}
