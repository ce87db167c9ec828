//! What is shown, and what it is held against.

use p3_air::Air;

/// The commitment to preprocessed columns, and their height. A verifier has it by itself, and never
/// from a proof.
#[derive(Clone, Copy, Debug)]
pub struct PreprocessedVerifierKey<Com> {
    pub commitment: Com,
    /// The base-2 logarithm of the number of the columns' rows, which a trace has to have.
    pub log_height: usize,
}

/// What a verifier knows by itself: the constraint system, the key of its preprocessed columns, its
/// periodic columns, and the public values.
#[derive(Clone, Copy, Debug)]
pub struct Statement<'a, F, Com> {
    pub air: &'a Air<F>,
    /// Where there are preprocessed columns.
    pub preprocessed: Option<PreprocessedVerifierKey<Com>>,
    pub periodic: &'a [Vec<F>],
    pub public_values: &'a [F],
}

/// The commitments that a proof has.
#[derive(Clone, Copy, Debug)]
pub struct Commitments<Com> {
    pub trace: Com,
    pub quotient_chunks: Com,
    /// To random polynomials, where the scheme hides.
    pub random: Option<Com>,
}

/// The values that a proof opens, one to a column.
#[derive(Debug, Drop)]
pub struct OpenedValues<EF> {
    /// Of the trace at the point.
    pub trace_local: Vec<EF>,
    /// Of the trace at the next point.
    pub trace_next: Vec<EF>,
    /// Of the preprocessed columns at the point.
    pub preprocessed_local: Vec<EF>,
    /// Of the preprocessed columns at the next point.
    pub preprocessed_next: Vec<EF>,
    /// Of each chunk of the quotient at the point, one to a coefficient over the base field.
    pub quotient_chunks: Vec<Vec<EF>>,
    /// Of the random polynomials at the point: none where the scheme doesn't hide.
    pub random: Vec<EF>,
}

/// A proof that some trace satisfies a constraint system.
#[derive(Debug, Drop)]
pub struct Proof<EF, Com, Opening> {
    pub commitments: Commitments<Com>,
    pub opened_values: OpenedValues<EF>,
    pub opening_proof: Opening,
    /// The base-2 logarithm of the number of the trace's rows.
    pub log_height: usize,
}
