//! What an estimate of soundness reads of a scheme's parameters. Nothing is estimated here.

/// The parameters of FRI that its soundness depends on. Each logarithm is to the base 2.
#[derive(Clone, Copy, Debug, PartialEq, Eq)]
pub struct FriRegime {
    /// The logarithm of the blowup.
    pub log_blowup: usize,
    /// How many times the verifier queries.
    pub num_queries: usize,
    /// The logarithm of the length of the final polynomial.
    pub log_final_poly_len: usize,
    /// The logarithm of the greatest arity of a round.
    pub max_log_arity: usize,
    /// Bits of proof of work before each round's folding challenge.
    pub commit_pow_bits: usize,
    /// Bits of proof of work before the queries are drawn.
    pub query_pow_bits: usize,
}

/// Bits of proof of work that a scheme asks for outside of FRI.
#[derive(Clone, Copy, Debug, PartialEq, Eq)]
pub struct GrindingSites {
    /// Before the challenge that batches the openings into one instance.
    pub batch_combination: usize,
}

impl GrindingSites {
    /// No proof of work.
    pub const NONE: Self = Self {
        batch_combination: 0,
    };
}
