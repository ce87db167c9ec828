//! By what a scheme hides.

/// By what a scheme hides. The plain scheme reads neither.
#[derive(Clone, Copy)]
pub struct Masking {
    /// How many random columns stand beside those of each matrix.
    pub num_random_codewords: usize,
    /// Of this all that is random is drawn. It is secret, and fresh for each call.
    pub seed: [u8; 32],
}
