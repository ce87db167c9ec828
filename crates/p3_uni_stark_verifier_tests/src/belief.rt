//! What a scheme for tests believes, and why it refuses.

/// How many claims an opening is believed of.
#[derive(Drop)]
pub struct Belief {
    pub claims: usize,
}

/// Why an opening is refused: it is of another number of claims.
#[derive(Drop)]
pub enum Disbelief {
    WrongCount,
    OutOfMemory,
}

/// The scheme commits to nothing and opens nothing.
#[derive(Drop)]
pub struct NoProver {}
