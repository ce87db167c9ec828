//! The labels that the stream binds. A step's label stands in the stream beside what the step says
//! of itself, so two steps of one form that mean different things have different streams.

/// The version of the transcript.
pub const VERSION: u8 = 1;

/// The name of the protocol.
pub const NAME: &[u8] = b"p3-fri";

/// A round's commitment is observed.
pub const COMMITMENT: &str = "commit_phase_commitment";

/// The proof of work before a round's challenge.
pub const COMMIT_POW: &str = "commit_pow";

/// A round's folding challenge is drawn.
pub const FOLD_CHALLENGE: &str = "fold_challenge";

/// The coefficients of the final polynomial are observed.
pub const FINAL_POLY: &str = "final_poly";

/// The proof of work before the queries' indices.
pub const QUERY_POW: &str = "query_pow";

/// The queries' indices are drawn.
pub const QUERY_INDICES: &str = "query_indices";
