//! The name of the protocol and the labels of its steps, which the seed binds.

/// The version of the protocol.
pub const VERSION: u8 = 1;

/// The name of the protocol.
pub const NAME: &[u8] = b"p3-fri-pcs";

/// The values claimed at a point.
pub const CLAIMED_EVALUATIONS: &str = "claimed_evaluations";

/// The proof of work before the challenge.
pub const BATCH_POW: &str = "batch_pow";

/// The challenge that batches the openings.
pub const ALPHA: &str = "alpha";

/// The bracket around the low-degree test.
pub const LOW_DEGREE_TEST: &str = "low_degree_test";
