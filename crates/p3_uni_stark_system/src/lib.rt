//! Systems by their numbers: a constraint system in its plain form, with the rows of its
//! preprocessed columns and its periodic columns. Over any scheme, a trace of numbers is proved to
//! satisfy such a system with public values, and a proof is verified of it; the preprocessed
//! columns are committed to by whoever proves or verifies.
#![tactic(auto)]

pub mod error;
pub mod preprocessing;
pub mod proving;
pub mod system;
pub mod verification;

pub use crate::error::{PreprocessingError, SystemProvingError, SystemVerificationError};
pub use crate::preprocessing::{Preprocessed, commit_numbers};
pub use crate::proving::prove_system;
pub use crate::system::PlainSystem;
pub use crate::verification::verify_system;
