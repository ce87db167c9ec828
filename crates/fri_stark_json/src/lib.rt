//! A STARK of JSON texts: traces are held against constraint systems, and proofs are made and
//! verified in both schemes, over BabyBear, its extension of degree 4 and SHA-256.
//!
//! A proof is accepted of what the verifier's own text of the system says, with its public values:
//! constraints, preprocessed and periodic columns, and the scheme's parameters. Nothing of these is
//! taken from the proof.
#![tactic(auto)]

mod checking;
mod failure;
mod proving;
mod records;
mod seed;
mod verification;

pub use crate::checking::check;
pub use crate::failure::{Failure, MALFORMED, OUT_OF_MEMORY, REFUSED, Refusal};
pub use crate::proving::{prove, prove_form};
pub use crate::records::{PublicValues, System, Trace, read};
pub use crate::seed::seed_of;
pub use crate::verification::{Accepted, verify, verify_form};
pub use fri_schemes::{Coset, HidingScheme, MadeScheme, PlainScheme};
