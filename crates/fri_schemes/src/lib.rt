//! Both schemes over a prime field, its extension and SHA-256, made of parameters: one trait, by
//! which whatever is built over it serves both, with one set of clauses. A `SchemeField` is a field
//! with its extension: BabyBear, KoalaBear and Goldilocks are such.
#![tactic(auto)]

mod hiding;
mod plain;
mod scheme;
mod scheme_field;

pub use crate::hiding::HidingScheme;
pub use crate::plain::PlainScheme;
pub use crate::scheme::{Coset, Inputs, MadeScheme};
pub use crate::scheme_field::{SchemeField, SchemeParts};
