//! What the tests of a field ask of it, whichever it is: tables of cases, and calls through their
//! bounds.
#![tactic(auto)]

pub mod cases;
pub mod extension;
pub mod field;

pub use crate::cases::first_wrong;
pub use crate::extension::{comes_back, extension_values, first_wrong_basis};
pub use crate::field::{
    agree, agree_throughout, field_values, first_wrong_inverse, first_wrong_product,
    first_wrong_root, first_wrong_word,
};
