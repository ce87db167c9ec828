//! The traits of finite fields and their extensions that the layers above are generic over, and
//! what is computed from these alone: cosets, batched inverses, bit-reversed order. Each call's
//! contract is stated over the field's operations, a record of mathematics; what holds of that
//! record (the laws of a commutative field, roots of unity) is a law of the trait, which each
//! instance proves.
#![tactic(auto)]

pub mod batch_inverse;
pub mod coset;
pub mod element_bytes;
pub mod extension;
pub mod field;
pub mod index;
pub mod laws;
pub mod packing;
pub mod powers;
pub mod prime_field;
pub mod sample_field;
pub mod two_adic;

pub use crate::batch_inverse::batch_multiplicative_inverse;
pub use crate::coset::TwoAdicMultiplicativeCoset;
pub use crate::element_bytes::ElementBytes;
pub use crate::extension::ExtensionField;
pub use crate::field::Field;
pub use crate::index::{log2_strict_usize, reverse_bits_len, reverse_slice_index_bits};
pub use crate::packing::{PackableExtension, PackableField, PackedExtension, PackedField};
pub use crate::powers::{bit_reversed_powers, shifted_powers};
pub use crate::prime_field::PrimeField64;
pub use crate::sample_field::SampleField;
pub use crate::two_adic::TwoAdicField;
