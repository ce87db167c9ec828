//! Finite fields and their extensions: the traits that the layers above are generic over, and the
//! field BabyBear with its extension of degree 4. A facade: `p3_field_core` and `p3_baby_bear` hold
//! the code.
#![tactic(auto)]

pub mod laws;

pub use p3_baby_bear::baby_bear::{BabyBear, BabyBear8Lanes, BabyBearFactor};
pub use p3_baby_bear::baby_bear4::{BabyBear4, BabyBear4x8Lanes};
pub use p3_baby_bear::{baby_bear, baby_bear4};
pub use p3_field_core::batch_inverse::batch_multiplicative_inverse;
pub use p3_field_core::coset::TwoAdicMultiplicativeCoset;
pub use p3_field_core::element_bytes::ElementBytes;
pub use p3_field_core::extension::ExtensionField;
pub use p3_field_core::field::Field;
pub use p3_field_core::index::{log2_strict_usize, reverse_bits_len, reverse_slice_index_bits};
pub use p3_field_core::packing::{PackableExtension, PackableField, PackedExtension, PackedField};
pub use p3_field_core::powers::{bit_reversed_powers, shifted_powers};
pub use p3_field_core::prime_field::PrimeField64;
pub use p3_field_core::sample_field::SampleField;
pub use p3_field_core::two_adic::TwoAdicField;
pub use p3_field_core::{
    batch_inverse, coset, element_bytes, extension, field, index, packing, powers, prime_field,
    sample_field, two_adic,
};
