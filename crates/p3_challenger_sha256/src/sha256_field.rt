//! The fields that the challenger is of.

use p3_field::{BabyBear, PrimeField64};
use p3_goldilocks::Goldilocks;
use p3_koala_bear::KoalaBear;

/// A prime field whose elements a challenger over SHA-256 absorbs and draws. It asks for nothing
/// more: that no commitment is an element is known of these fields, so that a challenger of any of
/// them absorbs commitments too.
pub trait Sha256Field: PrimeField64 {}

impl Sha256Field for BabyBear {}

impl Sha256Field for KoalaBear {}

impl Sha256Field for Goldilocks {}
