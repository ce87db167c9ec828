//! Laws of the fields, as calls that do nothing and whose contracts are theorems.

pub use p3_baby_bear::baby_bear::laws::baby_bear_law;
pub use p3_field_core::laws::{bit_reversal_law, distinct_points_law, two_adic_order_law};
