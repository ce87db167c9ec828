//! An element of its canonical number.

ghost use Rattle.std.specs.Prelude.{◌≡◌, ◌<◌, ◌≤◌, IfSome, IfNone};

use p3_field_core::PrimeField64;

/// The element of this canonical number, if it is one.
pub(crate) fn element<F: PrimeField64>(number: u64) -> Option<F>
    ensures some { IfSome result (λ x. F.canonical x ≡ number) }
    ensures in_range { IfSome result (λ _. number < F.ORDER_U64) }
    ensures none { IfNone result (F.ORDER_U64 ≤ number) }
{
    if number < F::ORDER_U64 {
        Some(F::from_canonical(number))
    } else {
        None
    }
}
