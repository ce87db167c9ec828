//! The logarithm of the least power of two that isn't below a number.

ghost use Rattle.p3_domain.specs.Domains.{IsCeilLog};

/// The base-2 logarithm of the least power of two that isn't below `n`.
pub(crate) fn log2_ceil_usize(n: usize) -> usize
    ensures { IsCeilLog n result }
{
    (usize::BITS - n.saturating_sub(1).leading_zeros()) as usize
}
