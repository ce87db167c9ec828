//! What holds of a domain that is split.

ghost use Rattle.std.specs.Prelude.{◌≡◌, ◌+◌, ℕ, map};
ghost use Rattle.p3_field_core.specs.Basis.{unit_vector};
ghost use Rattle.p3_domain.specs.Domains.{IsSplitInto};
ghost use Rattle.p3_domain.specs.Laws.{Recombine, ColumnsRecombine};

use crate::space::PolynomialSpace;
use p3_field_core::{ExtensionField, Field, TwoAdicField};

/// Chunks of a polynomial of degree below a domain's size, one on each of the domains into which
/// that is split, recombine to it at every point: each chunk's value counts with the product of
/// the values there of what vanishes on the other domains, over those at its domain's first point.
/// Chunks of an extension's columns do, put together by its basis, where the split domain meets no
/// subgroup of a chunk's size.
pub fn split_domains_law<D: PolynomialSpace, EF: ExtensionField<D::Val>>(domain: &D, pieces: &[D])
    ensures polynomials { (k d : ℕ) → k + d ≡ D.log_size domain.now
        → IsSplitInto D.Val.ops D.Val.root (D.log_size domain.now) (D.shift domain.now) d
        (map D.log_size pieces.now) (map D.shift pieces.now)
        → Recombine D.Val.ops EF.ops EF.lift D.Val.root k (map D.shift pieces.now) }
    ensures columns { (k d : ℕ) → k + d ≡ D.log_size domain.now
        → IsSplitInto D.Val.ops D.Val.root (D.log_size domain.now) (D.shift domain.now) d
        (map D.log_size pieces.now) (map D.shift pieces.now)
        → ColumnsRecombine D.Val.ops EF.ops EF.lift D.Val.root EF.DIMENSION
        (λ e. EF.of_coefficients (unit_vector D.Val.ops EF.DIMENSION e)) EF.coefficients
        k d (D.shift domain.now) (map D.shift pieces.now) }
{}
