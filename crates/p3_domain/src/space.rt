//! What a STARK asks of a domain.

ghost use Rattle.std.specs.Prelude.{◌≡◌, ◌≢◌, ◌≤◌, ◌<◌, ◌+◌, ◌*◌, ◌/◌, ◌%◌, ◌^◌, ◌↔◌, ℕ};
ghost use Rattle.std.specs.Prelude.{Some, IsSome, IfSome, IfOk, All, Contains, length, map};
ghost use Rattle.std.specs.Prelude.{slice_index_or, vec_len};
ghost use Rattle.std.specs.Int.{IsPowerOfTwo};
ghost use Rattle.algebra.specs.Polynomial.{tabulate};
ghost use Rattle.p3_field_core.specs.Coset.{coset_points, vanishing};
ghost use Rattle.p3_matrix.specs.Matrix.{rows, matrix_width};
ghost use Rattle.p3_uni_stark_identity.specs.Selectors.{AreSelectorsAt};
ghost use Rattle.p3_domain.specs.Domains.{IsCeilLog, HasRoom, IsOffDomain, IsSplitInto};
ghost use Rattle.p3_domain.specs.Domains.{domain_point, strided_rows};

use p3_field_core::{ExtensionField, Field, TwoAdicField};
use p3_matrix::RowMajorMatrix;
use p3_uni_stark_identity::LagrangeSelectors;
use std::alloc::{AllocError, Global};

/// A domain of values: the coset of its first point, its shift, by the powers of the root of unity
/// whose order is its size. The point at an index is that of the row at this index.
///
/// `log_size` is the base-2 logarithm of the number of points, and `shift` the point at index 0.
pub trait PolynomialSpace: Copy {
    /// The field that the points are in.
    type Val: TwoAdicField;

    ghost log_size: { Self → ℕ };

    ghost shift: { Self → Self.Val };

    /// The number of points.
    fn size(&self) -> usize
        ensures points { result ≡ 2 ^ log_size self.now };

    /// The point at index 0.
    fn first_point(&self) -> Self::Val
        ensures first { result ≡ shift self.now };

    /// From the point at an index the one at the next index, where after the last comes the first;
    /// and what of any point of an extension a polynomial is read at for the next row.
    fn next_point<EF: ExtensionField<Self::Val>>(&self, point: EF) -> Option<EF>
        ensures turned { result ≡ Some (EF.ops.mul point
            (EF.lift (Self.Val.root (log_size self.now)))) }
        ensures next { let k = log_size self.now in (i : ℕ)
            → point ≡ EF.lift (domain_point Self.Val.ops Self.Val.root k (shift self.now) i)
            → result ≡ Some (EF.lift (domain_point Self.Val.ops Self.Val.root k (shift self.now)
            ((i + 1) % 2 ^ k))) };

    /// The domain of the least power of two of points that isn't below `min_size`, at this one's
    /// shift times the field's `GENERATOR`: it has no point of this one. `None` where there is no
    /// root of unity of that order, or where the generator's power to the greatest two-adic order
    /// is one, by which the two might meet.
    fn create_disjoint_domain(&self, min_size: usize) -> Option<Self>
        ensures exactly { IsSome result ↔ HasRoom Self.Val.ops Self.Val.TWO_ADICITY
            Self.Val.GENERATOR min_size }
        ensures size { IfSome result (λ other. IsCeilLog min_size (log_size other)) }
        ensures shift { IfSome result (λ other.
            shift other ≡ Self.Val.ops.mul (shift self.now) Self.Val.GENERATOR) }
        ensures disjoint { IfSome result (λ other. IsOffDomain Self.Val.ops Self.Val.root
            (log_size self.now) (shift self.now) (log_size other) (shift other)) };

    /// The domains of equal size, `num_chunks` of them, into which this one is split: point `j` of
    /// the one at `i` is this one's point `i + j * num_chunks`.
    fn split_domains(&self, alloc: Global, num_chunks: usize) -> Result<Vec<Self>, AllocError>
        requires power_of_two { IsPowerOfTwo num_chunks }
        requires within { num_chunks ≤ 2 ^ log_size self.now }
        ensures pieces { IfOk result (λ pieces. (d : ℕ) → num_chunks ≡ 2 ^ d
            → IsSplitInto Self.Val.ops Self.Val.root (log_size self.now) (shift self.now) d
            (map log_size pieces.items) (map shift pieces.items)) };

    /// The rows of values on this domain, in natural order, by the domains into which it is split.
    fn split_evals(
        &self,
        alloc: Global,
        num_chunks: usize,
        evals: &RowMajorMatrix<Self::Val>,
    ) -> Result<Vec<RowMajorMatrix<Self::Val>>, AllocError>
        requires power_of_two { IsPowerOfTwo num_chunks }
        requires within { num_chunks ≤ 2 ^ log_size self.now }
        requires height { length (rows evals.now) ≡ 2 ^ log_size self.now }
        ensures rows { IfOk result (λ chunks. map rows chunks.items ≡ tabulate num_chunks
            (strided_rows num_chunks (2 ^ log_size self.now / num_chunks) (rows evals.now))) }
        ensures widths { IfOk result (λ chunks.
            All (λ w. w ≡ matrix_width evals.now) (map matrix_width chunks.items)) };

    /// The value at a point of `(X / shift)^size - 1`, zero exactly at the domain's points.
    fn vanishing_poly_at_point<EF: ExtensionField<Self::Val>>(&self, point: EF) -> EF
        ensures value { result ≡ vanishing EF.ops (EF.lift (shift self.now)) (log_size self.now)
            point }
        ensures zeros { (result ≡ EF.ops.zero) ↔ Contains (coset_points EF.ops
            (EF.lift (Self.Val.root (log_size self.now))) (EF.lift (shift self.now))
            (log_size self.now)) point };

    /// The selectors of the domain's rows at a point off it: those of the subgroup of its size, at
    /// the point over the shift.
    fn selectors_at_point<EF: ExtensionField<Self::Val>>(&self, point: EF) -> LagrangeSelectors<EF>
        requires off { vanishing EF.ops (EF.lift (shift self.now)) (log_size self.now) point
            ≢ EF.ops.zero }
        ensures selectors { AreSelectorsAt EF.ops (EF.lift (Self.Val.root (log_size self.now)))
            (2 ^ log_size self.now) (EF.ops.mul point (EF.ops.inv (EF.lift (shift self.now))))
            result };

    /// The same at each point of a domain that has none of this one's, in natural order.
    fn selectors_on_coset(
        &self,
        alloc: Global,
        coset: Self,
    ) -> Result<Vec<LagrangeSelectors<Self::Val>>, AllocError>
        requires off { IsOffDomain Self.Val.ops Self.Val.root (log_size self.now) (shift self.now)
            (log_size coset) (shift coset) }
        ensures len { IfOk result (λ selectors. vec_len selectors ≡ 2 ^ log_size coset) }
        ensures selectors { let F = Self.Val.ops in IfOk result (λ selectors.
            (i : ℕ) (d : LagrangeSelectors Self.Val) → i < 2 ^ log_size coset
            → AreSelectorsAt F (Self.Val.root (log_size self.now)) (2 ^ log_size self.now)
            (F.mul (domain_point F Self.Val.root (log_size coset) (shift coset) i)
            (F.inv (shift self.now))) (slice_index_or selectors.items i d)) };

    ghost size_law: { (domain : Self) → log_size domain ≤ Self.Val.TWO_ADICITY };

    ghost shift_law: { (domain : Self) → shift domain ≢ Self.Val.ops.zero };
}
