//! Schemes over cosets of two-adic subgroups.

ghost use Rattle.std.specs.Prelude.{◌≡◌, ◌≤◌, ◌+◌, ℕ};
ghost use Rattle.p3_uni_stark_verifier.specs.Chunks.{hiding_bits};
ghost use Rattle.p3_uni_stark_pcs.specs.Laws.{StarkPcsLaws};
ghost use Rattle.p3_uni_stark_pcs.specs.Rooms.{HasRoom};

use p3_domain::PolynomialSpace;
use p3_field_core::{ExtensionField, PrimeField64, TwoAdicField};
use p3_stark_pcs::UnivariateStarkPcs;
use p3_uni_stark_verifier::setting::StarkField;

/// A scheme whose domains are the cosets `D`, for a STARK over their field: its laws say what is
/// known of whatever it commits to, beside what each call ensures. They hold in every state.
pub trait TwoAdicStarkPcs<EF: ExtensionField<D::Val>, C, D: PolynomialSpace>: UnivariateStarkPcs<
    EF,
    C,
    Val = D::Val,
    Domain = D,
>
where
    D::Val: PrimeField64,
{
    // the base-2 logarithm of the factor by which a committed word is longer than its polynomial
    ghost log_blowup: { Self → ℕ };

    /// The base-2 logarithm of the factor by which a committed word is longer than the polynomial
    /// that it is of.
    fn log_blowup(&self) -> usize
        ensures { result ≡ log_blowup self.now };

    // what commitments and openings keep has the same
    ghost blowup_law: { (old new : Self) → Self.Keeps old new → log_blowup new ≡ log_blowup old };

    ghost polynomials_law: { (s : Self) → StarkPcsLaws ⟦<EF as StarkField<D::Val>>⟧.fields D.shift
        D.log_size Self.ZK (Self.rules s) (Self.stark_rules s) Self.embed Self.point
        Self.chunk_polynomials Self.recombined Self.IsPeriodicValue };

    ghost room_law: { (s : Self) (k log : ℕ)
        → k + (log + hiding_bits Self.ZK) ≤ D.Val.TWO_ADICITY
        → k + hiding_bits Self.ZK + log_blowup s ≤ D.Val.TWO_ADICITY
        → HasRoom ⟦<EF as StarkField<D::Val>>⟧.fields D.shift D.log_size Self.ZK
        (Self.rules s) (Self.stark_rules s) k log };
}
