//! The trait of schemes.

ghost use Rattle.std.specs.Prelude.{◌≡◌, ◌≢◌, ◌↔◌, List, None, map, IsOk, IfOk, IfErr, Err};
ghost use Rattle.std.specs.List.{AllZip};
ghost use Rattle.p3_pcs.specs.Claims.{claim, opened_values};
ghost use Rattle.p3_pcs.specs.Requests.{request, with_data};
ghost use Rattle.p3_pcs.specs.Scheme.{Scheme, IsLawful, AreKept, CanBeOpened, AreHonestIn};
ghost use Rattle.p3_pcs.specs.Scheme.{values_asked, FitRequests, claims_asked};

use crate::requests::OpeningRequest;
use p3_matrix::RowMajorMatrix;
use p3_mmcs::{CommitmentOpening, OpenedValues};
use std::alloc::Global;

/// A polynomial commitment scheme: matrices are committed to in batches, and the polynomials of
/// their columns are opened at points of the field `EF`, by a proof that is bound to the state of a
/// challenger `C`.
///
/// Its contracts carry the headline. What `open` answers on honest requests are the values of the
/// committed polynomials and a proof that is accepted of these claims from the state in which it
/// began, and it leaves the challenger in the last state of that; `verify` is Ok exactly where a
/// proof is accepted, memory aside, and then leaves the same state.
///
/// A proof is bound to that state and to the claimed values, and to nothing else. So both sides
/// have to bring the challenger there in the same way: absorb what is public and each commitment,
/// draw the points after, then open. Where a commitment isn't absorbed before, whoever proves can
/// choose it once the queries are known, and show any values.
pub trait Pcs<EF: Copy, C> {
    /// The elements of the matrices.
    type Val: Copy;

    /// Where a matrix's columns are functions on.
    type Domain: Copy;

    /// What stands for a batch.
    type Commitment: Copy;

    /// What the committing side keeps of a batch.
    type ProverData: Drop;

    /// What shows that claimed values are those of the committed polynomials.
    type Proof: Drop;

    /// Why a proof is refused.
    type Error: Drop;

    /// Why the proving side refuses.
    type ProverError: Drop;

    /// What the scheme opens, accepts and refuses.
    ghost rules: { Self → Scheme EF C Self.Val Self.Domain Self.Commitment Self.ProverData
        Self.Proof Self.Error Self.ProverError };

    /// What is known of data under the old scheme is known under the new one.
    ghost Keeps: { Self → Self → Type 0 };

    /// The domain of `degree` points on which a trace of that height is committed to.
    fn natural_domain_for_degree(&self, degree: usize) -> Self::Domain
        requires degree { (rules self.now).HasDomain degree }
        ensures size { (rules self.now).domain_size result ≡ degree };

    /// Commits to a batch of matrices, each of the values of its columns on the domain beside it.
    /// What was known of data before is known afterwards.
    fn commit(
        &mut self,
        alloc: Global,
        evaluations: Vec<(Self::Domain, RowMajorMatrix<Self::Val>)>,
    ) -> Result<(Self::Commitment, Self::ProverData), Self::ProverError>
        requires room { (rules self.old).CanCommit evaluations.items }
        ensures kept { Keeps self.old self.new }
        ensures commitment { let r = rules self.new in
            IfOk result (λ pair. r.commitment_of pair.1 ≡ pair.0) }
        ensures openable { let r = rules self.new in IfOk result (λ pair. r.CanOpen pair.1) }
        ensures honest { let r = rules self.new in IfOk result (λ pair. r.IsHonest pair.1) }
        ensures extends { let r = rules self.new in IfOk result (λ pair.
            AllZip r.Extends (r.committed_polynomials pair.1) evaluations.items) }
        ensures refused { IfErr result ((rules self.old).CommitRefuses evaluations.items) };

    /// The values of the committed polynomials at the points that are asked for, and a proof of
    /// them. Each datum has one list of points for each of its matrices, and some datum a matrix.
    ///
    /// Of all this the challenger absorbs the values alone. The caller has absorbed what is public
    /// and each commitment before, and has drawn the points after.
    fn open(
        &self,
        alloc: Global,
        requests: &mut [OpeningRequest<'_, Self::ProverData, EF>],
        challenger: &mut C,
    ) -> Result<(OpenedValues<EF>, Self::Proof), Self::ProverError>
        requires range { (rules self.now).InProverRange }
        requires shape { CanBeOpened (rules self.now) (map request requests.old) }
        ensures values { let r = rules self.now in let asked = map request requests.old in
            AreHonestIn r asked
            → IfOk result (λ opening. opened_values opening.0.items ≡ values_asked r asked) }
        ensures accepted { let r = rules self.now in let asked = map request requests.old in
            AreHonestIn r asked → IfOk result (λ opening. (domains : List (List Self.Domain))
            → FitRequests r domains asked
            → r.Accepts None challenger.old (claims_asked r domains asked) opening.1) }
        ensures state { let r = rules self.now in let asked = map request requests.old in
            AreHonestIn r asked → IfOk result (λ opening. (domains : List (List Self.Domain))
            → FitRequests r domains asked → challenger.new
            ≡ r.last_state None challenger.old (claims_asked r domains asked) opening.1) }
        ensures checked { IsOk result
            → (rules self.now).PassesChecks None (map request requests.old) }
        ensures opened { let r = rules self.now in
            r.PassesChecks None (map request requests.old)
            → requests.new ≡ map (with_data r.after_opening) requests.old }
        ensures unopened { ¬ (rules self.now).PassesChecks None (map request requests.old)
            → requests.new ≡ requests.old }
        ensures refused { IfErr result
            ((rules self.now).Refuses None challenger.old (map request requests.old)) }
        ensures unmoved { IfErr result (λ e.
            (rules self.now).LeavesState e → challenger.new ≡ challenger.old) }
        ensures untouched { IfErr result (λ e.
            (rules self.now).LeavesState e → requests.new ≡ requests.old) };

    /// Whether the claims hold, by the proof.
    ///
    /// Of the claims the challenger absorbs the values alone: neither commitments nor points nor
    /// domains. So acceptance says what is committed to only where the caller has absorbed what is
    /// public and each commitment before, and has drawn the points after, or absorbed them too.
    fn verify(
        &self,
        alloc: Global,
        claims: Vec<CommitmentOpening<EF, Self::Commitment, Self::Domain>>,
        proof: &Self::Proof,
        challenger: &mut C,
    ) -> Result<(), Self::Error>
        requires range { (rules self.now).InVerifierRange }
        ensures exactly { let r = rules self.now in result ≢ Err r.out_of_memory
            → (IsOk result ↔ r.Accepts None challenger.old (map claim claims.items) proof.now) }
        ensures state { IsOk result → challenger.new ≡ (rules self.now).last_state None
            challenger.old (map claim claims.items) proof.now }
        ensures stands { IfErr result ((rules self.now).IsTrueRefusal None
            (map claim claims.items) proof.now challenger.old) }
        ensures unmoved { IfErr result (λ e.
            (rules self.now).LeavesVerifier e → challenger.new ≡ challenger.old) };

    ghost keeps_itself_law: { (s : Self) → Keeps s s };

    ghost keeps_law: { (old new : Self) → Keeps old new → AreKept (rules old) (rules new) };

    ghost rules_law: { (s : Self) → IsLawful (rules s) };
}
