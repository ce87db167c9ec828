//! The polynomial commitment scheme over two-adic fields, in the names of the Rust crate p3-fri.
//!
//! A matrix is committed to by the words of its columns' polynomials over the coset of the shift
//! `GENERATOR`, in bit-reversed order, on a domain that is a blowup larger than its own. It is
//! opened at points off that coset: the values there are absorbed, a challenge batches the
//! quotients of all values of one log height, and the low-degree test (FRI, ICALP 2018) shows that
//! the batched words are of low degree.

ghost use Rattle.std.specs.Prelude.{◌≡◌, ◌≢◌, ◌↔◌, ◌^◌, map, IsOk, IfOk, IfErr, None, Err, refl};
ghost use Rattle.std.specs.List.{AllZip};
ghost use Rattle.p3_pcs.specs.Claims.{claim};
ghost use Rattle.p3_pcs.specs.Scheme.{same_kept};
ghost use Rattle.p3_fri_two_adic.specs.Held.{IsSubgroupSize};
ghost use Rattle.p3_fri_two_adic.specs.Rules.{two_adic_rules};
ghost use Rattle.p3_fri_two_adic.specs.RuleLaws.{two_adic_lawful};

use crate::rules::OpensTwoAdic;
use p3_challenger_core::{CanObserve, FieldChallenger, GrindingChallenger};
use p3_dft::TwoAdicSubgroupDft;
use p3_field_core::{
    PackableExtension, PackableField, TwoAdicField, TwoAdicMultiplicativeCoset, log2_strict_usize,
};
use p3_fri_extensions::commit_evaluations;
pub use p3_fri_folding::TwoAdicFriFolding;
use p3_fri_folding::{FriParameters, FriProverError};
pub use p3_fri_opening_prover::ProverDataWithOpeningPoints;
use p3_fri_opening_prover::open_requests;
pub use p3_fri_opening_verifier::setting::TwoAdicFriFoldingForMmcs;
use p3_fri_opening_verifier::verify_opening;
use p3_fri_relation::error::FriError;
use p3_fri_relation::proof::{BatchMultiOpening, FriProof};
use p3_matrix::RowMajorMatrix;
pub use p3_mmcs::CommitmentWithOpeningPoints;
use p3_mmcs::{CommitmentOpening, Mmcs, OpenedValues};
use p3_pcs::{OpeningRequest, Pcs};
use std::alloc::{AllocError, Global};
use std::marker::PhantomData;

/// The scheme: a transform, a commitment to the matrices, and parameters with the commitment to the
/// folded words.
#[derive(Clone, Debug, Drop)]
pub struct TwoAdicFriPcs<Val, Dft, InputMmcs, FriMmcs> {
    pub(crate) dft: Dft,
    pub(crate) mmcs: InputMmcs,
    pub(crate) fri: FriParameters<FriMmcs>,
    of: PhantomData<Val>,
}

impl<Val, Dft, InputMmcs, FriMmcs> TwoAdicFriPcs<Val, Dft, InputMmcs, FriMmcs> {
    /// The scheme of these parts.
    ///
    /// # Examples
    ///
    /// ```
    /// type Scheme = TwoAdicFriPcs<
    ///     BabyBear,
    ///     Radix2Dit<BabyBear>,
    ///     Sha256Mmcs<BabyBear>,
    ///     Sha256Mmcs<BabyBear4>,
    /// >;
    ///
    /// let fri = FriParameters {
    ///     log_blowup: 3,
    ///     log_final_poly_len: 0,
    ///     max_log_arity: 3,
    ///     num_queries: 34,
    ///     batch_proof_of_work_bits: 0,
    ///     commit_proof_of_work_bits: 0,
    ///     query_proof_of_work_bits: 0,
    ///     mmcs: Sha256Mmcs::new(),
    /// };
    /// let mut scheme: Scheme = TwoAdicFriPcs::new(Radix2Dit::default(), Sha256Mmcs::new(), fri);
    /// ```
    pub fn new(dft: Dft, mmcs: InputMmcs, fri: FriParameters<FriMmcs>) -> Self
        ensures dft { result.dft ≡ dft }
        ensures mmcs { result.mmcs ≡ mmcs }
        ensures parameters { result.fri ≡ fri }
    {
        TwoAdicFriPcs {
            dft,
            mmcs,
            fri,
            of: PhantomData,
        }
    }

    /// The parameters of the low-degree test.
    pub fn parameters(&self) -> &FriParameters<FriMmcs>
        ensures { result.now ≡ self.now.fri }
    {
        &self.fri
    }
}

/// The requests that are opened stay as they are. A committed matrix holds the polynomials of its
/// columns: those of a degree `2^log_blowup` times below its height that its first entries
/// determine, and after `commit` those that have the columns on the domain.
///
/// The prover asks that `log_blowup` is from 1 to 63, `max_log_arity` and `num_queries` are
/// positive, and the challenger draws as many bits at once as the two-adicity and as each
/// difficulty; the verifier that the final log height is below 64, and the same of the challenger.
/// Data is opened whose matrices stand on cosets of the field.
impl<
    F: TwoAdicField + PackableField,
    EF: PackableExtension<F>,
    Dft: TwoAdicSubgroupDft<F>,
    InputMmcs: Mmcs<F>,
    M: Mmcs<EF>,
    C: FieldChallenger<F> + GrindingChallenger<Witness = F> + CanObserve<M::Commitment>,
> Pcs<EF, C> for TwoAdicFriPcs<F, Dft, InputMmcs, M> {
    type Val = F;

    type Domain = TwoAdicMultiplicativeCoset<F>;

    type Commitment = InputMmcs::Commitment;

    type ProverData = InputMmcs::ProverData;

    type Proof = FriProof<EF, M, F, Vec<BatchMultiOpening<F, InputMmcs>>>;

    type Error = FriError<M::Error, InputMmcs::Error>;

    type ProverError = FriProverError;

    ghost rules = { λ s. two_adic_rules (λ d. d.shift) (λ d. d.log_size)
        (⟦<C as OpensTwoAdic<F, EF, InputMmcs, M>>⟧.parts s.mmcs s.fri) };

    ghost Keeps = { λ old new. new ≡ old };

    /// Beside what the trait says, the domain is the subgroup itself.
    fn natural_domain_for_degree(&self, degree: usize) -> TwoAdicMultiplicativeCoset<F>
        requires degree { IsSubgroupSize F.TWO_ADICITY degree }
        ensures size { 2 ^ result.log_size ≡ degree }
        ensures shift { result.shift ≡ F.ONE }
    {
        TwoAdicMultiplicativeCoset {
            shift: F::ONE,
            log_size: log2_strict_usize(degree),
        }
    }

    /// Beside what the trait says, the scheme stays as it was.
    ///
    /// # Errors
    ///
    /// `OutOfMemory` alone.
    ///
    /// # Examples
    ///
    /// A table of four rows and two columns, whose values stand row by row:
    ///
    /// ```
    /// let domain =
    ///     <Scheme as Pcs<BabyBear4, Sha256Challenger>>::natural_domain_for_degree(&scheme, 4);
    /// let evaluations = vec![in alloc; (domain, RowMajorMatrix::new(values, 2))]?;
    /// let (commitment, mut data) =
    ///     <Scheme as Pcs<BabyBear4, Sha256Challenger>>::commit(&mut scheme, alloc, evaluations)?;
    /// challenger.observe(commitment);
    /// ```
    fn commit(
        &mut self,
        alloc: Global,
        evaluations: Vec<(TwoAdicMultiplicativeCoset<F>, RowMajorMatrix<F>)>,
    ) -> Result<(InputMmcs::Commitment, InputMmcs::ProverData), FriProverError>
        requires room { (⟦<Self as Pcs<EF, C>>⟧.rules self.old).CanCommit evaluations.items }
        ensures kept { self.new ≡ self.old }
        ensures commitment { let r = ⟦<Self as Pcs<EF, C>>⟧.rules self.new in
            IfOk result (λ pair. r.commitment_of pair.1 ≡ pair.0) }
        ensures openable { let r = ⟦<Self as Pcs<EF, C>>⟧.rules self.new in
            IfOk result (λ pair. r.CanOpen pair.1) }
        ensures honest { let r = ⟦<Self as Pcs<EF, C>>⟧.rules self.new in
            IfOk result (λ pair. r.IsHonest pair.1) }
        ensures extends { let r = ⟦<Self as Pcs<EF, C>>⟧.rules self.new in IfOk result (λ pair.
            AllZip r.Extends (r.committed_polynomials pair.1) evaluations.items) }
        ensures refused { IfErr result
            ((⟦<Self as Pcs<EF, C>>⟧.rules self.old).CommitRefuses evaluations.items) }
    {
        let log_blowup = self.fri.log_blowup;
        match commit_evaluations(&self.dft, &self.mmcs, alloc, log_blowup, evaluations) {
            Ok(committed) => Ok(committed),
            Err(AllocError) => Err(FriProverError::OutOfMemory),
        }
    }

    /// Beside what the trait says, the data stay as they were, and may be opened again.
    ///
    /// # Errors
    ///
    /// The heights of all matrices are tested in order, and then all points, before anything is
    /// absorbed: `InputHeightTooSmall`, `FinalHeightOverflow` and `PointInEvaluationDomain` leave
    /// the challenger as it was. `NoPowWitness` where no element passes a proof of work that is
    /// asked for. Want of memory is `OutOfMemory`.
    ///
    /// # Examples
    ///
    /// The columns of one matrix at a point that was drawn after the commitment:
    ///
    /// ```
    /// let zeta: BabyBear4 = FieldChallenger::<BabyBear>::sample_algebra_element(&mut challenger);
    /// let request = OpeningRequest {
    ///     prover_data: &mut data,
    ///     points: vec![in alloc; vec![in alloc; zeta]?]?,
    /// };
    /// let mut requests = vec![in alloc; request]?;
    /// let (opened, proof) = scheme.open(alloc, requests.as_mut_slice(), &mut challenger)?;
    /// // by commitment, matrix and point
    /// let at_zeta = &opened[0][0][0];
    /// ```
    fn open(
        &self,
        alloc: Global,
        requests: &mut [OpeningRequest<'_, InputMmcs::ProverData, EF>],
        challenger: &mut C,
    ) -> Result<
        (
            OpenedValues<EF>,
            FriProof<EF, M, F, Vec<BatchMultiOpening<F, InputMmcs>>>,
        ),
        FriProverError,
    > {
        let folding: TwoAdicFriFoldingForMmcs<F, InputMmcs> = TwoAdicFriFolding(PhantomData);
        open_requests::<F, EF, M, InputMmcs, TwoAdicFriFoldingForMmcs<F, InputMmcs>, C>(
            alloc, &folding, &self.fri, &self.mmcs, &*requests, challenger,
        )
    }

    /// Whether the claims hold, by the proof, as the trait says.
    ///
    /// # Errors
    ///
    /// A refusal names a fault that stands in the parameters, the claims or the proof; which of
    /// several isn't specified. `NonCanonicalPowWitness` leaves the challenger as it was, after
    /// another refusal it is of no use. Want of memory is `OutOfMemory`, which says nothing of the
    /// proof.
    ///
    /// # Examples
    ///
    /// The challenger has absorbed the commitment, and `zeta` was drawn of it, as by the prover:
    ///
    /// ```
    /// let points = vec![in alloc; PointOpening { point: zeta, values }]?;
    /// let matrices = vec![in alloc; MatrixOpening { domain, points }]?;
    /// let claims = vec![in alloc; CommitmentOpening { commitment, matrices }]?;
    /// scheme.verify(alloc, claims, &proof, &mut challenger)?;
    /// ```
    fn verify(
        &self,
        alloc: Global,
        claims: Vec<CommitmentOpening<EF, InputMmcs::Commitment, TwoAdicMultiplicativeCoset<F>>>,
        proof: &FriProof<EF, M, F, Vec<BatchMultiOpening<F, InputMmcs>>>,
        challenger: &mut C,
    ) -> Result<(), FriError<M::Error, InputMmcs::Error>>
        requires range { (⟦<Self as Pcs<EF, C>>⟧.rules self.now).InVerifierRange }
        ensures exactly { let r = ⟦<Self as Pcs<EF, C>>⟧.rules self.now in
            result ≢ Err r.out_of_memory
            → (IsOk result ↔ r.Accepts None challenger.old (map claim claims.items) proof.now) }
        ensures state { let r = ⟦<Self as Pcs<EF, C>>⟧.rules self.now in
            IsOk result → challenger.new
            ≡ r.last_state None challenger.old (map claim claims.items) proof.now }
        ensures stands { IfErr result ((⟦<Self as Pcs<EF, C>>⟧.rules self.now).IsTrueRefusal None
            (map claim claims.items) proof.now challenger.old) }
        ensures unmoved { IfErr result (λ e.
            (⟦<Self as Pcs<EF, C>>⟧.rules self.now).LeavesVerifier e
            → challenger.new ≡ challenger.old) }
    {
        let folding: TwoAdicFriFoldingForMmcs<F, InputMmcs> = TwoAdicFriFolding(PhantomData);
        verify_opening::<F, EF, M, InputMmcs, TwoAdicFriFoldingForMmcs<F, InputMmcs>, C>(
            alloc, &folding, &self.fri, &self.mmcs, &claims, proof, challenger,
        )
    }

    ghost keeps_itself_law = { λ _. refl };

    ghost keeps_law = { λ old new same. same_kept old new same (λ s. two_adic_rules
        (λ d. d.shift) (λ d. d.log_size)
        (⟦<C as OpensTwoAdic<F, EF, InputMmcs, M>>⟧.parts s.mmcs s.fri)) };

    ghost rules_law = { λ s. two_adic_lawful
        (λ d. d.shift) (λ d. d.log_size)
        (⟦<C as OpensTwoAdic<F, EF, InputMmcs, M>>⟧.parts s.mmcs s.fri) };
}
