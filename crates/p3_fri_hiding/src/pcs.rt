//! The hiding scheme over two-adic fields as a polynomial commitment scheme.

ghost use Rattle.std.specs.Prelude.{◌≡◌, ◌≢◌, ◌↔◌, ◌^◌, map, IsOk, IfOk, IfErr, Err, None, refl};
ghost use Rattle.std.specs.List.{AllZip};
ghost use Rattle.p3_pcs.specs.Claims.{claim, opened_values};
ghost use Rattle.p3_pcs.specs.Scheme.{same_kept};
ghost use Rattle.p3_fri_relation.specs.Views.{proof_of};
ghost use Rattle.p3_fri_hiding_openings.specs.Held.{IsSubgroupSize};
ghost use Rattle.p3_fri_hiding.specs.Rules.{hiding_rules};
ghost use Rattle.p3_fri_hiding.specs.RuleLaws.{hiding_lawful};

use crate::hiding_pcs::HidingFriPcs;
use p3_challenger_core::{CanObserve, FieldChallenger, GrindingChallenger};
use p3_dft::TwoAdicSubgroupDft;
use p3_field_core::{
    PackableExtension, PackableField, SampleField, TwoAdicField, TwoAdicMultiplicativeCoset,
    log2_strict_usize,
};
use p3_fri_hiding_openings::{
    HidingFriPcsProverData, HidingVerifierSetting, OpensTwoAdic, open_hiding_requests,
    verify_with_random_values,
};
use p3_fri_masks::HidingFriProverError;
use p3_fri_relation::error::FriError;
use p3_fri_relation::proof::{BatchMultiOpening, FriProof};
use p3_matrix::RowMajorMatrix;
use p3_mmcs::{CommitmentOpening, Mmcs, OpenedValues};
use p3_pcs::{OpeningRequest, Pcs};
use rand_core::CryptoRng;
use std::alloc::Global;

/// An opening shows the values of all columns but the random ones, whose values stand beside the
/// proof, and counts private data as opened once the checks have passed; such data isn't opened
/// again. `commit` changes the generator alone.
///
/// The prover asks that `log_blowup` is from 1 to 63, `max_log_arity` and `num_queries` are
/// positive, and the challenger draws as many bits at once as the two-adicity and as each
/// difficulty; the verifier that the final log height is below 64, and the same of the challenger.
impl<
    F: TwoAdicField + PackableField + SampleField,
    EF: PackableExtension<F>,
    Dft: TwoAdicSubgroupDft<F>,
    InputMmcs: Mmcs<F>,
    M: Mmcs<EF>,
    R: CryptoRng,
    C: FieldChallenger<F> + GrindingChallenger<Witness = F> + CanObserve<M::Commitment>,
> Pcs<EF, C> for HidingFriPcs<F, Dft, InputMmcs, M, R> {
    type Val = F;

    type Domain = TwoAdicMultiplicativeCoset<F>;

    type Commitment = InputMmcs::Commitment;

    type ProverData = HidingFriPcsProverData<InputMmcs::ProverData>;

    type Proof = (
        OpenedValues<EF>,
        FriProof<EF, M, F, Vec<BatchMultiOpening<F, InputMmcs>>>,
    );

    type Error = FriError<M::Error, InputMmcs::Error>;

    type ProverError = HidingFriProverError;

    ghost rules = { λ s. hiding_rules (λ d. d.shift) (λ d. d.log_size)
        (λ proof. opened_values proof.0.items) (λ proof. proof_of proof.1)
        s.num_random_codewords (⟦<C as OpensTwoAdic<F, EF, InputMmcs, M>>⟧.parts s.mmcs s.fri) };

    ghost Keeps = { λ old new. new ≡ record old { rng = new.rng } };

    /// Beside what the trait says, the domain is the subgroup itself.
    fn natural_domain_for_degree(&self, degree: usize) -> TwoAdicMultiplicativeCoset<F>
        requires degree { IsSubgroupSize F.TWO_ADICITY degree }
        ensures size { 2 ^ result.log_size ≡ degree }
        ensures shift { result.shift ≡ F.ONE }
    {
        TwoAdicMultiplicativeCoset {
            shift: F::ONE,
            log_size: log2_strict_usize(degree),
        }
    }

    /// Commits to masked matrices, as the scheme's own `commit` does. Beside what the trait says,
    /// the generator alone changes.
    ///
    /// # Errors
    ///
    /// `InsufficientRandomCodewords`, `BudgetOverflow` or `HidingBudgetExceeded` where the masks of
    /// a matrix can't hide one opening; else `Fri(OutOfMemory)` alone.
    fn commit(
        &mut self,
        alloc: Global,
        evaluations: Vec<(TwoAdicMultiplicativeCoset<F>, RowMajorMatrix<F>)>,
    ) -> Result<
        (
            InputMmcs::Commitment,
            HidingFriPcsProverData<InputMmcs::ProverData>,
        ),
        HidingFriProverError,
    >
        requires room { (⟦<Self as Pcs<EF, C>>⟧.rules self.old).CanCommit evaluations.items }
        ensures kept { self.new ≡ record self.old { rng = self.new.rng } }
        ensures commitment { let r = ⟦<Self as Pcs<EF, C>>⟧.rules self.new in
            IfOk result (λ pair. r.commitment_of pair.1 ≡ pair.0) }
        ensures openable { let r = ⟦<Self as Pcs<EF, C>>⟧.rules self.new in
            IfOk result (λ pair. r.CanOpen pair.1) }
        ensures honest { let r = ⟦<Self as Pcs<EF, C>>⟧.rules self.new in
            IfOk result (λ pair. r.IsHonest pair.1) }
        ensures extends { let r = ⟦<Self as Pcs<EF, C>>⟧.rules self.new in IfOk result (λ pair.
            AllZip r.Extends (r.committed_polynomials pair.1) evaluations.items) }
        ensures refused { IfErr result
            ((⟦<Self as Pcs<EF, C>>⟧.rules self.old).CommitRefuses evaluations.items) }
    {
        self.commit::<EF>(alloc, evaluations)
    }

    /// Beside what the trait says, private data counts as opened once the checks have passed,
    /// whatever comes then.
    ///
    /// # Errors
    ///
    /// Matrix by matrix, request by request, the height is tested and then the hiding budget for
    /// the matrix's points, and after them all points: `Fri(InputHeightTooSmall)`,
    /// `Fri(FinalHeightOverflow)`, `InsufficientRandomCodewords`, `BudgetOverflow`,
    /// `HidingBudgetExceeded` and `Fri(PointInEvaluationDomain)` leave the challenger and the data
    /// as they were. `Fri(NoPowWitness)` where no element passes a proof of work that is asked for.
    /// Want of memory is `Fri(OutOfMemory)`.
    ///
    /// # Examples
    ///
    /// The columns of one matrix at a point that was drawn after the commitment:
    ///
    /// ```
    /// let zeta: BabyBear4 = FieldChallenger::<BabyBear>::sample_algebra_element(&mut challenger);
    /// let request = OpeningRequest {
    ///     prover_data: &mut data,
    ///     points: vec![in alloc; vec![in alloc; zeta]?]?,
    /// };
    /// let mut requests = vec![in alloc; request]?;
    /// let (opened, proof) = scheme.open(alloc, requests.as_mut_slice(), &mut challenger)?;
    /// ```
    fn open(
        &self,
        alloc: Global,
        requests: &mut [OpeningRequest<'_, HidingFriPcsProverData<InputMmcs::ProverData>, EF>],
        challenger: &mut C,
    ) -> Result<
        (
            OpenedValues<EF>,
            (
                OpenedValues<EF>,
                FriProof<EF, M, F, Vec<BatchMultiOpening<F, InputMmcs>>>,
            ),
        ),
        HidingFriProverError,
    > {
        let codewords = self.num_random_codewords;
        open_hiding_requests::<F, EF, M, InputMmcs, C>(
            alloc, &self.fri, &self.mmcs, codewords, requests, challenger, None,
        )
    }

    /// Whether the claims hold, by the proof, as the trait says. A claimed domain has twice as many
    /// points as its matrix has rows.
    ///
    /// # Errors
    ///
    /// A refusal names a fault that stands in the parameters, the claims or the proof; which of
    /// several isn't specified. The random values are tested first: a refusal of them leaves the
    /// challenger as it was, and so does `NonCanonicalPowWitness`; after another it is of no use.
    /// Want of memory is `OutOfMemory`, which says nothing of the proof.
    ///
    /// # Examples
    ///
    /// The challenger has absorbed the commitment, and `zeta` was drawn of it, as by the prover:
    ///
    /// ```
    /// let points = vec![in alloc; PointOpening { point: zeta, values }]?;
    /// let matrices = vec![in alloc; MatrixOpening { domain, points }]?;
    /// let claims = vec![in alloc; CommitmentOpening { commitment, matrices }]?;
    /// scheme.verify(alloc, claims, &proof, &mut challenger)?;
    /// ```
    fn verify(
        &self,
        alloc: Global,
        claims: Vec<CommitmentOpening<EF, InputMmcs::Commitment, TwoAdicMultiplicativeCoset<F>>>,
        proof: &(
            OpenedValues<EF>,
            FriProof<EF, M, F, Vec<BatchMultiOpening<F, InputMmcs>>>,
        ),
        challenger: &mut C,
    ) -> Result<(), FriError<M::Error, InputMmcs::Error>>
        requires range { (⟦<Self as Pcs<EF, C>>⟧.rules self.now).InVerifierRange }
        ensures exactly { let r = ⟦<Self as Pcs<EF, C>>⟧.rules self.now in
            result ≢ Err r.out_of_memory
            → (IsOk result ↔ r.Accepts None challenger.old (map claim claims.items) proof.now) }
        ensures state { let r = ⟦<Self as Pcs<EF, C>>⟧.rules self.now in
            IsOk result → challenger.new
            ≡ r.last_state None challenger.old (map claim claims.items) proof.now }
        ensures stands { IfErr result ((⟦<Self as Pcs<EF, C>>⟧.rules self.now).IsTrueRefusal None
            (map claim claims.items) proof.now challenger.old) }
        ensures unmoved { IfErr result (λ e.
            (⟦<Self as Pcs<EF, C>>⟧.rules self.now).LeavesVerifier e
            → challenger.new ≡ challenger.old) }
    {
        let codewords = self.num_random_codewords;
        let random = proof.0.as_slice();
        let setting = HidingVerifierSetting {
            params: &self.fri,
            input_mmcs: &self.mmcs,
            num_random_codewords: codewords,
            preprocessing: None,
        };
        verify_with_random_values::<F, EF, InputMmcs, M, C>(
            alloc, &setting, claims, random, &proof.1, challenger,
        )
    }

    ghost keeps_itself_law = { λ _. refl };

    ghost keeps_law = { λ old new same. same_kept (record old { rng = new.rng }) new same
        (λ s. hiding_rules (λ d. d.shift) (λ d. d.log_size)
        (λ proof. opened_values proof.0.items) (λ proof. proof_of proof.1)
        s.num_random_codewords (⟦<C as OpensTwoAdic<F, EF, InputMmcs, M>>⟧.parts s.mmcs s.fri)) };

    ghost rules_law = { λ s. hiding_lawful (λ d. d.shift) (λ d. d.log_size)
        (λ proof. opened_values proof.0.items) (λ proof. proof_of proof.1)
        s.num_random_codewords (⟦<C as OpensTwoAdic<F, EF, InputMmcs, M>>⟧.parts s.mmcs s.fri) };
}
