//! The hiding scheme as a STARK prover uses it.

ghost use Rattle.std.specs.Prelude.{◌≡◌, ◌≢◌, ◌↔◌, ◌*◌, map, true, IsOk, IfOk, IfErr};
ghost use Rattle.std.specs.Prelude.{IsSome, IfSome, Err};
ghost use Rattle.std.specs.List.{AllZip};
ghost use Rattle.p3_field_core.specs.Coset.{coset_point};
ghost use Rattle.p3_pcs.specs.Claims.{claim, opened_values};
ghost use Rattle.p3_periodic.specs.Values.{IsColumnValue};
ghost use Rattle.p3_stark_pcs.specs.Evaluations.{HasShape};
ghost use Rattle.p3_stark_pcs.specs.Scheme.{same_kept_stark};
ghost use Rattle.p3_fri_folding.specs.declared.error.FriProverError.TheVariants.{OutOfMemory};
ghost use Rattle.p3_fri_relation.specs.Views.{proof_of};
ghost use Rattle.p3_fri_masks.specs.declared.error.HidingFriProverError.TheVariants.{Fri};
ghost use Rattle.p3_fri_hiding_openings.specs.Chunks.{polynomials_on, recombined_on};
ghost use Rattle.p3_fri_hiding.specs.ReadingLaws.{hides};
ghost use Rattle.p3_fri_hiding.specs.Rules.{hiding_stark_rules};
ghost use Rattle.p3_fri_hiding.specs.RuleLaws.{hiding_lawful_stark};

use crate::hiding_pcs::HidingFriPcs;
use p3_challenger_core::{CanObserve, FieldChallenger, GrindingChallenger};
use p3_dft::TwoAdicSubgroupDft;
use p3_field_core::{
    PackableExtension, PackableField, SampleField, TwoAdicField, TwoAdicMultiplicativeCoset,
};
use p3_fri_hiding_openings::{
    HidingFriPcsProverData, HidingVerifierSetting, OpensTwoAdic, open_hiding_requests,
    verify_with_random_values,
};
use p3_fri_masks::HidingFriProverError;
use p3_fri_relation::error::FriError;
use p3_fri_relation::proof::{BatchMultiOpening, FriProof};
use p3_fri_relation::setting::ChallengeField;
use p3_matrix::RowMajorMatrix;
use p3_mmcs::{CommitmentOpening, Mmcs, OpenedValues};
use p3_pcs::{OpeningRequest, Pcs};
use p3_periodic::{PeriodicError, PeriodicLdeTable, build_periodic_lde_table_two_adic};
use p3_stark_pcs::UnivariateStarkPcs;
use rand_core::CryptoRng;
use std::alloc::Global;

/// It hides: preprocessed columns are committed to as public ones, and the index of an opening
/// names the request of them, which is opened without random values and isn't marked as opened.
///
/// Matrices that are committed to as they are stand on the evaluation coset, in bit-reversed order,
/// at a height from the blowup to the size of the field's greatest subgroup. There is always a
/// commitment to random polynomials.
impl<
    F: TwoAdicField + PackableField + SampleField,
    EF: PackableExtension<F>,
    Dft: TwoAdicSubgroupDft<F>,
    InputMmcs: Mmcs<F>,
    M: Mmcs<EF>,
    R: CryptoRng,
    C: FieldChallenger<F> + GrindingChallenger<Witness = F> + CanObserve<M::Commitment>,
> UnivariateStarkPcs<EF, C> for HidingFriPcs<F, Dft, InputMmcs, M, R> {
    const ZK: bool = true;

    ghost ZK = { true };

    ghost stark_rules = { λ s. hiding_stark_rules (λ d. d.shift) (λ d. d.log_size)
        s.num_random_codewords (⟦<C as OpensTwoAdic<F, EF, InputMmcs, M>>⟧.parts s.mmcs s.fri)
        F.from_word };

    ghost embed = { EF.lift };

    ghost point = { λ d. coset_point F.ops (F.root d.log_size) d.shift };

    ghost matrices_of = { λ d. InputMmcs.committed d.inner };

    ghost chunk_polynomials = { λ e.
        polynomials_on ⟦<EF as ChallengeField<F>>⟧.fields e.0.shift e.0.log_size e.1 };

    ghost recombined = { λ domains rows z. recombined_on ⟦<EF as ChallengeField<F>>⟧.fields
        (map (λ d. d.log_size) domains) (map (λ d. d.shift) domains) rows z };

    ghost EvaluationRefuses = { λ e. e ≡ Fri OutOfMemory };

    ghost IsPeriodicValue = { λ trace z. IsColumnValue F.ops F.root trace.log_size z };

    fn log_max_trace_height(&self) -> usize {
        F::TWO_ADICITY
    }

    fn log_min_trace_height(&self) -> usize {
        0
    }

    /// Commits as the scheme's own call does: the generator isn't used.
    ///
    /// # Errors
    ///
    /// As of the scheme's own `commit_preprocessing`.
    fn commit_preprocessing(
        &mut self,
        alloc: Global,
        evaluations: Vec<(TwoAdicMultiplicativeCoset<F>, RowMajorMatrix<F>)>,
    ) -> Result<
        (
            InputMmcs::Commitment,
            HidingFriPcsProverData<InputMmcs::ProverData>,
        ),
        HidingFriProverError,
    >
        requires room { (⟦<Self as Pcs<EF, C>>⟧.rules self.old).CanCommit evaluations.items }
        ensures kept { self.new ≡ record self.old { rng = self.new.rng } }
        ensures commitment { let r = ⟦<Self as Pcs<EF, C>>⟧.rules self.new in
            IfOk result (λ pair. r.commitment_of pair.1 ≡ pair.0) }
        ensures openable { let t = ⟦<Self as UnivariateStarkPcs<EF, C>>⟧.stark_rules self.new in
            IfOk result (λ pair. t.CanOpenPreprocessed pair.1) }
        ensures honest { let r = ⟦<Self as Pcs<EF, C>>⟧.rules self.new in
            IfOk result (λ pair. r.IsHonest pair.1) }
        ensures extends { let r = ⟦<Self as Pcs<EF, C>>⟧.rules self.new in IfOk result (λ pair.
            AllZip r.Extends (r.committed_polynomials pair.1) evaluations.items) }
        ensures refused { let t = ⟦<Self as UnivariateStarkPcs<EF, C>>⟧.stark_rules self.old in
            IfErr result (t.PreprocessingRefuses evaluations.items) }
    {
        self.commit_preprocessing::<EF>(alloc, evaluations)
    }

    /// Extends and masks chunks as the scheme's own call does.
    ///
    /// # Errors
    ///
    /// As of the scheme's own `get_quotient_ldes`.
    fn get_quotient_ldes(
        &mut self,
        alloc: Global,
        evaluations: Vec<(TwoAdicMultiplicativeCoset<F>, RowMajorMatrix<F>)>,
        num_chunks: usize,
    ) -> Result<Vec<RowMajorMatrix<F>>, HidingFriProverError>
        requires room { let t = ⟦<Self as UnivariateStarkPcs<EF, C>>⟧.stark_rules self.old in
            t.CanExtend evaluations.items num_chunks }
        ensures kept { self.new ≡ record self.old { rng = self.new.rng } }
        ensures words { let t = ⟦<Self as UnivariateStarkPcs<EF, C>>⟧.stark_rules self.new in
            IfOk result (λ ldes. t.ExtendQuotients evaluations.items ldes.items) }
        ensures sizes { let t = ⟦<Self as UnivariateStarkPcs<EF, C>>⟧.stark_rules self.new in
            let r = ⟦<Self as Pcs<EF, C>>⟧.rules self.new in IfOk result (λ ldes.
            AllZip (λ lde e. (t.polynomials_of lde).size ≡ 2 * r.domain_size e.0)
            ldes.items evaluations.items) }
        ensures recombined { let t = ⟦<Self as UnivariateStarkPcs<EF, C>>⟧.stark_rules self.new in
            let chunk = ⟦<Self as UnivariateStarkPcs<EF, C>>⟧.chunk_polynomials in
            let recombined = ⟦<Self as UnivariateStarkPcs<EF, C>>⟧.recombined in
            IfOk result (λ ldes. (z : EF)
            → recombined (map (λ e. e.0) evaluations.items)
            (map (λ lde. (t.polynomials_of lde).values_at z) ldes.items) z
            ≡ recombined (map (λ e. e.0) evaluations.items)
            (map (λ e. (chunk e).values_at z) evaluations.items) z) }
        ensures committable { let t = ⟦<Self as UnivariateStarkPcs<EF, C>>⟧.stark_rules self.new in
            IfOk result (λ ldes. t.CanCommitLdes ldes.items) }
        ensures openable { let t = ⟦<Self as UnivariateStarkPcs<EF, C>>⟧.stark_rules self.new in
            IfOk result (λ ldes. t.CanOpenLdes ldes.items) }
        ensures low_degree { let t = ⟦<Self as UnivariateStarkPcs<EF, C>>⟧.stark_rules self.new in
            IfOk result (λ ldes. t.AreLdes ldes.items) }
        ensures refused { let t = ⟦<Self as UnivariateStarkPcs<EF, C>>⟧.stark_rules self.old in
            IfErr result (t.QuotientsRefuse evaluations.items) }
    {
        self.get_quotient_ldes::<EF>(alloc, evaluations, num_chunks)
    }

    /// Commits as the scheme's own call does.
    ///
    /// # Errors
    ///
    /// As of the scheme's own `commit_ldes`.
    fn commit_ldes(
        &self,
        alloc: Global,
        ldes: Vec<RowMajorMatrix<F>>,
    ) -> Result<
        (
            InputMmcs::Commitment,
            HidingFriPcsProverData<InputMmcs::ProverData>,
        ),
        HidingFriProverError,
    >
        requires room { let t = ⟦<Self as UnivariateStarkPcs<EF, C>>⟧.stark_rules self.now in
            t.CanCommitLdes ldes.items }
        ensures matrices { let matrices_of = ⟦<Self as UnivariateStarkPcs<EF, C>>⟧.matrices_of in
            IfOk result (λ pair. matrices_of pair.1 ≡ ldes.items) }
        ensures commitment { let r = ⟦<Self as Pcs<EF, C>>⟧.rules self.now in
            IfOk result (λ pair. r.commitment_of pair.1 ≡ pair.0) }
        ensures polynomials { let t = ⟦<Self as UnivariateStarkPcs<EF, C>>⟧.stark_rules self.now in
            let r = ⟦<Self as Pcs<EF, C>>⟧.rules self.now in
            IfOk result (λ pair. r.committed_polynomials pair.1 ≡ map t.polynomials_of ldes.items) }
        ensures openable { let t = ⟦<Self as UnivariateStarkPcs<EF, C>>⟧.stark_rules self.now in
            let r = ⟦<Self as Pcs<EF, C>>⟧.rules self.now in
            t.CanOpenLdes ldes.items → IfOk result (λ pair. r.CanOpen pair.1) }
        ensures readable { let t = ⟦<Self as UnivariateStarkPcs<EF, C>>⟧.stark_rules self.now in
            IfOk result (λ pair. t.IsReadable pair.1) }
        ensures honest { let t = ⟦<Self as UnivariateStarkPcs<EF, C>>⟧.stark_rules self.now in
            let r = ⟦<Self as Pcs<EF, C>>⟧.rules self.now in
            t.AreLdes ldes.items → IfOk result (λ pair. r.IsHonest pair.1) }
        ensures refused { let t = ⟦<Self as UnivariateStarkPcs<EF, C>>⟧.stark_rules self.now in
            IfErr result (t.LdesRefuse ldes.items) }
    {
        self.commit_ldes::<EF>(alloc, ldes)
    }

    /// Reads as the scheme's own call does.
    ///
    /// # Errors
    ///
    /// `Fri(OutOfMemory)` alone.
    fn get_evaluations_on_domain(
        &self,
        alloc: Global,
        prover_data: &HidingFriPcsProverData<InputMmcs::ProverData>,
        index: usize,
        domain: TwoAdicMultiplicativeCoset<F>,
    ) -> Result<RowMajorMatrix<F>, HidingFriProverError> {
        self.get_evaluations_on_domain::<EF>(alloc, prover_data, index, domain)
    }

    /// Reads as the scheme's own call does.
    ///
    /// # Errors
    ///
    /// `Fri(OutOfMemory)` alone.
    fn get_evaluations_on_domain_no_random(
        &self,
        alloc: Global,
        prover_data: &HidingFriPcsProverData<InputMmcs::ProverData>,
        index: usize,
        domain: TwoAdicMultiplicativeCoset<F>,
    ) -> Result<RowMajorMatrix<F>, HidingFriProverError> {
        self.get_evaluations_on_domain_no_random::<EF>(alloc, prover_data, index, domain)
    }

    /// A transform is made for each distinct length of a column. Of the trace's domain only the
    /// size is read.
    ///
    /// # Errors
    ///
    /// `NotPowerOfTwo` or `DoesNotDivide` of the first column whose length is refused, and
    /// `OutOfMemory` where all lengths fit.
    #[tactic(auto, using(p3_field_core::proofs::IndexPowers::exponent_at_most))]
    fn build_periodic_lde_table(
        &self,
        alloc: Global,
        periodic_table: &[Vec<F>],
        trace_domain: TwoAdicMultiplicativeCoset<F>,
        quotient_domain: TwoAdicMultiplicativeCoset<F>,
    ) -> Result<PeriodicLdeTable<F>, PeriodicError> {
        build_periodic_lde_table_two_adic(
            alloc,
            &self.dft,
            periodic_table,
            &trace_domain,
            &quotient_domain,
        )
    }

    /// Commits as the scheme's own call does.
    ///
    /// # Errors
    ///
    /// As of the scheme's own `get_opt_randomization_poly_commitment`.
    fn get_opt_randomization_poly_commitment(
        &mut self,
        alloc: Global,
        domains: Vec<TwoAdicMultiplicativeCoset<F>>,
    ) -> Result<
        Option<
            (
                InputMmcs::Commitment,
                HidingFriPcsProverData<InputMmcs::ProverData>,
            ),
        >,
        HidingFriProverError,
    >
        requires room { let t = ⟦<Self as UnivariateStarkPcs<EF, C>>⟧.stark_rules self.old in
            t.CanRandomize domains.items }
        ensures kept { self.new ≡ record self.old { rng = self.new.rng } }
        ensures some { IfOk result (λ found. IsSome found) }
        ensures commitment { let r = ⟦<Self as Pcs<EF, C>>⟧.rules self.new in
            IfOk result (λ found. IfSome found (λ pair. r.commitment_of pair.1 ≡ pair.0)) }
        ensures openable { let r = ⟦<Self as Pcs<EF, C>>⟧.rules self.new in
            IfOk result (λ found. IfSome found (λ pair. r.CanOpen pair.1)) }
        ensures honest { let r = ⟦<Self as Pcs<EF, C>>⟧.rules self.new in
            IfOk result (λ found. IfSome found (λ pair. r.IsHonest pair.1)) }
        ensures random { let t = ⟦<Self as UnivariateStarkPcs<EF, C>>⟧.stark_rules self.new in
            let r = ⟦<Self as Pcs<EF, C>>⟧.rules self.new in
            IfOk result (λ found. IfSome found (λ pair.
            AllZip (λ m d. HasShape (r.domain_size d) t.random_columns m)
            (r.committed_polynomials pair.1) domains.items)) }
        ensures refused { let t = ⟦<Self as UnivariateStarkPcs<EF, C>>⟧.stark_rules self.old in
            IfErr result (t.RandomizationRefuses domains.items) }
    {
        self.get_opt_randomization_poly_commitment::<EF>(alloc, domains)
    }

    /// Opens as `open` does, where the index names the request of preprocessing.
    ///
    /// # Errors
    ///
    /// As of `open`.
    fn open_with_preprocessing(
        &self,
        alloc: Global,
        requests: &mut [OpeningRequest<'_, HidingFriPcsProverData<InputMmcs::ProverData>, EF>],
        challenger: &mut C,
        preprocessing: Option<usize>,
    ) -> Result<
        (
            OpenedValues<EF>,
            (
                OpenedValues<EF>,
                FriProof<EF, M, F, Vec<BatchMultiOpening<F, InputMmcs>>>,
            ),
        ),
        HidingFriProverError,
    > {
        let codewords = self.num_random_codewords;
        open_hiding_requests::<F, EF, M, InputMmcs, C>(
            alloc,
            &self.fri,
            &self.mmcs,
            codewords,
            requests,
            challenger,
            preprocessing,
        )
    }

    /// Verifies as `verify` does, where the index names the claims of preprocessing.
    ///
    /// # Errors
    ///
    /// As of `verify`.
    fn verify_with_preprocessing(
        &self,
        alloc: Global,
        claims: Vec<CommitmentOpening<EF, InputMmcs::Commitment, TwoAdicMultiplicativeCoset<F>>>,
        proof: &(
            OpenedValues<EF>,
            FriProof<EF, M, F, Vec<BatchMultiOpening<F, InputMmcs>>>,
        ),
        challenger: &mut C,
        preprocessing: Option<usize>,
    ) -> Result<(), FriError<M::Error, InputMmcs::Error>>
        requires range { (⟦<Self as Pcs<EF, C>>⟧.rules self.now).InVerifierRange }
        ensures exactly { let r = ⟦<Self as Pcs<EF, C>>⟧.rules self.now in
            result ≢ Err r.out_of_memory → (IsOk result
            ↔ r.Accepts preprocessing challenger.old (map claim claims.items) proof.now) }
        ensures state { let r = ⟦<Self as Pcs<EF, C>>⟧.rules self.now in
            IsOk result → challenger.new
            ≡ r.last_state preprocessing challenger.old (map claim claims.items) proof.now }
        ensures stands { IfErr result ((⟦<Self as Pcs<EF, C>>⟧.rules self.now).IsTrueRefusal
            preprocessing (map claim claims.items) proof.now challenger.old) }
        ensures unmoved { IfErr result (λ e.
            (⟦<Self as Pcs<EF, C>>⟧.rules self.now).LeavesVerifier e
            → challenger.new ≡ challenger.old) }
    {
        let codewords = self.num_random_codewords;
        let random = proof.0.as_slice();
        let setting = HidingVerifierSetting {
            params: &self.fri,
            input_mmcs: &self.mmcs,
            num_random_codewords: codewords,
            preprocessing,
        };
        verify_with_random_values::<F, EF, InputMmcs, M, C>(
            alloc, &setting, claims, random, &proof.1, challenger,
        )
    }

    ghost stark_law = { λ s. hiding_lawful_stark (λ d. d.shift) (λ d. d.log_size)
        (λ proof. opened_values proof.0.items) (λ proof. proof_of proof.1)
        s.num_random_codewords (⟦<C as OpensTwoAdic<F, EF, InputMmcs, M>>⟧.parts s.mmcs s.fri)
        F.from_word };

    ghost rows_law = { λ _ _ _ extends. extends.trace };

    ghost plain_law = { λ plain _. hides plain };

    ghost keeps_stark_law = { λ old new same. same_kept_stark (record old { rng = new.rng }) new
        same (λ s. hiding_stark_rules (λ d. d.shift) (λ d. d.log_size) s.num_random_codewords
        (⟦<C as OpensTwoAdic<F, EF, InputMmcs, M>>⟧.parts s.mmcs s.fri) F.from_word) };
}
