//! The scheme over two-adic fields as a STARK prover uses it, in the Rust crate's names.

ghost use Rattle.std.specs.Prelude.{◌≡◌, ◌≢◌, ◌↔◌, ◌*◌, false, map};
ghost use Rattle.std.specs.Prelude.{IsOk, IfOk, IfErr, Ok, Err, None};
ghost use Rattle.std.specs.List.{AllZip};
ghost use Rattle.p3_field_core.specs.Coset.{coset_point};
ghost use Rattle.p3_pcs.specs.Claims.{claim};
ghost use Rattle.p3_periodic.specs.Values.{IsColumnValue};
ghost use Rattle.p3_stark_pcs.specs.Evaluations.{HasPolynomials};
ghost use Rattle.p3_stark_pcs.specs.Scheme.{same_kept_stark};
ghost use Rattle.p3_fri_folding.specs.declared.error.FriProverError.TheVariants as refusal;
ghost use Rattle.p3_fri_two_adic.specs.Chunks.{polynomials_on, recombined_on};
ghost use Rattle.p3_fri_two_adic.specs.Rules.{two_adic_stark_rules};
ghost use Rattle.p3_fri_two_adic.specs.RuleLaws.{two_adic_lawful_stark, two_adic_plain};

use crate::rules::OpensTwoAdic;
use crate::two_adic_pcs::TwoAdicFriPcs;
use p3_challenger_core::{CanObserve, FieldChallenger, GrindingChallenger};
use p3_dft::TwoAdicSubgroupDft;
use p3_field_core::{PackableExtension, PackableField, TwoAdicField, TwoAdicMultiplicativeCoset};
use p3_fri_extensions::{evaluations_on_domain, extend_each};
use p3_fri_folding::FriProverError;
use p3_fri_relation::error::FriError;
use p3_fri_relation::proof::{BatchMultiOpening, FriProof};
use p3_fri_relation::setting::ChallengeField;
use p3_matrix::RowMajorMatrix;
use p3_mmcs::{CommitmentOpening, Mmcs, OpenedValues};
use p3_pcs::{OpeningRequest, Pcs};
use p3_periodic::{PeriodicError, PeriodicLdeTable, build_periodic_lde_table_two_adic};
use p3_stark_pcs::UnivariateStarkPcs;
use std::alloc::{AllocError, Global};

/// It doesn't hide: what the index of an opening names as preprocessing is opened as all else is,
/// and preprocessed columns are committed to as others are.
///
/// Matrices that are committed to as they are stand on the evaluation coset, in bit-reversed order,
/// at a height from the blowup to the size of the field's greatest subgroup.
impl<
    F: TwoAdicField + PackableField,
    EF: PackableExtension<F>,
    Dft: TwoAdicSubgroupDft<F>,
    InputMmcs: Mmcs<F>,
    M: Mmcs<EF>,
    C: FieldChallenger<F> + GrindingChallenger<Witness = F> + CanObserve<M::Commitment>,
> UnivariateStarkPcs<EF, C> for TwoAdicFriPcs<F, Dft, InputMmcs, M> {
    const ZK: bool = false;

    ghost ZK = { false };

    ghost stark_rules = { λ s. two_adic_stark_rules (λ d. d.shift) (λ d. d.log_size)
        (⟦<C as OpensTwoAdic<F, EF, InputMmcs, M>>⟧.parts s.mmcs s.fri) };

    ghost embed = { EF.lift };

    ghost point = { λ d. coset_point F.ops (F.root d.log_size) d.shift };

    ghost matrices_of = { λ d. InputMmcs.committed d };

    ghost chunk_polynomials = { λ e.
        polynomials_on ⟦<EF as ChallengeField<F>>⟧.fields e.0.shift e.0.log_size e.1 };

    ghost recombined = { λ domains rows z. recombined_on ⟦<EF as ChallengeField<F>>⟧.fields
        (map (λ d. d.log_size) domains) (map (λ d. d.shift) domains) rows z };

    ghost EvaluationRefuses = { λ e. e ≡ refusal.OutOfMemory };

    ghost IsPeriodicValue = { λ trace z. IsColumnValue F.ops F.root trace.log_size z };

    fn log_max_trace_height(&self) -> usize {
        F::TWO_ADICITY
    }

    fn log_min_trace_height(&self) -> usize {
        0
    }

    /// Commits as `commit` does.
    ///
    /// # Errors
    ///
    /// `OutOfMemory` alone.
    fn commit_preprocessing(
        &mut self,
        alloc: Global,
        evaluations: Vec<(TwoAdicMultiplicativeCoset<F>, RowMajorMatrix<F>)>,
    ) -> Result<(InputMmcs::Commitment, InputMmcs::ProverData), FriProverError>
        requires room { (⟦<Self as Pcs<EF, C>>⟧.rules self.old).CanCommit evaluations.items }
        ensures kept { self.new ≡ self.old }
        ensures unchanged { self.new ≡ self.old }
        ensures commitment { let r = ⟦<Self as Pcs<EF, C>>⟧.rules self.new in
            IfOk result (λ pair. r.commitment_of pair.1 ≡ pair.0) }
        ensures openable { let t = ⟦<Self as UnivariateStarkPcs<EF, C>>⟧.stark_rules self.new in
            IfOk result (λ pair. t.CanOpenPreprocessed pair.1) }
        ensures honest { let r = ⟦<Self as Pcs<EF, C>>⟧.rules self.new in
            IfOk result (λ pair. r.IsHonest pair.1) }
        ensures extends { let r = ⟦<Self as Pcs<EF, C>>⟧.rules self.new in IfOk result (λ pair.
            AllZip r.Extends (r.committed_polynomials pair.1) evaluations.items) }
        ensures refused { let t = ⟦<Self as UnivariateStarkPcs<EF, C>>⟧.stark_rules self.old in
            IfErr result (t.PreprocessingRefuses evaluations.items) }
    {
        <Self as Pcs<EF, C>>::commit(self, alloc, evaluations)
    }

    /// The scheme stays as it was.
    ///
    /// # Errors
    ///
    /// `OutOfMemory` alone.
    fn get_quotient_ldes(
        &mut self,
        alloc: Global,
        evaluations: Vec<(TwoAdicMultiplicativeCoset<F>, RowMajorMatrix<F>)>,
        num_chunks: usize,
    ) -> Result<Vec<RowMajorMatrix<F>>, FriProverError>
        requires room { let t = ⟦<Self as UnivariateStarkPcs<EF, C>>⟧.stark_rules self.old in
            t.CanExtend evaluations.items num_chunks }
        ensures kept { self.new ≡ self.old }
        ensures unchanged { self.new ≡ self.old }
        ensures words { let t = ⟦<Self as UnivariateStarkPcs<EF, C>>⟧.stark_rules self.new in
            IfOk result (λ ldes. t.ExtendQuotients evaluations.items ldes.items) }
        ensures sizes { let t = ⟦<Self as UnivariateStarkPcs<EF, C>>⟧.stark_rules self.new in
            let r = ⟦<Self as Pcs<EF, C>>⟧.rules self.new in IfOk result (λ ldes.
            AllZip (λ lde e. (t.polynomials_of lde).size ≡ 1 * r.domain_size e.0)
            ldes.items evaluations.items) }
        ensures chunks { let t = ⟦<Self as UnivariateStarkPcs<EF, C>>⟧.stark_rules self.new in
            let chunk = ⟦<Self as UnivariateStarkPcs<EF, C>>⟧.chunk_polynomials in
            IfOk result (λ ldes. AllZip (λ lde e. HasPolynomials (t.polynomials_of lde) (chunk e))
            ldes.items evaluations.items) }
        ensures recombined { let t = ⟦<Self as UnivariateStarkPcs<EF, C>>⟧.stark_rules self.new in
            let chunk = ⟦<Self as UnivariateStarkPcs<EF, C>>⟧.chunk_polynomials in
            let recombined = ⟦<Self as UnivariateStarkPcs<EF, C>>⟧.recombined in
            IfOk result (λ ldes. (z : EF)
            → recombined (map (λ e. e.0) evaluations.items)
            (map (λ lde. (t.polynomials_of lde).values_at z) ldes.items) z
            ≡ recombined (map (λ e. e.0) evaluations.items)
            (map (λ e. (chunk e).values_at z) evaluations.items) z) }
        ensures committable { let t = ⟦<Self as UnivariateStarkPcs<EF, C>>⟧.stark_rules self.new in
            IfOk result (λ ldes. t.CanCommitLdes ldes.items) }
        ensures low_degree { let t = ⟦<Self as UnivariateStarkPcs<EF, C>>⟧.stark_rules self.new in
            IfOk result (λ ldes. t.AreLdes ldes.items) }
        ensures refused { let t = ⟦<Self as UnivariateStarkPcs<EF, C>>⟧.stark_rules self.old in
            IfErr result (t.QuotientsRefuse evaluations.items) }
    {
        match extend_each(&self.dft, alloc, self.fri.log_blowup, evaluations) {
            Ok(ldes) => Ok(ldes),
            Err(AllocError) => Err(FriProverError::OutOfMemory),
        }
    }

    /// The matrices are committed to as they are.
    ///
    /// # Errors
    ///
    /// `OutOfMemory` alone.
    fn commit_ldes(
        &self,
        alloc: Global,
        ldes: Vec<RowMajorMatrix<F>>,
    ) -> Result<(InputMmcs::Commitment, InputMmcs::ProverData), FriProverError>
        requires room { let t = ⟦<Self as UnivariateStarkPcs<EF, C>>⟧.stark_rules self.now in
            t.CanCommitLdes ldes.items }
        ensures matrices { let matrices_of = ⟦<Self as UnivariateStarkPcs<EF, C>>⟧.matrices_of in
            IfOk result (λ pair. matrices_of pair.1 ≡ ldes.items) }
        ensures commitment { let r = ⟦<Self as Pcs<EF, C>>⟧.rules self.now in
            IfOk result (λ pair. r.commitment_of pair.1 ≡ pair.0) }
        ensures polynomials { let t = ⟦<Self as UnivariateStarkPcs<EF, C>>⟧.stark_rules self.now in
            let r = ⟦<Self as Pcs<EF, C>>⟧.rules self.now in
            IfOk result (λ pair. r.committed_polynomials pair.1 ≡ map t.polynomials_of ldes.items) }
        ensures openable { let r = ⟦<Self as Pcs<EF, C>>⟧.rules self.now in
            IfOk result (λ pair. r.CanOpen pair.1) }
        ensures readable { let t = ⟦<Self as UnivariateStarkPcs<EF, C>>⟧.stark_rules self.now in
            IfOk result (λ pair. t.IsReadable pair.1) }
        ensures honest { let t = ⟦<Self as UnivariateStarkPcs<EF, C>>⟧.stark_rules self.now in
            let r = ⟦<Self as Pcs<EF, C>>⟧.rules self.now in
            t.AreLdes ldes.items → IfOk result (λ pair. r.IsHonest pair.1) }
        ensures refused { let t = ⟦<Self as UnivariateStarkPcs<EF, C>>⟧.stark_rules self.now in
            IfErr result (t.LdesRefuse ldes.items) }
    {
        match self.mmcs.commit(alloc, ldes) {
            Ok(committed) => Ok(committed),
            Err(AllocError) => Err(FriProverError::OutOfMemory),
        }
    }

    /// The values of all columns, since none is random.
    ///
    /// # Errors
    ///
    /// `OutOfMemory` alone.
    fn get_evaluations_on_domain(
        &self,
        alloc: Global,
        prover_data: &InputMmcs::ProverData,
        index: usize,
        domain: TwoAdicMultiplicativeCoset<F>,
    ) -> Result<RowMajorMatrix<F>, FriProverError> {
        let matrices = self.mmcs.get_matrices(prover_data);
        let matrix = &matrices[index];
        match evaluations_on_domain(&self.dft, alloc, self.fri.log_blowup, domain, matrix) {
            Ok(values) => Ok(values),
            Err(AllocError) => Err(FriProverError::OutOfMemory),
        }
    }

    /// The same as `get_evaluations_on_domain`.
    ///
    /// # Errors
    ///
    /// `OutOfMemory` alone.
    fn get_evaluations_on_domain_no_random(
        &self,
        alloc: Global,
        prover_data: &InputMmcs::ProverData,
        index: usize,
        domain: TwoAdicMultiplicativeCoset<F>,
    ) -> Result<RowMajorMatrix<F>, FriProverError> {
        <Self as UnivariateStarkPcs<EF, C>>::get_evaluations_on_domain(
            self,
            alloc,
            prover_data,
            index,
            domain,
        )
    }

    /// A transform is made for each distinct length of a column. Of the trace's domain only the
    /// size is read.
    ///
    /// # Errors
    ///
    /// `NotPowerOfTwo` or `DoesNotDivide` of the first column whose length is refused, and
    /// `OutOfMemory` where all lengths fit.
    #[tactic(auto, using(p3_field_core::proofs::IndexPowers::exponent_at_most))]
    fn build_periodic_lde_table(
        &self,
        alloc: Global,
        periodic_table: &[Vec<F>],
        trace_domain: TwoAdicMultiplicativeCoset<F>,
        quotient_domain: TwoAdicMultiplicativeCoset<F>,
    ) -> Result<PeriodicLdeTable<F>, PeriodicError> {
        build_periodic_lde_table_two_adic(
            alloc,
            &self.dft,
            periodic_table,
            &trace_domain,
            &quotient_domain,
        )
    }

    /// There is none, and it isn't refused.
    fn get_opt_randomization_poly_commitment(
        &mut self,
        _alloc: Global,
        _domains: Vec<TwoAdicMultiplicativeCoset<F>>,
    ) -> Result<Option<(InputMmcs::Commitment, InputMmcs::ProverData)>, FriProverError>
        ensures kept { self.new ≡ self.old }
        ensures unchanged { self.new ≡ self.old }
        ensures none { result ≡ Ok None }
    {
        Ok(None)
    }

    /// Opens as `open` does, whatever the index is.
    ///
    /// # Errors
    ///
    /// As of `open`.
    fn open_with_preprocessing(
        &self,
        alloc: Global,
        requests: &mut [OpeningRequest<'_, InputMmcs::ProverData, EF>],
        challenger: &mut C,
        _preprocessing: Option<usize>,
    ) -> Result<
        (
            OpenedValues<EF>,
            FriProof<EF, M, F, Vec<BatchMultiOpening<F, InputMmcs>>>,
        ),
        FriProverError,
    > {
        <Self as Pcs<EF, C>>::open(self, alloc, requests, challenger)
    }

    /// Verifies as `verify` does, whatever the index is.
    ///
    /// # Errors
    ///
    /// As of `verify`.
    fn verify_with_preprocessing(
        &self,
        alloc: Global,
        claims: Vec<CommitmentOpening<EF, InputMmcs::Commitment, TwoAdicMultiplicativeCoset<F>>>,
        proof: &FriProof<EF, M, F, Vec<BatchMultiOpening<F, InputMmcs>>>,
        challenger: &mut C,
        preprocessing: Option<usize>,
    ) -> Result<(), FriError<M::Error, InputMmcs::Error>>
        requires range { (⟦<Self as Pcs<EF, C>>⟧.rules self.now).InVerifierRange }
        ensures exactly { let r = ⟦<Self as Pcs<EF, C>>⟧.rules self.now in
            result ≢ Err r.out_of_memory → (IsOk result
            ↔ r.Accepts preprocessing challenger.old (map claim claims.items) proof.now) }
        ensures state { let r = ⟦<Self as Pcs<EF, C>>⟧.rules self.now in
            IsOk result → challenger.new
            ≡ r.last_state preprocessing challenger.old (map claim claims.items) proof.now }
        ensures stands { IfErr result ((⟦<Self as Pcs<EF, C>>⟧.rules self.now).IsTrueRefusal
            preprocessing (map claim claims.items) proof.now challenger.old) }
        ensures unmoved { IfErr result (λ e.
            (⟦<Self as Pcs<EF, C>>⟧.rules self.now).LeavesVerifier e
            → challenger.new ≡ challenger.old) }
    {
        <Self as Pcs<EF, C>>::verify(self, alloc, claims, proof, challenger)
    }

    ghost stark_law = { λ s. two_adic_lawful_stark
        (λ d. d.shift) (λ d. d.log_size)
        (⟦<C as OpensTwoAdic<F, EF, InputMmcs, M>>⟧.parts s.mmcs s.fri) };

    ghost rows_law = { λ _ _ _ extends. extends.have_rows };

    ghost plain_law = { λ _ s. two_adic_plain
        (λ d. d.shift) (λ d. d.log_size)
        (⟦<C as OpensTwoAdic<F, EF, InputMmcs, M>>⟧.parts s.mmcs s.fri) };

    ghost keeps_stark_law = { λ old new same. same_kept_stark old new same
        (λ s. two_adic_stark_rules (λ d. d.shift) (λ d. d.log_size)
        (⟦<C as OpensTwoAdic<F, EF, InputMmcs, M>>⟧.parts s.mmcs s.fri)) };
}
