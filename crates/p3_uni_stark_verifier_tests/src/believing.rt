//! A scheme for tests: an opening is accepted of as many claims as its proof says. It commits to
//! nothing and opens nothing.

ghost use Rattle.std.specs.Prelude.{◌≡◌, ◌≢◌, ◌↔◌, ⊤, [], map};
ghost use Rattle.std.specs.Prelude.{IsOk, IfOk, IfErr, Err};
ghost use Rattle.std.specs.Prelude.{IsSome, IfSome, None, if◌then◌else◌, ◌*◌};
ghost use Rattle.p3_stark_pcs.specs.Evaluations.{HasPolynomials, HasShape};
ghost use Rattle.std.specs.List.{AllZip};
ghost use Rattle.p3_field_core.specs.Coset.{coset_point};
ghost use Rattle.p3_pcs.specs.Claims.{claim};
ghost use Rattle.p3_pcs.specs.Scheme.{still_kept};
ghost use Rattle.p3_periodic.specs.Values.{IsColumnValue};
ghost use Rattle.p3_uni_stark_verifier_tests.specs.Believing.{believing_rules, believing_lawful};
ghost use Rattle.p3_uni_stark_verifier_tests.specs.Believing.{believing_stark_rules};
ghost use Rattle.p3_uni_stark_verifier_tests.specs.Believing.{no_polynomials};
ghost use Rattle.p3_uni_stark_verifier_tests.specs.Believing.{believing_lawful_stark};
ghost use Rattle.p3_uni_stark_verifier_tests.specs.Believing.{believing_plain, stark_kept};

use crate::belief::{Belief, Disbelief, NoProver};
use p3_dft::TwoAdicSubgroupDft;
use p3_field_core::{ExtensionField, TwoAdicField, TwoAdicMultiplicativeCoset};
use p3_matrix::RowMajorMatrix;
use p3_mmcs::{CommitmentOpening, OpenedValues};
use p3_pcs::{OpeningRequest, Pcs};
use p3_periodic::{PeriodicError, PeriodicLdeTable, build_periodic_lde_table_two_adic};
use p3_stark_pcs::UnivariateStarkPcs;
use std::alloc::Global;
use std::marker::PhantomData;

/// Hides, or doesn't.
#[derive(Drop)]
pub struct Believing<F, Dft, const HIDES: bool> {
    pub dft: Dft,
    pub field: PhantomData<F>,
}

impl<F: TwoAdicField, EF: ExtensionField<F>, Dft: TwoAdicSubgroupDft<F>, C, const HIDES: bool> Pcs<
    EF,
    C,
> for Believing<F, Dft, HIDES> {
    type Val = F;

    type Domain = TwoAdicMultiplicativeCoset<F>;

    type Commitment = [u8; 32];

    type ProverData = [u8; 32];

    type Proof = Belief;

    type Error = Disbelief;

    type ProverError = NoProver;

    ghost rules = { λ _. believing_rules (λ d. d.log_size) };

    ghost Keeps = { λ _ _. ⊤ };

    fn natural_domain_for_degree(&self, degree: usize) -> TwoAdicMultiplicativeCoset<F> {
        TwoAdicMultiplicativeCoset {
            shift: F::ONE,
            log_size: 0,
        }
    }

    fn commit(
        &mut self,
        alloc: Global,
        evaluations: Vec<(TwoAdicMultiplicativeCoset<F>, RowMajorMatrix<F>)>,
    ) -> Result<([u8; 32], [u8; 32]), NoProver>
        requires room { (⟦<Self as Pcs<EF, C>>⟧.rules self.old).CanCommit evaluations.items }
        ensures kept { ⟦<Self as Pcs<EF, C>>⟧.Keeps self.old self.new }
        ensures commitment { let r = ⟦<Self as Pcs<EF, C>>⟧.rules self.new in
            IfOk result (λ pair. r.commitment_of pair.1 ≡ pair.0) }
        ensures openable { let r = ⟦<Self as Pcs<EF, C>>⟧.rules self.new in IfOk result (λ pair.
            r.CanOpen pair.1) }
        ensures honest { let r = ⟦<Self as Pcs<EF, C>>⟧.rules self.new in IfOk result (λ pair.
            r.IsHonest pair.1) }
        ensures extends { let r = ⟦<Self as Pcs<EF, C>>⟧.rules self.new in IfOk result (λ pair.
            AllZip r.Extends (r.committed_polynomials pair.1) evaluations.items) }
        ensures refused { IfErr result ((⟦<Self as Pcs<EF, C>>⟧.rules self.old).CommitRefuses
            evaluations.items) }
    {
        Err(NoProver {})
    }

    fn open(
        &self,
        alloc: Global,
        requests: &mut [OpeningRequest<'_, [u8; 32], EF>],
        challenger: &mut C,
    ) -> Result<(OpenedValues<EF>, Belief), NoProver> {
        Err(NoProver {})
    }

    fn verify(
        &self,
        alloc: Global,
        claims: Vec<CommitmentOpening<EF, [u8; 32], TwoAdicMultiplicativeCoset<F>>>,
        proof: &Belief,
        challenger: &mut C,
    ) -> Result<(), Disbelief>
        requires range { (⟦<Self as Pcs<EF, C>>⟧.rules self.now).InVerifierRange }
        ensures exactly { let r = ⟦<Self as Pcs<EF, C>>⟧.rules self.now in result ≢ Err
            r.out_of_memory
            → (IsOk result ↔ r.Accepts None challenger.old (map claim claims.items) proof.now) }
        ensures state { IsOk result → challenger.new ≡ (⟦<Self as Pcs<EF, C>>⟧.rules
            self.now).last_state None
            challenger.old (map claim claims.items) proof.now }
        ensures stands { IfErr result ((⟦<Self as Pcs<EF, C>>⟧.rules self.now).IsTrueRefusal None
            (map claim claims.items) proof.now challenger.old) }
        ensures unmoved { IfErr result (λ e.
            (⟦<Self as Pcs<EF, C>>⟧.rules self.now).LeavesVerifier e → challenger.new ≡
            challenger.old) }
    {
        if claims.len() != proof.claims {
            return Err(Disbelief::WrongCount);
        }
        Ok(())
    }

    ghost keeps_itself_law = { λ _. tt };

    ghost keeps_law = { λ _ _ _. still_kept (believing_rules (λ d. d.log_size)) };

    ghost rules_law = { λ _. believing_lawful (λ d. d.log_size) };
}

impl<
    F: TwoAdicField,
    EF: ExtensionField<F>,
    Dft: TwoAdicSubgroupDft<F>,
    C,
    const HIDES: bool,
> UnivariateStarkPcs<EF, C> for Believing<F, Dft, HIDES> {
    const ZK: bool = HIDES;

    ghost ZK = { HIDES };

    ghost stark_rules = { λ _. believing_stark_rules };

    ghost embed = { EF.lift };

    ghost point = { λ d. coset_point F.ops (F.root d.log_size) d.shift };

    ghost matrices_of = { λ _. [] };

    ghost chunk_polynomials = { λ _. no_polynomials };

    ghost recombined = { λ _ _ _. [] };

    ghost EvaluationRefuses = { λ _. ⊤ };

    ghost IsPeriodicValue = { λ trace z. IsColumnValue F.ops F.root trace.log_size z };

    fn log_max_trace_height(&self) -> usize {
        0
    }

    fn log_min_trace_height(&self) -> usize {
        0
    }

    fn commit_preprocessing(
        &mut self,
        alloc: Global,
        evaluations: Vec<(TwoAdicMultiplicativeCoset<F>, RowMajorMatrix<F>)>,
    ) -> Result<([u8; 32], [u8; 32]), NoProver>
        requires room { (⟦<Self as Pcs<EF, C>>⟧.rules self.old).CanCommit evaluations.items }
        ensures kept { ⟦<Self as Pcs<EF, C>>⟧.Keeps self.old self.new }
        ensures unchanged { self.new ≡ self.old }
        ensures commitment { let r = ⟦<Self as Pcs<EF, C>>⟧.rules self.new in
            IfOk result (λ pair. r.commitment_of pair.1 ≡ pair.0) }
        ensures openable { let t = ⟦<Self as UnivariateStarkPcs<EF, C>>⟧.stark_rules self.new in
            IfOk result (λ pair. t.CanOpenPreprocessed pair.1) }
        ensures honest { let r = ⟦<Self as Pcs<EF, C>>⟧.rules self.new in IfOk result (λ pair.
            r.IsHonest pair.1) }
        ensures extends { let r = ⟦<Self as Pcs<EF, C>>⟧.rules self.new in IfOk result (λ pair.
            AllZip r.Extends (r.committed_polynomials pair.1) evaluations.items) }
        ensures refused { let t = ⟦<Self as UnivariateStarkPcs<EF, C>>⟧.stark_rules self.old in
            IfErr result (t.PreprocessingRefuses evaluations.items) }
    {
        Err(NoProver {})
    }

    fn get_quotient_ldes(
        &mut self,
        alloc: Global,
        evaluations: Vec<(TwoAdicMultiplicativeCoset<F>, RowMajorMatrix<F>)>,
        num_chunks: usize,
    ) -> Result<Vec<RowMajorMatrix<F>>, NoProver>
        requires room { (⟦<Self as UnivariateStarkPcs<EF, C>>⟧.stark_rules self.old).CanExtend
            evaluations.items num_chunks }
        ensures kept { ⟦<Self as Pcs<EF, C>>⟧.Keeps self.old self.new }
        ensures unchanged { self.new ≡ self.old }
        ensures words { let t = ⟦<Self as UnivariateStarkPcs<EF, C>>⟧.stark_rules self.new in
            IfOk result (λ ldes. t.ExtendQuotients evaluations.items ldes.items) }
        ensures sizes { let t = ⟦<Self as UnivariateStarkPcs<EF, C>>⟧.stark_rules self.new in let r
            = ⟦<Self as Pcs<EF, C>>⟧.rules self.new in
            IfOk result (λ ldes. AllZip (λ lde e. (t.polynomials_of lde).size
            ≡ (if HIDES then 2 else 1) * r.domain_size e.0) ldes.items evaluations.items) }
        ensures chunks { let t = ⟦<Self as UnivariateStarkPcs<EF, C>>⟧.stark_rules self.new in
            let chunk = ⟦<Self as UnivariateStarkPcs<EF, C>>⟧.chunk_polynomials in
            IfOk result (λ ldes. AllZip (λ lde e. HasPolynomials (t.polynomials_of lde) (chunk e))
            ldes.items evaluations.items) }
        ensures recombined { let t = ⟦<Self as UnivariateStarkPcs<EF, C>>⟧.stark_rules self.new in
            let chunk = ⟦<Self as UnivariateStarkPcs<EF, C>>⟧.chunk_polynomials in let recombined =
            ⟦<Self as UnivariateStarkPcs<EF, C>>⟧.recombined in
            IfOk result (λ ldes. (z : EF) → recombined (map (λ e. e.0) evaluations.items)
            (map (λ lde. (t.polynomials_of lde).values_at z) ldes.items) z
            ≡ recombined (map (λ e. e.0) evaluations.items)
            (map (λ e. (chunk e).values_at z) evaluations.items) z) }
        ensures committable { let t = ⟦<Self as UnivariateStarkPcs<EF, C>>⟧.stark_rules self.new in
            IfOk result (λ ldes. t.CanCommitLdes ldes.items) }
        ensures openable { let t = ⟦<Self as UnivariateStarkPcs<EF, C>>⟧.stark_rules self.new in
            IfOk result (λ ldes. t.CanOpenLdes ldes.items) }
        ensures low_degree { let t = ⟦<Self as UnivariateStarkPcs<EF, C>>⟧.stark_rules self.new in
            IfOk result (λ ldes. t.AreLdes ldes.items) }
        ensures refused { let t = ⟦<Self as UnivariateStarkPcs<EF, C>>⟧.stark_rules self.old in
            IfErr result (t.QuotientsRefuse evaluations.items) }
    {
        Err(NoProver {})
    }

    fn commit_ldes(
        &self,
        alloc: Global,
        ldes: Vec<RowMajorMatrix<F>>,
    ) -> Result<([u8; 32], [u8; 32]), NoProver>
        requires room { (⟦<Self as UnivariateStarkPcs<EF, C>>⟧.stark_rules self.now).CanCommitLdes
            ldes.items }
        ensures matrices { let matrices_of = ⟦<Self as UnivariateStarkPcs<EF, C>>⟧.matrices_of in
            IfOk result (λ pair. matrices_of pair.1 ≡ ldes.items) }
        ensures commitment { let r = ⟦<Self as Pcs<EF, C>>⟧.rules self.now in
            IfOk result (λ pair. r.commitment_of pair.1 ≡ pair.0) }
        ensures polynomials { let t = ⟦<Self as UnivariateStarkPcs<EF, C>>⟧.stark_rules self.now in
            let r = ⟦<Self as Pcs<EF, C>>⟧.rules self.now in
            IfOk result (λ pair. r.committed_polynomials pair.1 ≡ map t.polynomials_of ldes.items) }
        ensures openable { let r = ⟦<Self as Pcs<EF, C>>⟧.rules self.now in IfOk result (λ pair.
            r.CanOpen pair.1) }
        ensures readable { let t = ⟦<Self as UnivariateStarkPcs<EF, C>>⟧.stark_rules self.now in
            IfOk result (λ pair. t.IsReadable pair.1) }
        ensures honest { let r = ⟦<Self as Pcs<EF, C>>⟧.rules self.now in IfOk result (λ pair.
            r.IsHonest pair.1) }
        ensures refused { let t = ⟦<Self as UnivariateStarkPcs<EF, C>>⟧.stark_rules self.now in
            IfErr result (t.LdesRefuse ldes.items) }
    {
        Err(NoProver {})
    }

    fn get_evaluations_on_domain(
        &self,
        alloc: Global,
        prover_data: &[u8; 32],
        index: usize,
        domain: TwoAdicMultiplicativeCoset<F>,
    ) -> Result<RowMajorMatrix<F>, NoProver> {
        Err(NoProver {})
    }

    fn get_evaluations_on_domain_no_random(
        &self,
        alloc: Global,
        prover_data: &[u8; 32],
        index: usize,
        domain: TwoAdicMultiplicativeCoset<F>,
    ) -> Result<RowMajorMatrix<F>, NoProver> {
        Err(NoProver {})
    }

    fn build_periodic_lde_table(
        &self,
        alloc: Global,
        periodic_table: &[Vec<F>],
        trace_domain: TwoAdicMultiplicativeCoset<F>,
        quotient_domain: TwoAdicMultiplicativeCoset<F>,
    ) -> Result<PeriodicLdeTable<F>, PeriodicError> {
        build_periodic_lde_table_two_adic(
            alloc,
            &self.dft,
            periodic_table,
            &trace_domain,
            &quotient_domain,
        )
    }

    fn get_opt_randomization_poly_commitment(
        &mut self,
        alloc: Global,
        domains: Vec<TwoAdicMultiplicativeCoset<F>>,
    ) -> Result<Option<([u8; 32], [u8; 32])>, NoProver>
        requires room { (⟦<Self as UnivariateStarkPcs<EF, C>>⟧.stark_rules self.old).CanRandomize
            domains.items }
        ensures kept { ⟦<Self as Pcs<EF, C>>⟧.Keeps self.old self.new }
        ensures unchanged { self.new ≡ self.old }
        ensures none { IfOk result (λ found. found ≡ None) }
        ensures some { IfOk result (λ found. IsSome found) }
        ensures commitment { let r = ⟦<Self as Pcs<EF, C>>⟧.rules self.new in IfOk result (λ found.
            IfSome found (λ pair. r.commitment_of pair.1 ≡ pair.0)) }
        ensures openable { let r = ⟦<Self as Pcs<EF, C>>⟧.rules self.new in
            IfOk result (λ found. IfSome found (λ pair. r.CanOpen pair.1)) }
        ensures honest { let r = ⟦<Self as Pcs<EF, C>>⟧.rules self.new in
            IfOk result (λ found. IfSome found (λ pair. r.IsHonest pair.1)) }
        ensures random { let t = ⟦<Self as UnivariateStarkPcs<EF, C>>⟧.stark_rules self.new in let r
            = ⟦<Self as Pcs<EF, C>>⟧.rules self.new in
            IfOk result (λ found. IfSome found (λ pair.
            AllZip (λ m d. HasShape (r.domain_size d) t.random_columns m)
            (r.committed_polynomials pair.1) domains.items)) }
        ensures refused { let t = ⟦<Self as UnivariateStarkPcs<EF, C>>⟧.stark_rules self.old in
            IfErr result (t.RandomizationRefuses domains.items) }
    {
        Err(NoProver {})
    }

    fn open_with_preprocessing(
        &self,
        alloc: Global,
        requests: &mut [OpeningRequest<'_, [u8; 32], EF>],
        challenger: &mut C,
        preprocessing: Option<usize>,
    ) -> Result<(OpenedValues<EF>, Belief), NoProver> {
        Err(NoProver {})
    }

    fn verify_with_preprocessing(
        &self,
        alloc: Global,
        claims: Vec<CommitmentOpening<EF, [u8; 32], TwoAdicMultiplicativeCoset<F>>>,
        proof: &Belief,
        challenger: &mut C,
        preprocessing: Option<usize>,
    ) -> Result<(), Disbelief>
        requires range { (⟦<Self as Pcs<EF, C>>⟧.rules self.now).InVerifierRange }
        ensures exactly { let r = ⟦<Self as Pcs<EF, C>>⟧.rules self.now in result ≢ Err
            r.out_of_memory → (IsOk result
            ↔ r.Accepts preprocessing challenger.old (map claim claims.items) proof.now) }
        ensures state { IsOk result → challenger.new ≡ (⟦<Self as Pcs<EF, C>>⟧.rules
            self.now).last_state preprocessing
            challenger.old (map claim claims.items) proof.now }
        ensures stands { IfErr result ((⟦<Self as Pcs<EF, C>>⟧.rules self.now).IsTrueRefusal
            preprocessing
            (map claim claims.items) proof.now challenger.old) }
        ensures unmoved { IfErr result (λ e.
            (⟦<Self as Pcs<EF, C>>⟧.rules self.now).LeavesVerifier e → challenger.new ≡
            challenger.old) }
    {
        <Self as Pcs<EF, C>>::verify(self, alloc, claims, proof, challenger)
    }

    ghost stark_law = { λ _. believing_lawful_stark (λ d. d.log_size) };

    ghost rows_law = { λ _ _ _ h. absurd h };

    ghost plain_law = { λ _ _. believing_plain (λ d. d.log_size) };

    ghost keeps_stark_law = { λ _ _ _. stark_kept };
}
