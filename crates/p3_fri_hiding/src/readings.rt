//! Committed columns, read on other domains.

ghost use Rattle.std.specs.Prelude.{◌≡◌, ◌^◌, IfOk, IfErr};
ghost use Rattle.p3_field_core.specs.Coset.{coset_point};
ghost use Rattle.p3_stark_pcs.specs.Evaluations.{HoldsEvaluations, held_at};
ghost use Rattle.p3_fri_folding.specs.declared.error.FriProverError.TheVariants.{OutOfMemory};
ghost use Rattle.p3_fri_masks.specs.declared.error.HidingFriProverError.TheVariants.{Fri};
ghost use Rattle.p3_fri_openings.specs.Held.{held_of};
ghost use Rattle.p3_fri_hiding_openings.specs.Evaluations.{HoldsWordsAt};
ghost use Rattle.p3_fri_hiding_openings.specs.Data.{CanRead, CanReadWhole, shown_polynomials};

use crate::hiding_pcs::HidingFriPcs;
use p3_dft::TwoAdicSubgroupDft;
use p3_field_core::{ExtensionField, SampleField, TwoAdicField, TwoAdicMultiplicativeCoset};
use p3_fri_extensions::evaluations_on_domain;
use p3_fri_hiding_openings::{
    HidingFriPcsProverData, committed_matrices, hidden_columns, without_last_cols,
};
use p3_fri_masks::HidingFriProverError;
use p3_fri_relation::setting::ChallengeField;
use p3_matrix::RowMajorMatrix;
use p3_mmcs::Mmcs;
use rand_core::CryptoRng;
use std::alloc::Global;

impl<
    F: TwoAdicField + SampleField,
    Dft: TwoAdicSubgroupDft<F>,
    InputMmcs: Mmcs<F>,
    FriMmcs,
    R: CryptoRng,
> HidingFriPcs<F, Dft, InputMmcs, FriMmcs, R> {
    /// The values on a domain, in natural order, of the polynomials of one committed matrix,
    /// without the columns that only hide the others. Of preprocessing there are none such.
    ///
    /// # Errors
    ///
    /// `Fri(OutOfMemory)` alone.
    pub fn get_evaluations_on_domain<EF: ExtensionField<F>>(
        &self,
        alloc: Global,
        prover_data: &HidingFriPcsProverData<InputMmcs::ProverData>,
        index: usize,
        domain: TwoAdicMultiplicativeCoset<F>,
    ) -> Result<RowMajorMatrix<F>, HidingFriProverError>
        requires { CanRead ⟦<EF as ChallengeField<F>>⟧.fields InputMmcs.committed
            self.now.fri.log_blowup self.now.num_random_codewords prover_data.now index }
        ensures values { let fields = ⟦<EF as ChallengeField<F>>⟧.fields in
            HoldsWordsAt fields self.now.fri.log_blowup
            (InputMmcs.committed prover_data.now.inner) index
            → IfOk result (HoldsEvaluations EF.lift
            (λ i. EF.lift (coset_point F.ops (F.root domain.log_size) domain.shift i))
            (2 ^ domain.log_size) (held_at (shown_polynomials fields InputMmcs.committed
            self.now.fri.log_blowup self.now.num_random_codewords prover_data.now)
            index).values_at) }
        ensures refused { IfErr result (λ e. e ≡ Fri OutOfMemory) }
    {
        let hidden = hidden_columns(prover_data, self.num_random_codewords);
        let matrices = committed_matrices(&self.mmcs, prover_data);
        let matrix = &matrices[index];
        let log_blowup = self.fri.log_blowup;
        let values = evaluations_on_domain(&self.dft, alloc, log_blowup, domain, matrix)?;
        Ok(without_last_cols(alloc, values, hidden)?)
    }

    /// The same of all columns.
    ///
    /// # Errors
    ///
    /// `Fri(OutOfMemory)` alone.
    pub fn get_evaluations_on_domain_no_random<EF: ExtensionField<F>>(
        &self,
        alloc: Global,
        prover_data: &HidingFriPcsProverData<InputMmcs::ProverData>,
        index: usize,
        domain: TwoAdicMultiplicativeCoset<F>,
    ) -> Result<RowMajorMatrix<F>, HidingFriProverError>
        requires { CanReadWhole ⟦<EF as ChallengeField<F>>⟧.fields InputMmcs.committed
            self.now.fri.log_blowup self.now.num_random_codewords prover_data.now index }
        ensures values { let fields = ⟦<EF as ChallengeField<F>>⟧.fields in
            HoldsWordsAt fields self.now.fri.log_blowup
            (InputMmcs.committed prover_data.now.inner) index
            → IfOk result (HoldsEvaluations EF.lift
            (λ i. EF.lift (coset_point F.ops (F.root domain.log_size) domain.shift i))
            (2 ^ domain.log_size) (held_at (held_of fields InputMmcs.committed
            self.now.fri.log_blowup prover_data.now.inner) index).values_at) }
        ensures refused { IfErr result (λ e. e ≡ Fri OutOfMemory) }
    {
        let matrices = committed_matrices(&self.mmcs, prover_data);
        let matrix = &matrices[index];
        let log_blowup = self.fri.log_blowup;
        Ok(evaluations_on_domain(&self.dft, alloc, log_blowup, domain, matrix)?)
    }
}
