//! The commitment to matrices that are masked, padded or random already.

ghost use Rattle.std.specs.Prelude.{◌≡◌, ◌+◌, ◌^◌, ◌≤◌, length, All, IfOk, IfErr};
ghost use Rattle.p3_matrix.specs.Matrix.{rows};
ghost use Rattle.p3_fri_openings.specs.Held.{HoldsWords};
ghost use Rattle.p3_fri_folding.specs.declared.error.FriProverError.TheVariants.{OutOfMemory};
ghost use Rattle.p3_fri_masks.specs.declared.error.HidingFriProverError.TheVariants.{Fri};
ghost use Rattle.p3_fri_hiding_openings.specs.Data.{IsNew, IsOfScheme};
ghost use Rattle.p3_fri_hiding.specs.Commitments.{AreExtended};

use crate::hiding_pcs::HidingFriPcs;
use p3_dft::TwoAdicSubgroupDft;
use p3_field_core::{ExtensionField, SampleField, TwoAdicField, TwoAdicMultiplicativeCoset};
use p3_fri_extensions::commit_evaluations;
use p3_fri_hiding_openings::{HidingFriPcsProverData, new_prover_data};
use p3_fri_masks::HidingFriProverError;
use p3_fri_relation::setting::ChallengeField;
use p3_matrix::RowMajorMatrix;
use p3_mmcs::Mmcs;
use rand_core::CryptoRng;
use std::alloc::Global;

impl<
    F: TwoAdicField + SampleField,
    Dft: TwoAdicSubgroupDft<F>,
    InputMmcs: Mmcs<F>,
    FriMmcs,
    R: CryptoRng,
> HidingFriPcs<F, Dft, InputMmcs, FriMmcs, R> {
    /// Commits to the extensions of these matrices, each from the domain beside it, as data of this
    /// scheme that no opening has used.
    pub(crate) fn commit_extended<EF: ExtensionField<F>>(
        &self,
        alloc: Global,
        evaluations: Vec<(TwoAdicMultiplicativeCoset<F>, RowMajorMatrix<F>)>,
        preprocessed: bool,
    ) -> Result<
        (
            InputMmcs::Commitment,
            HidingFriPcsProverData<InputMmcs::ProverData>,
        ),
        HidingFriProverError,
    >
        requires heights { All (λ e. length (rows e.1) ≡ 2 ^ e.0.log_size) evaluations.items }
        requires within { All (λ e. e.0.log_size + self.now.fri.log_blowup ≤ F.TWO_ADICITY)
            evaluations.items }
        ensures words { IfOk result (λ pair. AreExtended ⟦<EF as ChallengeField<F>>⟧.fields
            (λ d. d.shift) (λ d. d.log_size) self.now.fri.log_blowup evaluations.items
            (InputMmcs.committed pair.1.inner)) }
        ensures data { IfOk result (λ pair. IsNew self.now.num_random_codewords
            self.now.fri.log_blowup preprocessed pair.1) }
        ensures commitment { IfOk result (λ pair.
            InputMmcs.commitment_of pair.1.inner ≡ pair.0) }
        ensures of_scheme { IfOk result (λ pair. IsOfScheme ⟦<EF as ChallengeField<F>>⟧.fields
            InputMmcs.committed self.now.fri.log_blowup self.now.num_random_codewords pair.1) }
        ensures honest { IfOk result (λ pair.
            All (HoldsWords ⟦<EF as ChallengeField<F>>⟧.fields self.now.fri.log_blowup)
            (InputMmcs.committed pair.1.inner)) }
        ensures refused { IfErr result (λ e. e ≡ Fri OutOfMemory) }
    {
        let log_blowup = self.fri.log_blowup;
        let (commitment, inner) = commit_evaluations(
            &self.dft,
            &self.mmcs,
            alloc,
            log_blowup,
            evaluations,
        )?;
        let codewords = self.num_random_codewords;
        let data = new_prover_data(inner, preprocessed, codewords, log_blowup);
        Ok((commitment, data))
    }
}
