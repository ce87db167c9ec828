//! What is made before the challenger is touched.

ghost use Rattle.std.specs.Prelude.{◌≡◌, All, IfOk, map};
ghost use Rattle.p3_challenger_fs.specs.Pattern.{turn_of};
ghost use Rattle.p3_challenger_fs.specs.Separator.{seed_bytes, seed_turns};
ghost use Rattle.p3_pcs.specs.Claims.{opened_values};
ghost use Rattle.p3_fri_pcs_transcript.specs.Counts.{counts_of_values};
ghost use Rattle.p3_fri_pcs_transcript.specs.Shapes.{pcs_shape};
ghost use Rattle.p3_fri_pcs_transcript.specs.Steps.{pcs_steps, pcs_stream};
ghost use Rattle.p3_fri_openings.specs.Rounds.{IsRound};
ghost use Rattle.p3_fri_openings.specs.Refusals.{ArePointsOff};
ghost use Rattle.p3_fri_openings.specs.Denominators.{AreInverses, ArePointsCovered};
ghost use Rattle.p3_fri_openings.specs.Opened.{values_asked};

use p3_challenger_fs::Seed;
use p3_field_core::{ExtensionField, TwoAdicField};
use p3_fri_folding::FriParameters;
use p3_fri_openings::{Denominators, OpeningRound, denominators_of_rounds, open_values};
use p3_fri_pcs_transcript::PcsShape;
use p3_fri_relation::setting::ChallengeField;
use p3_mmcs::OpenedValues;
use std::alloc::{AllocError, Global};

/// What an opening's transcript begins with.
#[derive(Drop)]
pub(crate) struct Prepared<F, EF> {
    /// The inverse differences of all points.
    pub denominators: Denominators<F, EF>,
    /// The values of the committed polynomials.
    pub values: OpenedValues<EF>,
    /// The shape of the transcript.
    pub shape: PcsShape,
    /// The shape's seed.
    pub seed: Seed,
}

/// The values of the committed polynomials at all points, with what divides their openings, and the
/// transcript's seed. No point lies in its matrix's coset.
pub(crate) fn prepare<F: TwoAdicField, EF: ExtensionField<F>, M>(
    alloc: Global,
    params: &FriParameters<M>,
    rounds: &[OpeningRound<'_, F, EF>],
) -> Result<Prepared<F, EF>, AllocError>
    requires rounds { All (IsRound F.TWO_ADICITY) rounds.now }
    requires off { All (ArePointsOff ⟦<EF as ChallengeField<F>>⟧.fields) rounds.now }
    ensures inverses { IfOk result (λ prepared.
        All (AreInverses ⟦<EF as ChallengeField<F>>⟧.fields) prepared.denominators.entries.items) }
    ensures covered { IfOk result (λ prepared.
        All (ArePointsCovered prepared.denominators.entries.items) rounds.now) }
    ensures values { IfOk result (λ prepared. opened_values prepared.values.items ≡ map
        (values_asked ⟦<EF as ChallengeField<F>>⟧.fields params.now.log_blowup) rounds.now) }
    ensures shape { IfOk result (λ prepared. pcs_shape prepared.shape ≡ record {
      counts = counts_of_values prepared.values.items;
      batch_pow_bits = params.now.batch_proof_of_work_bits;
    }) }
    ensures stream { IfOk result (λ prepared.
        seed_bytes prepared.seed ≡ pcs_stream EF.DIMENSION (pcs_shape prepared.shape)) }
    ensures turns { IfOk result (λ prepared. seed_turns prepared.seed
        ≡ map turn_of (pcs_steps EF.DIMENSION (pcs_shape prepared.shape))) }
{
    let denominators = denominators_of_rounds(alloc, rounds)?;
    let values = open_values(alloc, params.log_blowup, rounds, &denominators)?;
    let shape = PcsShape::from_opened_values(alloc, params, &values)?;
    let seed = shape.seed::<F, EF>(alloc)?;
    Ok(Prepared {
        denominators,
        values,
        shape,
        seed,
    })
}
