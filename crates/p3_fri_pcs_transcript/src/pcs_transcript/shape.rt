//! What the transcript exchanges.

ghost use Rattle.std.specs.Prelude.{◌≡◌, ◌-◌, ◌^◌, min, IfOk, length, map, codes};
ghost use Rattle.p3_challenger_fs.specs.Pattern.{turn_of};
ghost use Rattle.p3_challenger_fs.specs.Separator.{description, seed_bytes, seed_turns};
ghost use Rattle.p3_fri_pcs_transcript.specs.Counts.{counts_of_values, counts_of_claims};

use crate::labels::{ALPHA, BATCH_POW, LOW_DEGREE_TEST, NAME, VERSION};
use crate::pcs_transcript::counts::{clone_counts, count_claims, count_values, number_of_points};
use crate::pcs_transcript::description::{push_claims, push_grouping};
use p3_challenger_fs::{
    DomainSeparator, Hierarchy, Interaction, InteractionPattern, Kind, Length, Seed,
};
use p3_field_core::{ExtensionField, Field};
use p3_fri_pow::steps::push_pow;
use p3_fri_transcript::FriParameters;
use p3_mmcs::{CommitmentWithOpeningPoints, OpenedValues};
use std::alloc::{AllocError, Global};

/// The numbers that fix the transcript. Both sides make it from what they hold: the prover from the
/// values that it opens, the verifier from the claims that it was handed.
#[derive(Debug, PartialEq, Eq, Drop)]
pub struct PcsShape {
    /// How many values are claimed at each point, by commitment, matrix and point.
    pub claimed_evaluation_counts: Vec<Vec<Vec<usize>>>,
    /// Bits of proof of work before the challenge that batches the openings.
    pub batch_pow_bits: usize,
}

#[tactic(auto, unfolding(crate::specs::Shapes::pcs_shape))]
impl PcsShape {
    ghost use Rattle.p3_challenger_fs.specs.Pattern.{pattern_steps};
    ghost use Rattle.p3_fri_pcs_transcript.specs.Shapes.{pcs_shape};
    ghost use Rattle.p3_fri_pcs_transcript.specs.Steps.{widths, pcs_steps, pcs_labels, pcs_stream};

    /// The shape with the numbers of these values.
    pub fn from_opened_values<EF, M>(
        alloc: Global,
        parameters: &FriParameters<M>,
        opened_values: &OpenedValues<EF>,
    ) -> Result<PcsShape, AllocError>
        ensures { IfOk result (λ shape. pcs_shape shape ≡ record {
          counts = counts_of_values opened_values.now.items;
          batch_pow_bits = parameters.now.batch_proof_of_work_bits;
        }) }
    {
        let claimed_evaluation_counts = count_values(alloc, opened_values)?;
        Ok(PcsShape {
            claimed_evaluation_counts,
            batch_pow_bits: parameters.batch_proof_of_work_bits,
        })
    }

    /// The shape with the numbers of values of these claims.
    pub fn from_claims<EF, Com, Domain, M>(
        alloc: Global,
        parameters: &FriParameters<M>,
        claims: &[CommitmentWithOpeningPoints<EF, Com, Domain>],
    ) -> Result<PcsShape, AllocError>
        ensures { IfOk result (λ shape. pcs_shape shape ≡ record {
          counts = counts_of_claims claims.now;
          batch_pow_bits = parameters.now.batch_proof_of_work_bits;
        }) }
    {
        let claimed_evaluation_counts = count_claims(alloc, claims)?;
        Ok(PcsShape {
            claimed_evaluation_counts,
            batch_pow_bits: parameters.batch_proof_of_work_bits,
        })
    }

    /// The number of openings, which are triples of a commitment, a matrix and a point, or the
    /// greatest number where that is greater.
    pub fn num_openings(&self) -> usize
        ensures { result ≡ min (length (widths (pcs_shape self.now).counts)) (2 ^ 64 - 1) }
    {
        number_of_points(&self.claimed_evaluation_counts)
    }

    /// The same shape once more.
    pub fn clone(&self, alloc: Global) -> Result<PcsShape, AllocError>
        ensures { IfOk result (λ shape. pcs_shape shape ≡ pcs_shape self.now) }
    {
        let claimed_evaluation_counts = clone_counts(alloc, &self.claimed_evaluation_counts)?;
        Ok(PcsShape {
            claimed_evaluation_counts,
            batch_pow_bits: self.batch_pow_bits,
        })
    }

    /// The steps of the transcript, with challenges from the extension `EF` of `F`.
    pub fn pattern<F: Field, EF: ExtensionField<F>>(
        &self,
        alloc: Global,
    ) -> Result<InteractionPattern, AllocError>
        ensures { IfOk result (λ pattern.
            pattern_steps pattern ≡ pcs_steps EF.DIMENSION (pcs_shape self.now)) }
    {
        let openings = number_of_points(&self.claimed_evaluation_counts);
        let mut steps = Vec::with_capacity(alloc, openings.saturating_add(4))?;
        push_claims::<F, EF>(&mut steps, &self.claimed_evaluation_counts)?;
        push_pow::<F>(&mut steps, BATCH_POW, self.batch_pow_bits)?;
        steps.push(Interaction::algebra::<F, EF>(
            Hierarchy::Atomic,
            Kind::Challenge,
            ALPHA,
            Length::Scalar,
        ))?;
        steps.push(Interaction::marker(Hierarchy::Begin, Kind::Protocol, LOW_DEGREE_TEST))?;
        steps.push(Interaction::marker(Hierarchy::End, Kind::Protocol, LOW_DEGREE_TEST))?;
        Ok(InteractionPattern::new(steps))
    }

    /// What the transcript is bound to: the protocol, its steps, and how its points are grouped.
    pub fn domain_separator<F: Field, EF: ExtensionField<F>>(
        &self,
        alloc: Global,
    ) -> Result<DomainSeparator, AllocError>
        ensures { IfOk result (λ separator. description separator ≡ record {
          version = 1;
          name = codes "p3-fri-pcs";
          steps = pcs_steps EF.DIMENSION (pcs_shape self.now);
          labels = pcs_labels (pcs_shape self.now);
        }) }
    {
        let pattern = self.pattern::<F, EF>(alloc)?;
        let mut separator = DomainSeparator::new(alloc, VERSION, NAME, pattern);
        push_grouping(&mut separator, alloc, &self.claimed_evaluation_counts)?;
        Ok(separator)
    }

    /// What both sides absorb first, and the steps that they play then. It is made before a
    /// challenger is touched.
    pub fn seed<F: Field, EF: ExtensionField<F>>(&self, alloc: Global) -> Result<Seed, AllocError>
        ensures stream { IfOk result (λ seed.
            seed_bytes seed ≡ pcs_stream EF.DIMENSION (pcs_shape self.now)) }
        ensures turns { IfOk result (λ seed.
            seed_turns seed ≡ map turn_of (pcs_steps EF.DIMENSION (pcs_shape self.now))) }
    {
        let separator = self.domain_separator::<F, EF>(alloc)?;
        separator.seed(alloc)
    }
}
