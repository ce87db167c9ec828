//! What a low-degree test exchanges.

ghost use Rattle.std.specs.Prelude.{◌≡◌, ◌<◌, ◌+◌, ◌^◌, ◌++◌, ◌∷◌, [], IfOk, OnOk, map, codes};
ghost use Rattle.p3_challenger_fs.specs.Pattern.{step_of, turn_of, number_bytes};
ghost use Rattle.p3_challenger_fs.specs.Separator.{description, seed_bytes, seed_turns};
ghost use Rattle.p3_fri_folding.specs.Schedule.{IsStrictlyFalling, schedule};
ghost use Rattle.p3_fri_pow.specs.Steps.{pow_steps};

use crate::labels;
use crate::rounds::push_rounds;
use p3_challenger_fs::{
    DomainSeparator, Hierarchy, Interaction, InteractionPattern, Kind, Length, Seed,
};
use p3_field_core::{ExtensionField, Field};
use p3_fri_folding::{FriParameters, fold_schedule};
use p3_fri_pow::steps::{push_label, push_labels, push_pow};
use std::alloc::{AllocError, Global};

/// The numbers that fix the transcript of a low-degree test. Both sides make it from their own
/// parameters, and never from a proof.
#[derive(Debug, PartialEq, Eq, Drop)]
pub struct FriShape {
    /// The logarithm of each round's arity, in order.
    pub log_arities: Vec<usize>,
    /// The number of coefficients of the final polynomial.
    pub final_poly_len: usize,
    /// Bits of proof of work before each folding challenge.
    pub commit_pow_bits: usize,
    /// Bits of proof of work before the queries' indices.
    pub query_pow_bits: usize,
    /// The number of queries.
    pub num_queries: usize,
    /// The width of each query's index, in bits.
    pub index_bits: usize,
    /// The logarithm of the blowup.
    pub log_blowup: usize,
    /// The logarithm of the greatest arity of a round.
    pub max_log_arity: usize,
}

#[tactic(auto, unfolding(crate::specs::Shapes::fri_shape))]
impl FriShape {
    ghost use Rattle.p3_challenger_fs.specs.Pattern.{pattern_steps};
    ghost use Rattle.p3_fri_transcript.specs.Shapes.{fri_shape};
    ghost use Rattle.p3_fri_transcript.specs.Steps.{fri_steps, fri_labels, fri_stream};

    /// The shape of a test of inputs of these log heights, which fall strictly, with indices of
    /// `index_bits` bits. Its rounds are the schedule's. The cap is positive, the final
    /// polynomial's logarithm below 64, and its sum with the log blowup is below `2^64`. Refused
    /// only for want of memory.
    pub fn new<M>(
        alloc: Global,
        parameters: &FriParameters<M>,
        log_heights: &[usize],
        index_bits: usize,
    ) -> Result<FriShape, AllocError>
        requires falling { IsStrictlyFalling log_heights.now }
        requires positive_cap { 0 < parameters.now.max_log_arity }
        requires log_final_poly_len_below_64 { parameters.now.log_final_poly_len < 64 }
        requires final_height_fits { parameters.now.log_blowup + parameters.now.log_final_poly_len
            < 2 ^ 64 }
        ensures { IfOk result (λ shape.
            let final_height = parameters.now.log_blowup + parameters.now.log_final_poly_len in
            fri_shape shape ≡ record {
              log_arities = schedule log_heights.now final_height parameters.now.max_log_arity;
              final_poly_len = 2 ^ parameters.now.log_final_poly_len;
              commit_pow_bits = parameters.now.commit_proof_of_work_bits;
              query_pow_bits = parameters.now.query_proof_of_work_bits;
              num_queries = parameters.now.num_queries;
              index_bits = index_bits;
              log_blowup = parameters.now.log_blowup;
              max_log_arity = parameters.now.max_log_arity;
            }) }
    {
        let log_arities = fold_schedule(
            alloc,
            log_heights,
            parameters.log_blowup + parameters.log_final_poly_len,
            parameters.max_log_arity,
        )?;
        Ok(FriShape::with_schedule(parameters, log_arities, index_bits))
    }

    /// The shape of a test of these rounds, whatever their schedule. The final polynomial's
    /// logarithm is below 64.
    pub fn with_schedule<M>(
        parameters: &FriParameters<M>,
        log_arities: Vec<usize>,
        index_bits: usize,
    ) -> FriShape
        requires log_final_poly_len_below_64 { parameters.now.log_final_poly_len < 64 }
        ensures { fri_shape result ≡ record {
          log_arities = log_arities.items;
          final_poly_len = 2 ^ parameters.now.log_final_poly_len;
          commit_pow_bits = parameters.now.commit_proof_of_work_bits;
          query_pow_bits = parameters.now.query_proof_of_work_bits;
          num_queries = parameters.now.num_queries;
          index_bits = index_bits;
          log_blowup = parameters.now.log_blowup;
          max_log_arity = parameters.now.max_log_arity;
        } }
    {
        FriShape {
            log_arities,
            final_poly_len: parameters.final_poly_len(),
            commit_pow_bits: parameters.commit_proof_of_work_bits,
            query_pow_bits: parameters.query_proof_of_work_bits,
            num_queries: parameters.num_queries,
            index_bits,
            log_blowup: parameters.log_blowup,
            max_log_arity: parameters.max_log_arity,
        }
    }

    /// The same shape once more.
    pub fn clone(&self, alloc: Global) -> Result<FriShape, AllocError>
        ensures { IfOk result (λ shape. fri_shape shape ≡ fri_shape self.now) }
    {
        Ok(FriShape {
            log_arities: Vec::from_slice(alloc, &self.log_arities)?,
            final_poly_len: self.final_poly_len,
            commit_pow_bits: self.commit_pow_bits,
            query_pow_bits: self.query_pow_bits,
            num_queries: self.num_queries,
            index_bits: self.index_bits,
            log_blowup: self.log_blowup,
            max_log_arity: self.max_log_arity,
        })
    }

    /// The steps of the transcript, with challenges from the extension `EF` of `F`.
    pub fn pattern<F: Field, EF: ExtensionField<F>>(
        &self,
        alloc: Global,
    ) -> Result<InteractionPattern, AllocError>
        ensures { IfOk result (λ pattern.
            pattern_steps pattern ≡ fri_steps EF.DIMENSION (fri_shape self.now)) }
    {
        let rounds = self.log_arities.len();
        let mut steps = Vec::with_capacity(alloc, rounds.saturating_mul(3).saturating_add(3))?;
        push_rounds::<F, EF>(&mut steps, self.commit_pow_bits, rounds)?;
        steps.push(Interaction::algebra::<F, EF>(
            Hierarchy::Atomic,
            Kind::Message,
            labels::FINAL_POLY,
            Length::Fixed(self.final_poly_len),
        ))?;
        push_pow::<F>(&mut steps, labels::QUERY_POW, self.query_pow_bits)?;
        steps.push(Interaction::bits(
            Hierarchy::Atomic,
            Kind::Challenge,
            labels::QUERY_INDICES,
            self.index_bits,
            Length::Fixed(self.num_queries),
        ))?;
        Ok(InteractionPattern::new(steps))
    }

    /// What the transcript is bound to: the protocol, its steps, and the numbers of the shape that
    /// they don't determine.
    pub fn domain_separator<F: Field, EF: ExtensionField<F>>(
        &self,
        alloc: Global,
    ) -> Result<DomainSeparator, AllocError>
        ensures { IfOk result (λ separator. description separator ≡ record {
          version = 1;
          name = codes "p3-fri";
          steps = fri_steps EF.DIMENSION (fri_shape self.now);
          labels = fri_labels (fri_shape self.now);
        }) }
    {
        let pattern = self.pattern::<F, EF>(alloc)?;
        let mut separator = DomainSeparator::new(alloc, labels::VERSION, labels::NAME, pattern);
        push_label(&mut separator, alloc, self.log_blowup)?;
        push_label(&mut separator, alloc, self.max_log_arity)?;
        push_labels(&mut separator, alloc, &self.log_arities)?;
        Ok(separator)
    }

    /// What both sides absorb first, and the steps that they play then. It is made before a
    /// challenger is touched.
    pub fn seed<F: Field, EF: ExtensionField<F>>(&self, alloc: Global) -> Result<Seed, AllocError>
        ensures stream { IfOk result (λ seed.
            seed_bytes seed ≡ fri_stream EF.DIMENSION (fri_shape self.now)) }
        ensures turns { IfOk result (λ seed.
            seed_turns seed ≡ map turn_of (fri_steps EF.DIMENSION (fri_shape self.now))) }
    {
        let separator = self.domain_separator::<F, EF>(alloc)?;
        separator.seed(alloc)
    }
}
