//! What a test of a transcript runs by: a shape, and what both sides draw along it.

ghost use Rattle.std.specs.Prelude.{◌≡◌};
ghost use Rattle.p3_fri_transcript.specs.Shapes.{fri_shape};

use p3_field::{BabyBear, BabyBear4, ExtensionField, Field};
use p3_fri_core::transcript::{FriShape, PlayedFri};
use std::alloc::Global;
use std::process::Abort;

/// The shape of rounds of these log arities, with one coefficient and four indices of three bits.
#[tactic(auto, unfolding(p3_fri_transcript::specs::Shapes::fri_shape))]
pub(crate) fn shape_of(
    rt: &impl Abort,
    alloc: Global,
    log_arities: &[usize],
    commit_pow_bits: usize,
    query_pow_bits: usize,
) -> FriShape
    ensures { fri_shape result ≡ record {
      log_arities = log_arities.now;
      final_poly_len = 1;
      commit_pow_bits = commit_pow_bits;
      query_pow_bits = query_pow_bits;
      num_queries = 4;
      index_bits = 3;
      log_blowup = 1;
      max_log_arity = 3;
    } }
{
    FriShape {
        log_arities: Vec::from_slice(alloc, log_arities).expect(rt, "memory"),
        final_poly_len: 1,
        commit_pow_bits,
        query_pow_bits,
        num_queries: 4,
        index_bits: 3,
        log_blowup: 1,
        max_log_arity: 3,
    }
}

/// What both sides draw along a test of one round, and the prover's witnesses.
#[derive(Drop)]
pub(crate) struct Run {
    pub beta: BabyBear4,
    pub indices: [usize; 4],
    pub commit_witness: BabyBear,
    pub query_witness: BabyBear,
}

impl Run {
    /// Whether these are the challenge of its round and its indices.
    pub(crate) fn draws(&self, betas: &[BabyBear4], indices: &[usize]) -> bool {
        match betas {
            [beta] => (*beta == self.beta) & (indices == self.indices.as_slice()),
            _ => false,
        }
    }

    /// Whether a prover's whole transcript is this run.
    pub(crate) fn is_played(&self, played: &PlayedFri<BabyBear, BabyBear4>) -> bool {
        match played.commit_witnesses.as_slice() {
            [witness] => {
                (*witness == self.commit_witness)
                    & (played.query_witness == self.query_witness)
                    & self.draws(&played.betas, &played.indices)
            }
            _ => false,
        }
    }
}

/// An element by its coefficients.
pub(crate) fn element(coefficients: [u64; 4]) -> BabyBear4 {
    let [first, second, third, fourth] = coefficients;
    BabyBear4::from_coefficients(&[
        BabyBear::from_u64(first),
        BabyBear::from_u64(second),
        BabyBear::from_u64(third),
        BabyBear::from_u64(fourth),
    ])
}

/// The element of a witness, if there is one.
pub(crate) fn witness_of(number: Option<u64>) -> Option<BabyBear> {
    match number {
        Some(number) => Some(BabyBear::from_u64(number)),
        None => None,
    }
}
