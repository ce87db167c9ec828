//! Parameters of FRI (Ben-Sasson, Bentov, Horesh, Riabzev, ICALP 2018), and the schedule of its
//! folds, in the names of the Rust crate p3-fri.

ghost use Rattle.std.specs.Prelude.{◌≡◌, ◌+◌, ◌*◌, ◌^◌, ◌-◌, ◌<◌, ◌≤◌, ◌↔◌, min, All, IsTrue};
ghost use Rattle.std.specs.Prelude.{IfSome, IfNone, IfOk};
ghost use Rattle.std.specs.Option.{ForSome};
ghost use Rattle.p3_fri_folding.specs.Schedule.{IsStrictlyFalling, tallest, schedule, LeadsDown};
ghost use Rattle.p3_fri_folding.specs.Schedule.{AreFewest};

use p3_mmcs::{FriRegime, GrindingSites};
use std::alloc::{AllocError, Global};

/// The parameters of an instance of FRI, over the commitment scheme `M` of its folded words.
///
/// Each logarithm is to the base 2.
#[derive(Clone, Debug, Drop)]
pub struct FriParameters<M> {
    /// The logarithm of the blowup, which says how many values are committed for each coefficient.
    pub log_blowup: usize,
    /// The logarithm of the length of the final polynomial, which is sent in full.
    pub log_final_poly_len: usize,
    /// The logarithm of the greatest arity of a round. The last before an input may have a smaller
    /// one.
    pub max_log_arity: usize,
    /// How many times the verifier queries.
    pub num_queries: usize,
    /// Bits of proof of work before the challenge that batches the openings into one instance.
    pub batch_proof_of_work_bits: usize,
    /// Bits of proof of work before each round's folding challenge.
    pub commit_proof_of_work_bits: usize,
    /// Bits of proof of work before the queries are drawn.
    pub query_proof_of_work_bits: usize,
    /// The commitment scheme of the folded words.
    pub mmcs: M,
}

impl<M> FriParameters<M> {
    /// How many values are committed for each coefficient.
    pub fn blowup(&self) -> usize
        requires log_blowup_below_64 { self.now.log_blowup < 64 }
        ensures { result ≡ 2 ^ self.now.log_blowup }
    {
        1 << self.log_blowup
    }

    /// The number of coefficients of the final polynomial.
    pub fn final_poly_len(&self) -> usize
        requires log_final_poly_len_below_64 { self.now.log_final_poly_len < 64 }
        ensures { result ≡ 2 ^ self.now.log_final_poly_len }
    {
        1 << self.log_final_poly_len
    }

    /// The greatest number of values that one round folds into one.
    pub fn max_arity(&self) -> usize
        requires max_log_arity_below_64 { self.now.max_log_arity < 64 }
        ensures { result ≡ 2 ^ self.now.max_log_arity }
    {
        1 << self.max_log_arity
    }

    /// The bits of soundness by the conjecture of [ethSTARK](https://eprint.iacr.org/2021/582):
    /// those of the queries, and those of the proof of work before them. Only the sum is proved
    /// here, and not what it says of soundness.
    pub fn conjectured_soundness_bits(&self) -> usize
        requires fits { self.now.log_blowup * self.now.num_queries
            + self.now.query_proof_of_work_bits < 2 ^ 64 }
        ensures { result ≡ self.now.log_blowup * self.now.num_queries
            + self.now.query_proof_of_work_bits }
    {
        self.log_blowup * self.num_queries + self.query_proof_of_work_bits
    }

    /// The parameters that an estimate of FRI's soundness reads. The proof of work before the
    /// batching challenge belongs to the scheme around FRI, and stands in `grinding_sites`.
    pub fn security_regime(&self) -> FriRegime
        ensures { result ≡ record {
          log_blowup = self.now.log_blowup;
          num_queries = self.now.num_queries;
          log_final_poly_len = self.now.log_final_poly_len;
          max_log_arity = self.now.max_log_arity;
          commit_pow_bits = self.now.commit_proof_of_work_bits;
          query_pow_bits = self.now.query_proof_of_work_bits;
        } }
    {
        FriRegime {
            log_blowup: self.log_blowup,
            num_queries: self.num_queries,
            log_final_poly_len: self.log_final_poly_len,
            max_log_arity: self.max_log_arity,
            commit_pow_bits: self.commit_proof_of_work_bits,
            query_pow_bits: self.query_proof_of_work_bits,
        }
    }

    /// The bits of proof of work outside of FRI.
    pub fn grinding_sites(&self) -> GrindingSites
        ensures { result ≡ record { batch_combination = self.now.batch_proof_of_work_bits } }
    {
        GrindingSites {
            batch_combination: self.batch_proof_of_work_bits,
        }
    }

    /// Small parameters for tests, with a final polynomial of `2^log_final_poly_len` coefficients.
    pub fn new_testing(mmcs: M, log_final_poly_len: usize) -> Self
        ensures { result ≡ record {
          log_blowup = 2;
          log_final_poly_len = log_final_poly_len;
          max_log_arity = 1;
          num_queries = 2;
          batch_proof_of_work_bits = 0;
          commit_proof_of_work_bits = 1;
          query_proof_of_work_bits = 1;
          mmcs = mmcs;
        } }
    {
        Self {
            log_blowup: 2,
            log_final_poly_len,
            max_log_arity: 1,
            num_queries: 2,
            batch_proof_of_work_bits: 0,
            commit_proof_of_work_bits: 1,
            query_proof_of_work_bits: 1,
            mmcs,
        }
    }

    /// Small parameters for tests of the hiding scheme.
    pub fn new_testing_zk(mmcs: M) -> Self
        ensures { result ≡ record {
          log_blowup = 2;
          log_final_poly_len = 0;
          max_log_arity = 1;
          num_queries = 2;
          batch_proof_of_work_bits = 0;
          commit_proof_of_work_bits = 1;
          query_proof_of_work_bits = 1;
          mmcs = mmcs;
        } }
    {
        Self::new_testing(mmcs, 0)
    }

    /// Parameters of the size of real use, for benchmarks.
    pub fn new_benchmark(mmcs: M) -> Self
        ensures { result ≡ record {
          log_blowup = 1;
          log_final_poly_len = 0;
          max_log_arity = 1;
          num_queries = 100;
          batch_proof_of_work_bits = 0;
          commit_proof_of_work_bits = 0;
          query_proof_of_work_bits = 16;
          mmcs = mmcs;
        } }
    {
        Self {
            log_blowup: 1,
            log_final_poly_len: 0,
            max_log_arity: 1,
            num_queries: 100,
            batch_proof_of_work_bits: 0,
            commit_proof_of_work_bits: 0,
            query_proof_of_work_bits: 16,
            mmcs,
        }
    }

    /// The same with rounds of arity up to 8, and proof of work before the batching challenge.
    pub fn new_benchmark_high_arity(mmcs: M) -> Self
        ensures { result ≡ record {
          log_blowup = 1;
          log_final_poly_len = 0;
          max_log_arity = 3;
          num_queries = 100;
          batch_proof_of_work_bits = 10;
          commit_proof_of_work_bits = 0;
          query_proof_of_work_bits = 16;
          mmcs = mmcs;
        } }
    {
        let mut parameters = Self::new_benchmark(mmcs);
        parameters.max_log_arity = 3;
        parameters.batch_proof_of_work_bits = 10;
        parameters
    }

    /// Parameters of the size of real use, for benchmarks of the hiding scheme.
    pub fn new_benchmark_zk(mmcs: M) -> Self
        ensures { result ≡ record {
          log_blowup = 2;
          log_final_poly_len = 0;
          max_log_arity = 1;
          num_queries = 100;
          batch_proof_of_work_bits = 10;
          commit_proof_of_work_bits = 0;
          query_proof_of_work_bits = 16;
          mmcs = mmcs;
        } }
    {
        let mut parameters = Self::new_benchmark(mmcs);
        parameters.log_blowup = 2;
        parameters.batch_proof_of_work_bits = 10;
        parameters
    }
}

/// The log arity of a round that begins at `log_current_height`: as much as the cap allows, but
/// past neither the final height nor the next input's. So each input meets a folded word of its
/// height.
///
/// All heights are logarithms. The cap is positive, and the current height above both others.
pub fn compute_log_arity_for_round(
    log_current_height: usize,
    next_log_height: Option<usize>,
    log_final_height: usize,
    max_log_arity: usize,
) -> usize
    requires positive_cap { 0 < max_log_arity }
    requires above_final { log_final_height < log_current_height }
    requires above_next { ForSome next_log_height (λ next. next < log_current_height) }
    ensures without_next { IfNone next_log_height
        (result ≡ min max_log_arity (log_current_height - log_final_height)) }
    ensures with_next { IfSome next_log_height (λ next. result ≡
        min max_log_arity
        (min (log_current_height - log_final_height) (log_current_height - next))) }
{
    let to_final = log_current_height - log_final_height;
    let distance = match next_log_height {
        Some(next) => to_final.min(log_current_height - next),
        None => to_final,
    };
    distance.min(max_log_arity)
}

/// Whether each height is below the one before it, as `fold_schedule` requires.
pub fn is_strictly_falling(heights: &[usize]) -> bool
    ensures { IsTrue result ↔ IsStrictlyFalling heights.now }
{
    heights.windows(2).all(|pair| pair[0] > pair[1])
}

/// The schedule of folds, one log arity for each round: from the tallest of the inputs' log heights
/// down to `log_final_height`, with a round's end at each further input's height above it.
///
/// The heights fall strictly, which `is_strictly_falling` tells, and the cap `max_log_arity` is
/// positive. The schedule is empty without inputs, and where the tallest height isn't above the
/// final one. The only error is want of memory.
pub fn fold_schedule(
    alloc: Global,
    heights: &[usize],
    log_final_height: usize,
    max_log_arity: usize,
) -> Result<Vec<usize>, AllocError>
    requires falling { IsStrictlyFalling heights.now }
    requires positive_cap { 0 < max_log_arity }
    ensures value { IfOk result (λ rounds.
        rounds.items ≡ schedule heights.now log_final_height max_log_arity) }

    // It leads through every stop, in as few rounds as the cap allows.
    ensures in_range { IfOk result (λ rounds.
        All (λ log_arity. (1 ≤ log_arity) × (log_arity ≤ max_log_arity)) rounds.items) }
    ensures leads_down { log_final_height < tallest heights.now →
        IfOk result (λ rounds. LeadsDown heights.now log_final_height rounds.items) }
    ensures fewest { IfOk result (λ rounds.
        AreFewest heights.now log_final_height max_log_arity rounds.items) }
{
    let mut schedule = Vec::new(alloc);
    let Some((tallest, mut further)) = heights.split_first() else {
        return Ok(schedule);
    };
    let mut log_height = *tallest;
    while log_height > log_final_height {
        let next = further.first().copied();
        let log_arity = compute_log_arity_for_round(
            log_height,
            next,
            log_final_height,
            max_log_arity,
        );
        schedule.push(log_arity)?;
        log_height -= log_arity;
        // The input of this height joins the folded word here.
        if next == Some(log_height) {
            further = &further[1..];
        }
    }
    Ok(schedule)
}
