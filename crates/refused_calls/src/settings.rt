//! The two schemes with what their calls are made on.

ghost use Rattle.std.specs.Prelude.{◌≡◌, ◌<◌, ◌≤◌, ◌+◌, ◌^◌, All, IfOk, length};
ghost use Rattle.p3_field.specs.BabyBear.{baby_bear};
ghost use Rattle.p3_fri_extensions.specs.Extension.{FitsDomain};
ghost use Rattle.p3_fri_hiding.specs.Quotients.{CanExtend};
ghost use Rattle.p3_fri_relation.specs.Views.{parameters_of};
ghost use Rattle.p3_fri_two_adic.specs.Ranges.{InProverRange, InVerifierRange};
ghost use Rattle.p3_matrix.specs.Matrix.{rows, matrix_width};

use crate::answer::{Fault, Result};
use crate::matrices::{Domain, Evaluations, coset, matrix};
use crate::schemes::{Called, Made};
use p3_dft::Radix2Dit;
use p3_field::{BabyBear, BabyBear4};
use p3_fri_folding::FriParameters;
use p3_fri_hiding::HidingFriPcs;
use p3_fri_masks::are_disjoint;
use p3_fri_two_adic::TwoAdicFriPcs;
use p3_matrix::RowMajorMatrix;
use p3_mmcs::Sha256Mmcs;
use p3_test_openings::listed::pair;
use rand_chacha::ChaCha20Rng;
use rand_core::SeedableRng;
use std::alloc::Global;

type Inputs = Sha256Mmcs<BabyBear>;

type Rounds = Sha256Mmcs<BabyBear4>;

pub type Plain = TwoAdicFriPcs<BabyBear, Radix2Dit<BabyBear>, Inputs, Rounds>;

pub type Hiding = HidingFriPcs<BabyBear, Radix2Dit<BabyBear>, Inputs, Rounds, ChaCha20Rng>;

/// Two queries, rounds that fold by two to a constant, and a proof of work of one bit everywhere.
fn parameters(log_blowup: usize) -> FriParameters<Rounds>
    requires positive { 0 < log_blowup }
    requires small { log_blowup ≤ 2 }
    ensures log_blowup { result.log_blowup ≡ log_blowup }
    ensures prover { InProverRange (parameters_of result) 27 63 }
    ensures verifier { InVerifierRange (parameters_of result) 27 63 }
{
    FriParameters {
        log_blowup,
        log_final_poly_len: 0,
        max_log_arity: 1,
        num_queries: 2,
        batch_proof_of_work_bits: 1,
        commit_proof_of_work_bits: 1,
        query_proof_of_work_bits: 1,
        mmcs: Rounds::new(),
    }
}

/// `2^log_height` rows of this width, beside the coset of this shift of `2^extra` times as many
/// points.
fn evaluation(
    alloc: Global,
    shift: u64,
    log_height: usize,
    width: usize,
    extra: usize,
) -> Result<(Domain, RowMajorMatrix<BabyBear>)>
    requires height { log_height ≤ 8 }
    requires wide { 0 < width }
    requires narrow { width ≤ 8 }
    requires extra { extra ≤ 1 }
    ensures size { IfOk result (λ e. e.0.log_size ≡ log_height + extra) }
    ensures height { IfOk result (λ e. length (rows e.1) ≡ 2 ^ log_height) }
    ensures width { IfOk result (λ e. matrix_width e.1 ≡ width) }
{
    let domain = coset(shift, log_height + extra)?;
    Ok((domain, matrix(alloc, log_height, width)?))
}

/// Two chunks of a quotient, on the halves of a coset, that either scheme extends.
fn chunks(alloc: Global) -> Result<Evaluations>
    ensures plain { IfOk result (λ all. All (λ e. FitsDomain 27 1 e.0.log_size e.1) all.items) }
    ensures hiding { IfOk result (λ all. CanExtend baby_bear (λ d. d.shift) (λ d. d.log_size)
        27 2 all.items (length all.items)) }
{
    let first = evaluation(alloc, 31, 4, 1, 0)?;
    let second = evaluation(alloc, 1_414_256_219, 4, 1, 0)?;
    if !are_disjoint(&[first.0, second.0]) {
        return Err(Fault::Inputs);
    }
    let all = pair(alloc, first, second)?;
    Ok(all)
}

/// With a blowup of 2. It commits to two columns and one.
impl Called for Plain {
    fn made(alloc: Global) -> Result<Made<Self>> {
        let first = evaluation(alloc, 1, 3, 2, 0)?;
        let second = evaluation(alloc, 3, 1, 1, 0)?;
        let columns = pair(alloc, first, second)?;
        let chunks = chunks(alloc)?;
        Ok(Made {
            scheme: Plain::new(Radix2Dit::default(), Inputs::new(), parameters(1)),
            columns,
            chunks,
        })
    }

    fn mark(_data: &Self::ProverData) -> &'static str {
        ""
    }
}

/// With a blowup of 4 and 4 random codewords. It commits to two columns and one: masks of 16 rows
/// hide one point.
impl Called for Hiding {
    fn made(alloc: Global) -> Result<Made<Self>> {
        let first = evaluation(alloc, 1, 5, 2, 1)?;
        let second = evaluation(alloc, 3, 4, 1, 1)?;
        let columns = pair(alloc, first, second)?;
        let chunks = chunks(alloc)?;
        let rng = ChaCha20Rng::from_seed([8; 32]);
        Ok(Made {
            scheme: Hiding::new(Radix2Dit::default(), Inputs::new(), parameters(2), 4, rng),
            columns,
            chunks,
        })
    }

    fn mark(data: &Self::ProverData) -> &'static str {
        if data.is_opened() {
            ", opened"
        } else {
            ", not opened"
        }
    }
}
