//! Proofs made by hand, at a blowup of 2, of four columns that hold `X`. What is claimed of each at
//! the point 2 is 2, so each quotient is 1 everywhere, and the words of all rounds are one
//! constant. Or they hold the number 9: then each quotient is zero.

ghost use Rattle.std.specs.Prelude.{◌≡◌, ◌≤◌, ◌<◌};

use crate::answers::{
    Claims, Domain, InputOpening, Inputs, Made, Parameters, RoundOpening, Rounds, challenger_after,
    constant, plain_parameters,
};
use crate::claims::matrix_claim;
use crate::commitments::{committed, matrix_of, opened};
use p3_field::{BabyBear, BabyBear4, Field};
use p3_fri_relation::proof::{BatchMultiOpening, CommitPhaseMultiStep, FriProof};
use p3_fri_transcript::transcript::{FriMessages, FriShape, replay_fri};
use p3_matrix::RowMajorMatrix;
use p3_mmcs::{CommitmentOpening, Mmcs};
use std::alloc::Global;
use std::process::Abort;

type InputData = <Inputs as Mmcs<BabyBear>>::ProverData;

type RoundData = <Rounds as Mmcs<BabyBear4>>::ProverData;

/// The sum of four quotients of 1 by the powers of 7.
const SUM: u64 = 1 + 7 + 49 + 343;

/// What a proof is made of, and how.
#[derive(Clone, Copy)]
pub(crate) struct Setting {
    /// Whether the columns hold `X`, or the number 9.
    pub is_line: bool,
    /// What is claimed of each at the point 2, if anything is.
    pub claimed: Option<u64>,
    pub log_size: usize,
    pub num_queries: usize,
    pub max_log_arity: usize,
    /// The rounds' arities that the cap leads to.
    pub log_arities: &'static [usize],
    pub log_final_poly_len: usize,
    pub extra_bits: usize,
    /// What the challenger absorbs first.
    pub start: u64,
    /// The indices that it has to draw, where that matters.
    pub drawn: &'static [usize],
}

/// Columns that hold `X`, on two points, and two queries, which fold by two to a constant.
pub(crate) const LINES: Setting = Setting {
    is_line: true,
    claimed: Some(2),
    log_size: 1,
    num_queries: 2,
    max_log_arity: 1,
    log_arities: &[1],
    log_final_poly_len: 0,
    extra_bits: 0,
    start: 1,
    drawn: &[],
};

/// The parameters of a setting.
pub(crate) fn parameters_of(setting: &Setting) -> Parameters
    ensures { result.log_final_poly_len ≡ setting.now.log_final_poly_len }
{
    let mut parameters = plain_parameters();
    parameters.num_queries = setting.num_queries;
    parameters.max_log_arity = setting.max_log_arity;
    parameters.log_final_poly_len = setting.log_final_poly_len;
    parameters
}

/// The matrix of this log height that has in each row `width` times the point that it stands for,
/// or the number 9.
fn columns(
    rt: &impl Abort,
    alloc: Global,
    is_line: bool,
    log_height: usize,
    width: usize,
) -> RowMajorMatrix<BabyBear> {
    let coset = Domain::new(BabyBear::GENERATOR, log_height).expect(rt, "a coset");
    let points = coset.bit_reversed_points(alloc).expect(rt, "memory");
    let mut values = Vec::new(alloc);
    for point in &points {
        let value = if is_line {
            *point
        } else {
            BabyBear::from_u64(9)
        };
        for _ in 0..width {
            values.push(value).expect(rt, "memory");
        }
    }
    matrix_of(rt, values, width)
}

/// The widths of the matrices of each commitment.
static WIDTHS: [&[usize]; 2] = [&[2, 1], &[1]];

/// One commitment to two matrices, of two columns and of one, and one to a matrix of a column, and
/// what is claimed of them.
fn commit_inputs(rt: &impl Abort, alloc: Global, setting: &Setting) -> (Claims, Vec<InputData>)
    requires { setting.now.log_size ≤ 8 }
{
    let mut claims = Vec::new(alloc);
    let mut inputs = Vec::new(alloc);
    for widths in &WIDTHS {
        let mut all = Vec::new(alloc);
        let mut matrices = Vec::new(alloc);
        for width in *widths {
            let matrix = columns(rt, alloc, setting.is_line, setting.log_size + 1, *width);
            all.push(matrix).expect(rt, "memory");
            let claim = matrix_claim(rt, alloc, setting.log_size, *width, setting.claimed);
            matrices.push(claim).expect(rt, "memory");
        }
        let (commitment, data) = committed(rt, alloc, &Inputs::new(), all);
        let claim = CommitmentOpening {
            commitment,
            matrices,
        };
        claims.push(claim).expect(rt, "memory");
        inputs.push(data).expect(rt, "memory");
    }
    (claims, inputs)
}

/// What is opened of all inputs at these positions.
fn open_inputs(
    rt: &impl Abort,
    alloc: Global,
    inputs: &[InputData],
    positions: &[usize],
) -> Vec<InputOpening> {
    let mut openings = Vec::new(alloc);
    for data in inputs {
        let (opened_values, opening_proof) = opened(rt, alloc, &Inputs::new(), data, positions);
        let opening = BatchMultiOpening {
            opened_values,
            opening_proof,
        };
        openings.push(opening).expect(rt, "memory");
    }
    openings
}

/// The commitments of the rounds, to constant words of which the first is of this log height.
fn commit_rounds(
    rt: &impl Abort,
    alloc: Global,
    log_height: usize,
    log_arities: &[usize],
) -> (Vec<[u8; 32]>, Vec<RoundData>) {
    let mut commitments = Vec::new(alloc);
    let mut data = Vec::new(alloc);
    let mut height = log_height;
    for log_arity in log_arities {
        assert!(rt; *log_arity <= height && height <= 9, "a long schedule");
        let values = vec![in alloc; constant(SUM); 1 << height].expect(rt, "memory");
        let matrix = matrix_of(rt, values, 1 << *log_arity);
        let matrices = vec![in alloc; matrix].expect(rt, "memory");
        let (commitment, kept) = committed(rt, alloc, &Rounds::new(), matrices);
        commitments.push(commitment).expect(rt, "memory");
        data.push(kept).expect(rt, "memory");
        height -= *log_arity;
    }
    (commitments, data)
}

/// Numbers without their lowest bits.
fn shifted(rt: &impl Abort, alloc: Global, numbers: &[usize], bits: usize) -> Vec<usize>
    requires { bits < 64 }
{
    let mut all = Vec::new(alloc);
    for number in numbers {
        all.push(*number >> bits).expect(rt, "memory");
    }
    all
}

/// What all rounds open at these positions.
fn open_rounds(
    rt: &impl Abort,
    alloc: Global,
    log_arities: &[usize],
    data: &[RoundData],
    positions: &[usize],
) -> Vec<RoundOpening> {
    let mut openings = Vec::new(alloc);
    let mut bits: usize = 0;
    for (log_arity, kept) in log_arities.iter().zip(data) {
        assert!(rt; *log_arity <= 8 && bits <= 32, "a long row");
        bits += *log_arity;
        let siblings = (1_usize << *log_arity).saturating_sub(1);
        let mut sibling_values = Vec::new(alloc);
        for _ in positions {
            let row = vec![in alloc; constant(SUM); siblings].expect(rt, "memory");
            sibling_values.push(row).expect(rt, "memory");
        }
        let indices = shifted(rt, alloc, positions, bits);
        let (_rows, opening_proof) = opened(rt, alloc, &Rounds::new(), kept, &indices);
        let opening = CommitPhaseMultiStep {
            sibling_values,
            opening_proof,
        };
        openings.push(opening).expect(rt, "memory");
    }
    openings
}

/// An honest proof of the setting.
pub(crate) fn make_honest(rt: &impl Abort, alloc: Global, setting: &Setting) -> Made {
    let log_len = setting.log_final_poly_len;
    let parameters = parameters_of(setting);
    assert!(rt;
        setting.log_size <= 8 && setting.extra_bits <= 3 && log_len <= 8,
        "a large proof"
    );
    assert!(rt;
        parameters.commit_proof_of_work_bits <= 63
            && parameters.query_proof_of_work_bits <= 63
            && parameters.log_blowup <= 31
            && parameters.max_log_arity > 0,
        "not conditions of the transcript"
    );
    let height = setting.log_size + 1;
    let (commitments, rounds) = commit_rounds(rt, alloc, height, setting.log_arities);
    let (claims, inputs) = commit_inputs(rt, alloc, setting);
    let first = constant(if setting.is_line { SUM } else { 0 });
    let mut final_poly = vec![in alloc; first].expect(rt, "memory");
    final_poly
        .resize(1 << log_len, BabyBear4::ZERO)
        .expect(rt, "memory");
    let witnesses = vec![in alloc; BabyBear::ZERO; commitments.len()].expect(rt, "memory");
    let messages = FriMessages::<BabyBear, BabyBear4, [u8; 32]> {
        commitments: &commitments,
        commit_witnesses: &witnesses,
        final_poly: &final_poly,
        query_witness: Some(BabyBear::ZERO),
    };
    let shape = FriShape::new(alloc, &parameters, &[height], height + setting.extra_bits);
    let shape = shape.expect(rt, "memory");
    let mut last = challenger_after(setting.start);
    let Ok(replayed) = replay_fri(alloc, &mut last, shape, messages) else {
        panic!(rt; "the transcript is refused")
    };
    assert!(rt;
        setting.drawn.is_empty() || replayed.indices.as_slice() == setting.drawn,
        "other indices"
    );
    let positions = shifted(rt, alloc, &replayed.indices, setting.extra_bits);
    let proof = FriProof {
        batch_pow_witness: BabyBear::ZERO,
        commit_phase_commits: commitments,
        commit_pow_witnesses: witnesses,
        input_openings: open_inputs(rt, alloc, &inputs, &positions),
        commit_phase_openings: open_rounds(rt, alloc, setting.log_arities, &rounds, &positions),
        final_poly,
        query_pow_witness: BabyBear::ZERO,
    };
    Made {
        proof,
        claims,
        start: setting.start,
        last,
    }
}
