//! What is proved of words, and what the verifier answers to it.

ghost use Rattle.std.specs.Prelude.{◌≡◌, ◌<◌, ◌≤◌, ◌^◌, IsTrue};
ghost use Rattle.algebra.specs.Nested.{lists};
ghost use Rattle.p3_mmcs.specs.Batch.{dimensions_of};
ghost use Rattle.p3_fri_prover.specs.Inputs.{AreInputs};

use crate::changes::{Change, change_proof};
use p3_challenger::{CanObserve, FieldChallenger, GrindingChallenger, Sha256Challenger};
use p3_field::{BabyBear, BabyBear4, ExtensionField, Field, TwoAdicMultiplicativeCoset};
use p3_fri_folding::{
    FriParameters, FriProverError, TwoAdicFriFolding, WithExtraBits, is_strictly_falling,
};
use p3_fri_prover::prover::{ProverDataWithOpeningPoints, prove_fri};
use p3_fri_relation::error::FriError;
use p3_fri_relation::proof::{BatchMultiOpening, CommitPhaseMultiStep, FriProof};
use p3_fri_verifier::verify_fri;
use p3_matrix::{Dimensions, RowMajorMatrix};
use p3_mmcs::{
    CommitmentOpening, MatrixOpening, Mmcs, PointOpening, Sha256Mmcs, Sha256MmcsError,
    have_power_heights,
};
use std::alloc::Global;
use std::marker::PhantomData;
use std::process::Abort;

pub(crate) type Inputs = Sha256Mmcs<BabyBear>;

pub(crate) type InputData = <Inputs as Mmcs<BabyBear>>::ProverData;

pub(crate) type Rounds = Sha256Mmcs<BabyBear4>;

pub(crate) type Parameters = FriParameters<Rounds>;

type InputOpening = BatchMultiOpening<BabyBear, Inputs>;

pub(crate) type RoundOpening = CommitPhaseMultiStep<BabyBear4, Rounds>;

pub(crate) type Proof = FriProof<BabyBear4, Rounds, BabyBear, Vec<InputOpening>>;

pub(crate) type Domain = TwoAdicMultiplicativeCoset<BabyBear>;

pub(crate) type Claim = CommitmentOpening<BabyBear4, [u8; 32], Domain>;

type Plain = TwoAdicFriFolding<(), Sha256MmcsError>;

type Folding = WithExtraBits<Plain>;

/// The logarithms of the blowup and of the greatest arity and of the final polynomial's length.
pub(crate) type Shape = (usize, usize, usize);

/// The numbers of bits of each proof of work, and those drawn besides each index.
pub(crate) type Bits = (usize, usize, usize);

/// Parameters of this shape and two queries, with work of so many bits.
pub(crate) fn parameters_of(shape: &Shape, bits: &Bits) -> Parameters {
    FriParameters {
        log_blowup: shape.0,
        log_final_poly_len: shape.2,
        max_log_arity: shape.1,
        num_queries: 2,
        batch_proof_of_work_bits: 0,
        commit_proof_of_work_bits: bits.0,
        query_proof_of_work_bits: bits.1,
        mmcs: Sha256Mmcs::new(),
    }
}

/// Words of these log heights, and the number that each entry is.
#[derive(Clone, Copy, Debug)]
pub(crate) struct Words {
    pub entry: u64,
    pub log_heights: &'static [usize],
}

/// The column of a line for each word, and what is claimed of it at a point. The words are the
/// quotients, so their entry is the slope.
#[derive(Clone, Copy)]
pub(crate) struct Line {
    pub at_zero: u64,
    pub point: u64,
    pub value: u64,
    pub words: Words,
}

pub(crate) const ONE_WORD: Words = Words {
    entry: 2_013_265_920,
    log_heights: &[2],
};

pub(crate) const TWO_WORDS: Words = Words {
    entry: 0,
    log_heights: &[4, 2],
};

/// `2 - X`, of which -3 is claimed at 5.
pub(crate) const FALLING: Line = Line {
    at_zero: 2,
    point: 5,
    value: 2_013_265_918,
    words: ONE_WORD,
};

/// An element of the extension that is a number.
pub(crate) fn constant(number: u64) -> BabyBear4 {
    BabyBear4::from_base(BabyBear::from_u64(number))
}

/// The line's column over `2^log_height` points.
fn column(
    rt: &impl Abort,
    alloc: Global,
    line: &Line,
    log_height: usize,
) -> RowMajorMatrix<BabyBear> {
    let at_zero = BabyBear::from_u64(line.at_zero);
    let slope = BabyBear::from_u64(line.words.entry);
    let coset = TwoAdicMultiplicativeCoset::new(BabyBear::GENERATOR, log_height).expect(
        rt, "a coset",
    );
    let mut values = Vec::new(alloc);
    for point in &coset.bit_reversed_points(alloc).expect(rt, "memory") {
        values.push(at_zero + slope * *point).expect(rt, "memory");
    }
    RowMajorMatrix::new(values, 1)
}

/// What is claimed of the column that was extended from `2^log_size` points.
fn claim_on(
    rt: &impl Abort,
    alloc: Global,
    line: &Line,
    log_size: usize,
) -> MatrixOpening<BabyBear4, Domain> {
    let domain = TwoAdicMultiplicativeCoset::new(BabyBear::ONE, log_size).expect(rt, "a domain");
    let point = PointOpening {
        point: constant(line.point),
        values: vec![in alloc; constant(line.value)].expect(rt, "memory"),
    };
    let points = vec![in alloc; point].expect(rt, "memory");
    MatrixOpening { domain, points }
}

/// The dimensions of these matrices.
fn dimensions(
    rt: &impl Abort,
    alloc: Global,
    matrices: &[RowMajorMatrix<BabyBear>],
) -> Vec<Dimensions>
    ensures { result.items ≡ dimensions_of matrices.now }
{
    let mut all = Vec::new(alloc);
    for matrix in matrices {
        all.push(matrix.dimensions()).expect(rt, "memory");
    }
    all
}

/// One commitment to the line's columns: what is claimed of it at this blowup, and its data.
pub(crate) fn committed(
    rt: &impl Abort,
    alloc: Global,
    line: &Line,
    log_blowup: usize,
) -> (Vec<Claim>, InputData) {
    let mut columns = Vec::new(alloc);
    let mut matrices = Vec::new(alloc);
    for log_height in line.words.log_heights {
        columns
            .push(column(rt, alloc, line, *log_height))
            .expect(rt, "memory");
        let log_size = log_height
            .checked_sub(log_blowup)
            .expect(rt, "a large blowup");
        matrices
            .push(claim_on(rt, alloc, line, log_size))
            .expect(rt, "memory");
    }
    let all = dimensions(rt, alloc, columns.as_slice());
    if !have_power_heights(all.as_slice()) {
        panic!(rt; "heights");
    }
    let (commitment, data) = Inputs::new().commit(alloc, columns).expect(rt, "memory");
    let claim = CommitmentOpening {
        commitment,
        matrices,
    };
    let claims = vec![in alloc; claim].expect(rt, "memory");
    (claims, data)
}

/// The length of a word of this log height.
fn length_of(log_height: usize) -> usize
    requires { log_height ≤ 8 }
    ensures { result ≡ 2 ^ log_height }
{
    1 << log_height
}

/// Words of these log heights of which each entry is the number, with the first log height.
fn words_of(
    rt: &impl Abort,
    alloc: Global,
    entry: u64,
    log_heights: &[usize],
) -> (usize, Vec<Vec<BabyBear4>>)
    ensures { AreInputs result.0 (lists result.1.items) }
{
    let mut words = Vec::new(alloc);
    for log_height in log_heights {
        assert!(rt; *log_height <= 8, "other heights");
        let word = vec![in alloc; constant(entry); length_of(*log_height)].expect(rt, "memory");
        words.push(word).expect(rt, "memory");
    }
    if !is_strictly_falling(log_heights) {
        panic!(rt; "other heights");
    }
    assert!(rt; log_heights.len() > 0, "other heights");
    (log_heights[0], words)
}

/// Whether these parameters are as small as the tests', and the words' log height too, so that they
/// may be proved, and with a short final polynomial verified.
fn are_small(parameters: &Parameters, extra_bits: usize, log_height: usize) -> bool
    ensures blowup { IsTrue result → parameters.now.log_blowup ≤ 2 }
    ensures cap { IsTrue result → 0 < parameters.now.max_log_arity }
    ensures commit_bits { IsTrue result → parameters.now.commit_proof_of_work_bits ≤ 3 }
    ensures query_bits { IsTrue result → parameters.now.query_proof_of_work_bits ≤ 3 }
    ensures extra_bits { IsTrue result → extra_bits ≤ 3 }
    ensures height { IsTrue result → log_height ≤ 8 }
{
    parameters.log_blowup <= 2
        && parameters.max_log_arity > 0
        && parameters.commit_proof_of_work_bits <= 3
        && parameters.query_proof_of_work_bits <= 3
        && extra_bits <= 3
        && log_height <= 8
}

/// What the prover answers of these words, with what is opened of the data. With each index so many
/// bits are drawn besides.
pub(crate) fn prove<
    C: FieldChallenger<BabyBear> + GrindingChallenger<Witness = BabyBear> + CanObserve<[u8; 32]>,
>(
    rt: &impl Abort,
    alloc: Global,
    parameters: &Parameters,
    extra_bits: usize,
    words: &Words,
    data: &InputData,
    challenger: &mut C,
) -> Result<Proof, FriProverError>
    requires { C.MAX_SAMPLE_BITS ≡ 63 }
{
    let (log_height, inputs) = words_of(rt, alloc, words.entry, words.log_heights);
    assert!(rt;
        are_small(parameters, extra_bits, log_height),
        "other parameters"
    );
    let input_mmcs = Inputs::new();
    assert!(rt;
        input_mmcs.get_max_height(data) <= 1 << log_height,
        "a tall matrix"
    );
    let plain: Plain = TwoAdicFriFolding(PhantomData);
    let folding = WithExtraBits::new(plain, extra_bits);
    let points = Vec::new(alloc);
    let data_with_points = [ProverDataWithOpeningPoints {
        prover_data: data,
        points: &points,
    }];
    prove_fri::<BabyBear, BabyBear4, Folding, Rounds, Inputs, C>(
        alloc,
        &folding,
        parameters,
        inputs,
        challenger,
        log_height,
        &data_with_points,
        &input_mmcs,
        BabyBear::ZERO,
    )
}

/// Whether the verifier accepts that proof, at the batching challenge 1.
fn is_accepted(
    rt: &impl Abort,
    alloc: Global,
    parameters: &Parameters,
    extra_bits: usize,
    claims: &[Claim],
    proof: &Proof,
    challenger: &mut Sha256Challenger,
) -> bool {
    assert!(rt;
        parameters.log_final_poly_len <= 3 && are_small(parameters, extra_bits, 0),
        "other parameters"
    );
    let plain: Plain = TwoAdicFriFolding(PhantomData);
    let folding = WithExtraBits::new(plain, extra_bits);
    let verified = verify_fri::<BabyBear, BabyBear4, Rounds, Inputs, Folding, Sha256Challenger>(
        alloc,
        &folding,
        parameters,
        proof,
        challenger,
        claims,
        &Inputs::new(),
        constant(1),
    );
    match verified {
        Ok(()) => true,
        Err(FriError::OutOfMemory) => panic!(rt; "memory was refused"),
        Err(_) => false,
    }
}

/// How large a proof is, the first coefficient of its final polynomial, whether a new verifier
/// accepts it, and whether that ends as the prover.
#[derive(Drop)]
pub(crate) struct Outcome {
    pub rounds: usize,
    pub witnesses: usize,
    pub coefficients: usize,
    pub constant: Option<BabyBear4>,
    pub is_accepted: bool,
    pub ends_agree: bool,
}

/// What comes of the proof of the line's words, of which that is changed.
pub(crate) fn prove_and_verify(
    rt: &impl Abort,
    alloc: Global,
    line: &Line,
    shape: &Shape,
    bits: &Bits,
    change: Change,
) -> Outcome {
    let parameters = parameters_of(shape, bits);
    let (claims, data) = committed(rt, alloc, line, shape.0);
    let mut prover = Sha256Challenger::new();
    let answer = prove(
        rt,
        alloc,
        &parameters,
        bits.2,
        &line.words,
        &data,
        &mut prover,
    );
    let mut proof = answer.expect(rt, "a refusal");
    change_proof(&mut proof, change);
    let mut verifier = Sha256Challenger::new();
    let is_accepted = is_accepted(
        rt,
        alloc,
        &parameters,
        bits.2,
        &claims,
        &proof,
        &mut verifier,
    );
    Outcome {
        rounds: proof.commit_phase_commits.len(),
        witnesses: proof.commit_pow_witnesses.len(),
        coefficients: proof.final_poly.len(),
        constant: proof.final_poly.first().copied(),
        is_accepted,
        ends_agree: verifier == prover,
    }
}
