//! The column of `2 - X`, opened at 5.

ghost use Rattle.std.specs.Prelude.{◌≡◌, [], ◌∷◌, length};
ghost use Rattle.p3_fri_extensions.specs.Extension.{FitsDomain};
ghost use Rattle.p3_fri_relation.specs.Views.{parameters_of};
ghost use Rattle.p3_fri_two_adic.specs.Ranges.{InProverRange, InVerifierRange};

use p3_challenger::Sha256Challenger;
use p3_dft::Radix2Dit;
use p3_field::{BabyBear, BabyBear4, ExtensionField, Field, TwoAdicMultiplicativeCoset};
use p3_fri_folding::FriParameters;
use p3_fri_plain::TwoAdicFriProof;
use p3_fri_two_adic::TwoAdicFriPcs;
use p3_matrix::RowMajorMatrix;
use p3_mmcs::{CommitmentOpening, MatrixOpening, Mmcs, PointOpening, Sha256Mmcs};
use p3_pcs::{OpeningRequest, Pcs};
use std::alloc::Global;
use std::process::Abort;

type Inputs = Sha256Mmcs<BabyBear>;

type Rounds = Sha256Mmcs<BabyBear4>;

pub(crate) type Scheme = TwoAdicFriPcs<BabyBear, Radix2Dit<BabyBear>, Inputs, Rounds>;

type Domain = TwoAdicMultiplicativeCoset<BabyBear>;

pub(crate) type Claims = Vec<CommitmentOpening<BabyBear4, [u8; 32], Domain>>;

/// The values of `2 - X` at 1 and at -1.
const COLUMN: [u64; 2] = [1, 3];

const POINT: u64 = 5;

/// The value there, -3.
const VALUE: u64 = 2_013_265_918;

/// The commitment to the column, as a program of its own found it by the format alone.
pub(crate) const COMMITMENT: [u8; 32] = [
    42, 164, 25, 245, 142, 161, 128, 45, 138, 113, 78, 136, 21, 121, 24, 213, 198, 76, 148, 140,
    187, 246, 213, 127, 168, 97, 97, 236, 222, 206, 114, 3,
];

/// The proof's plain form in JSON, as that program wrote it.
pub(crate) static LINE: &str =
    "{\"batch_pow_witness\":0,\"commit_phase_commits\":[[82,209,1,179,86,32,87,13,228,23,208,31,43,\
111,142,251,122,244,26,216,151,0,54,192,32,254,3,166,215,180,246,123]],\
\"commit_pow_witnesses\":[0],\"input_openings\":[{\"opened_values\":[[[33]],[[2013265892]]],\
\"paths\":[[[137,22,172,15,141,106,138,250,160,19,234,247,45,169,18,6,61,54,216,4,54,165,161,\
240,222,238,90,60,34,100,97,45],[68,236,66,223,169,28,147,190,9,237,20,89,8,161,135,152,128,174,\
164,250,144,169,155,93,155,47,12,161,85,158,72,84]],[[30,49,68,212,226,142,52,201,33,60,136,120,\
117,220,185,245,69,108,28,88,128,176,156,7,201,132,4,37,244,179,232,76],[68,236,66,223,169,28,\
147,190,9,237,20,89,8,161,135,152,128,174,164,250,144,169,155,93,155,47,12,161,85,158,72,\
84]]]}],\"commit_phase_openings\":[{\"sibling_values\":[[[2013265920,0,0,0]],[[2013265920,0,0,\
0]]],\"paths\":[[[183,40,136,23,139,188,34,252,98,59,80,99,132,51,156,245,172,100,184,118,88,36,\
21,32,41,5,66,177,86,251,135,52]],[[183,40,136,23,139,188,34,252,98,59,80,99,132,51,156,245,172,\
100,184,118,88,36,21,32,41,5,66,177,86,251,135,52]]]}],\"final_poly\":[[2013265920,0,0,0]],\
\"query_pow_witness\":0}";

/// A blowup of 2, folds by two to a constant, two queries and no proof of work.
pub(crate) fn scheme() -> Scheme
    ensures log_blowup { result.fri.log_blowup ≡ 1 }
    ensures prover_range { InProverRange (parameters_of result.fri) 27 63 }
    ensures verifier_range { InVerifierRange (parameters_of result.fri) 27 63 }
{
    let parameters = FriParameters {
        log_blowup: 1,
        log_final_poly_len: 0,
        max_log_arity: 1,
        num_queries: 2,
        batch_proof_of_work_bits: 0,
        commit_proof_of_work_bits: 0,
        query_proof_of_work_bits: 0,
        mmcs: Sha256Mmcs::new(),
    };
    TwoAdicFriPcs::new(Radix2Dit::default(), Sha256Mmcs::new(), parameters)
}

/// A list of one value.
fn listed<T>(rt: &impl Abort, alloc: Global, value: T) -> Vec<T>
    ensures { result.items ≡ value ∷ [] }
{
    let mut values = Vec::new(alloc);
    values.push(value).expect(rt, "memory");
    values
}

/// The domain of two points.
fn domain(rt: &impl Abort) -> Domain {
    TwoAdicMultiplicativeCoset::new(BabyBear::ONE, 1).expect(rt, "no domain of two points")
}

/// The column on its domain.
fn evaluation(rt: &impl Abort, alloc: Global) -> (Domain, RowMajorMatrix<BabyBear>)
    ensures { FitsDomain 27 1 result.0.log_size result.1 }
{
    let [first, second] = COLUMN;
    let values = vec![in alloc; BabyBear::from_u64(first), BabyBear::from_u64(second)];
    let matrix = RowMajorMatrix::new(values.expect(rt, "memory"), 1);
    let domain = domain(rt);
    assert!(rt;
        matrix.height() == domain.size() && domain.log_size() <= 8,
        "not a column on its domain"
    );
    (domain, matrix)
}

/// The proof for the one matrix of committed data, opened at one point by a challenger that is new.
fn open_at<EF: Copy, C, P: Pcs<EF, C>>(
    rt: &impl Abort,
    scheme: &P,
    alloc: Global,
    committed: &mut P::ProverData,
    point: EF,
    challenger: &mut C,
) -> P::Proof
    requires prover { (P.rules scheme.now).InProverRange }
    requires openable { (P.rules scheme.now).CanOpen committed.old }
    requires one_matrix { length ((P.rules scheme.now).committed_polynomials committed.old) ≡ 1 }
{
    let request = OpeningRequest {
        prover_data: committed,
        points: listed(rt, alloc, listed(rt, alloc, point)),
    };
    let mut requests = listed(rt, alloc, request);
    match scheme.open(alloc, requests.as_mut_slice(), challenger) {
        Ok((_, proof)) => proof,
        Err(_) => panic!(rt; "the opening is refused"),
    }
}

/// The column committed to, and the proof of its opening.
pub(crate) fn opened(rt: &impl Abort, alloc: Global) -> ([u8; 32], TwoAdicFriProof) {
    let mut scheme = scheme();
    let evaluations = listed(rt, alloc, evaluation(rt, alloc));
    let answer = <Scheme as Pcs<BabyBear4, Sha256Challenger>>::commit(
        &mut scheme,
        alloc,
        evaluations,
    );
    let (commitment, mut data) = answer.expect(rt, "memory was refused");
    assert!(rt;
        Inputs::new().get_matrices(&data).len() == 1,
        "not one matrix"
    );
    let point: BabyBear4 = ExtensionField::<BabyBear>::from_base(BabyBear::from_u64(POINT));
    let mut challenger = Sha256Challenger::new();
    let proof = open_at(rt, &scheme, alloc, &mut data, point, &mut challenger);
    (commitment, proof)
}

/// What is claimed of the column.
fn claims(rt: &impl Abort, alloc: Global) -> Claims {
    let value = ExtensionField::<BabyBear>::from_base(BabyBear::from_u64(VALUE));
    let point = PointOpening {
        point: ExtensionField::<BabyBear>::from_base(BabyBear::from_u64(POINT)),
        values: listed(rt, alloc, value),
    };
    let matrix = MatrixOpening {
        domain: domain(rt),
        points: listed(rt, alloc, point),
    };
    let claim = CommitmentOpening {
        commitment: COMMITMENT,
        matrices: listed(rt, alloc, matrix),
    };
    listed(rt, alloc, claim)
}

/// Whether the verifier accepts it as a proof of the claims.
pub(crate) fn is_accepted(rt: &impl Abort, alloc: Global, proof: &TwoAdicFriProof) -> bool {
    let answer = <Scheme as Pcs<BabyBear4, Sha256Challenger>>::verify(
        &scheme(),
        alloc,
        claims(rt, alloc),
        proof,
        &mut Sha256Challenger::new(),
    );
    answer.is_ok()
}
