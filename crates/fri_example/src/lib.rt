//! The scheme in use, by the names of the crates for users: a column is committed to on its natural
//! domain, both sides absorb the commitment with all else that is public, and then the column is
//! opened at a point and the opening verified.
#![tactic(auto)]

ghost use Rattle.std.specs.Prelude.{◌≡◌, ◌+◌, ◌^◌, ◌<◌, ◌≤◌, [], ◌∷◌, true, map, length, vec_len};
ghost use Rattle.std.specs.Prelude.{All, IfOk, None, Some};
ghost use Rattle.std.specs.List.{AllZip};
ghost use Rattle.algebra.specs.Polynomial.{val};
ghost use Rattle.p3_challenger.specs.Sha256.{start};
ghost use Rattle.p3_field.specs.BabyBear.{baby_bear, root, element};
ghost use Rattle.p3_fri_extensions.specs.Extension.{polynomial_on};
ghost use Rattle.p3_fri_relation.specs.Views.{parameters_of, proof_of};
ghost use Rattle.p3_pcs.specs.Claims.{opened_values};
ghost use Rattle.p3_pcs.specs.Requests.{honest_values, honest_claims};
ghost use Rattle.fri_statement.specs.BabyBear.{canonical_number, statement_absorbed};
ghost use Rattle.fri_example.specs.Opened.{IsAcceptedOpening, opening_parameters};
ghost use Rattle.fri_example.specs.Opened.{single_claim, single_statement};

use fri_statement::{StatedCommitment, StatedMatrix, absorb_statement};
use p3_challenger::Sha256Challenger;
use p3_commit::{KnownCommitment, OpeningRequest, Pcs, Sha256Mmcs, Verified, open_and_verify};
use p3_dft::Radix2Dit;
use p3_field::{BabyBear, BabyBear4, ExtensionField, TwoAdicMultiplicativeCoset};
use p3_fri_folding::FriParameters;
use p3_fri_two_adic::TwoAdicFriPcs;
use p3_matrix::RowMajorMatrix;
use std::alloc::{AllocError, Global};

/// The scheme, with the tree over SHA-256 for both commitments.
pub type Scheme = TwoAdicFriPcs<
    BabyBear,
    Radix2Dit<BabyBear>,
    Sha256Mmcs<BabyBear>,
    Sha256Mmcs<BabyBear4>,
>;

/// Parameters of these sizes: folds by two, two queries, and no proof of work.
fn parameters(log_blowup: usize, log_final_poly_len: usize) -> FriParameters<Sha256Mmcs<BabyBear4>>
    ensures { parameters_of result ≡ opening_parameters log_blowup log_final_poly_len }
{
    FriParameters {
        log_blowup,
        log_final_poly_len,
        max_log_arity: 1,
        num_queries: 2,
        batch_proof_of_work_bits: 0,
        commit_proof_of_work_bits: 0,
        query_proof_of_work_bits: 0,
        mmcs: Sha256Mmcs::new(),
    }
}

/// A list of one value.
fn listed<T: Drop>(alloc: Global, value: T) -> Result<Vec<T>, AllocError>
    ensures { IfOk result (λ v. v.items ≡ value ∷ []) }
{
    let mut values = Vec::with_capacity(alloc, 1)?;
    values.push(value)?;
    Ok(values)
}

/// Commits to one matrix on its domain, by any scheme. Refused for want of memory alone, or by what
/// the caller has tested.
fn commit_matrix<EF: Copy, C, P: Pcs<EF, C>>(
    scheme: &mut P,
    alloc: Global,
    evaluation: (P::Domain, RowMajorMatrix<P::Val>),
) -> Result<(P::Commitment, P::ProverData), AllocError>
    requires { (P.rules scheme.old).CanCommit (evaluation ∷ []) }
    ensures kept { P.Keeps scheme.old scheme.new }
    ensures openable { IfOk result (λ pair. (P.rules scheme.new).CanOpen pair.1) }
    ensures honest { IfOk result (λ pair. (P.rules scheme.new).IsHonest pair.1) }
    ensures commitment { IfOk result (λ pair. (P.rules scheme.new).commitment_of pair.1 ≡ pair.0) }
    ensures extends { let r = P.rules scheme.new in IfOk result (λ pair.
        AllZip r.Extends (r.committed_polynomials pair.1) (evaluation ∷ [])) }
    ensures sizes { let r = P.rules scheme.new in IfOk result (λ pair.
        map (λ m. m.size) (r.committed_polynomials pair.1) ≡ r.domain_size evaluation.0 ∷ []) }
{
    let evaluations = listed(alloc, evaluation)?;
    match scheme.commit(alloc, evaluations) {
        Ok(committed) => Ok(committed),
        Err(_) => Err(AllocError),
    }
}

/// Opens the one matrix of committed data at one point, and verifies what comes of it, by any
/// scheme. The challenger has absorbed what is public, the commitment too. Honest data is refused
/// for want of memory alone, or by what the caller has tested.
fn open_at<EF: Copy, C: Clone, P: Pcs<EF, C>>(
    scheme: &P,
    alloc: Global,
    known: KnownCommitment<P::Commitment, P::Domain>,
    committed: &mut P::ProverData,
    point: EF,
    challenger: &mut C,
) -> Result<Verified<EF, P::Proof, C>, AllocError>
    requires copies { (x y : C) → C.is_clone x y → y ≡ x }
    requires prover { (P.rules scheme.now).InProverRange }
    requires verifier { (P.rules scheme.now).InVerifierRange }
    requires openable { (P.rules scheme.now).CanOpen committed.old }
    requires honest { (P.rules scheme.now).IsHonest committed.old }
    requires commitment { known.commitment ≡ (P.rules scheme.now).commitment_of committed.old }
    requires sizes { map (P.rules scheme.now).domain_size known.domains.items
        ≡ map (λ m. m.size) ((P.rules scheme.now).committed_polynomials committed.old) }
    requires one_matrix { length ((P.rules scheme.now).committed_polynomials committed.old) ≡ 1 }
    ensures values { IfOk result (λ v. opened_values v.values.items ≡ honest_values
        (P.rules scheme.now).committed_polynomials
        (record { datum = committed.old; points = (point ∷ []) ∷ [] }) ∷ []) }
    ensures accepted { let claims = honest_claims (P.rules scheme.now).committed_polynomials
        (P.rules scheme.now).commitment_of (known.domains.items ∷ [])
        (record { datum = committed.old; points = (point ∷ []) ∷ [] } ∷ []) in
        IfOk result (λ v. (P.rules scheme.now).Accepts None challenger.old claims v.proof) }
    ensures states { IfOk result (λ v. v.challenger ≡ challenger.new) }
{
    let known = listed(alloc, known)?;
    let request = OpeningRequest {
        prover_data: committed,
        points: listed(alloc, listed(alloc, point)?)?,
    };
    let mut requests = listed(alloc, request)?;
    let opened = open_and_verify(scheme, alloc, &known, requests.as_mut_slice(), challenger);
    match opened {
        Ok(verified) => Ok(verified),
        Err(_) => Err(AllocError),
    }
}

/// The value, where there is one in all.
fn only_value<EF: Copy>(values: &[Vec<Vec<Vec<EF>>>]) -> Option<EF>
    ensures one { (y : EF) → opened_values values.now ≡ (((y ∷ []) ∷ []) ∷ []) ∷ []
        → result ≡ Some y }
    ensures no_other { (y : EF) → result ≡ Some y
        → opened_values values.now ≡ (((y ∷ []) ∷ []) ∷ []) ∷ [] }
{
    let [matrices] = values else {
        return None;
    };
    let [points] = matrices.as_slice() else {
        return None;
    };
    let [columns] = points.as_slice() else {
        return None;
    };
    let [value] = columns.as_slice() else {
        return None;
    };
    Some(*value)
}

/// Opens committed data of one column at one point, by any scheme: the value there, the proof, and
/// the challenger that the verifier used. Refused as `open_at` is, and where there is another
/// number of values than one.
fn open_value<EF: Copy, C: Clone, P: Pcs<EF, C>>(
    scheme: &P,
    alloc: Global,
    commitment: P::Commitment,
    domain: P::Domain,
    mut committed: P::ProverData,
    point: EF,
    challenger: &mut C,
) -> Result<(EF, P::Proof, C), AllocError>
    requires copies { (x y : C) → C.is_clone x y → y ≡ x }
    requires prover { (P.rules scheme.now).InProverRange }
    requires verifier { (P.rules scheme.now).InVerifierRange }
    requires openable { (P.rules scheme.now).CanOpen committed }
    requires honest { (P.rules scheme.now).IsHonest committed }
    requires commitment { (P.rules scheme.now).commitment_of committed ≡ commitment }
    requires sizes { map (λ m. m.size) ((P.rules scheme.now).committed_polynomials committed)
        ≡ (P.rules scheme.now).domain_size domain ∷ [] }
    ensures value { IfOk result (λ o. All (λ m. m.values_at point ≡ o.0 ∷ [])
        ((P.rules scheme.now).committed_polynomials committed)) }
    ensures accepted { IfOk result (λ o. (P.rules scheme.now).Accepts None challenger.old
        (single_claim commitment domain point o.0 ∷ []) o.1) }
    ensures states { IfOk result (λ o. o.2 ≡ challenger.new) }
{
    let known = KnownCommitment {
        commitment,
        domains: listed(alloc, domain)?,
    };
    let verified = open_at(scheme, alloc, known, &mut committed, point, challenger)?;
    let Some(value) = only_value(&verified.values) else {
        return Err(AllocError);
    };
    Ok((value, verified.proof, verified.challenger))
}

/// A fresh challenger that has absorbed what is known before a column is opened: the parameters,
/// the commitment, and the column's domain and point. The context is empty; an application puts its
/// name and its public data there.
fn bound_challenger(
    alloc: Global,
    params: &FriParameters<Sha256Mmcs<BabyBear4>>,
    commitment: [u8; 32],
    domain: TwoAdicMultiplicativeCoset<BabyBear>,
    point: BabyBear4,
) -> Result<Sha256Challenger, AllocError>
    ensures { IfOk result (λ c. c ≡ statement_absorbed start
        (single_statement (parameters_of params.now) commitment
        (canonical_number domain.shift) domain.log_size point)) }
{
    let matrix = StatedMatrix {
        domain,
        width: 1,
        points: listed(alloc, point)?,
    };
    let stated = StatedCommitment {
        commitment,
        matrices: listed(alloc, matrix)?,
    };
    let mut challenger = Sha256Challenger::new();
    absorb_statement(alloc, &mut challenger, &[], params, &[stated])?;
    Ok(challenger)
}

/// An opening that was accepted.
#[derive(Drop)]
pub struct Opening {
    /// The commitment to the column.
    pub commitment: [u8; 32],
    /// The value at the point.
    pub value: BabyBear,
    /// What shows that the column under the commitment has that value.
    pub proof: <Scheme as Pcs<BabyBear4, Sha256Challenger>>::Proof,
    /// Whether prover and verifier ended in one state.
    pub are_states_equal: bool,
}

/// Commits to a column of `2^log_size` entries on its natural domain, absorbs the statement (the
/// parameters, the commitment, the column's domain and the point), and opens the column at that
/// point of the base field. A verifier that began in the same state has accepted the opening.
pub fn open_column(
    alloc: Global,
    log_blowup: usize,
    log_final_poly_len: usize,
    log_size: usize,
    column: Vec<BabyBear>,
    point: BabyBear,
) -> Result<Opening, AllocError>
    requires blowup { 0 < log_blowup }
    requires final_height { log_blowup + log_final_poly_len < 64 }
    requires size { vec_len column ≡ 2 ^ log_size }
    requires height { log_size + log_blowup ≤ 27 }
    ensures value { IfOk result (λ o. o.value
        ≡ val baby_bear (polynomial_on baby_bear root (element 1) log_size column.items) point) }
    ensures accepted { IfOk result (λ o. IsAcceptedOpening log_blowup log_final_poly_len log_size
        o.commitment point o.value (proof_of o.proof)) }
    ensures states { IfOk result (λ o. o.are_states_equal ≡ true) }
{
    let mut scheme: Scheme = TwoAdicFriPcs::new(
        Radix2Dit::default(),
        Sha256Mmcs::new(),
        parameters(log_blowup, log_final_poly_len),
    );
    let domain = <Scheme as Pcs<BabyBear4, Sha256Challenger>>::natural_domain_for_degree(
        &scheme,
        column.len(),
    );
    let matrix = RowMajorMatrix::new(column, 1);
    let (commitment, committed) = commit_matrix::<BabyBear4, Sha256Challenger, Scheme>(
        &mut scheme,
        alloc,
        (domain, matrix),
    )?;
    let lifted: BabyBear4 = ExtensionField::<BabyBear>::from_base(point);
    let params = parameters(log_blowup, log_final_poly_len);
    let mut challenger = bound_challenger(alloc, &params, commitment, domain, lifted)?;
    let (value, proof, verifier) = open_value(
        &scheme,
        alloc,
        commitment,
        domain,
        committed,
        lifted,
        &mut challenger,
    )?;
    Ok(Opening {
        commitment,
        value: ExtensionField::<BabyBear>::coefficient(value, 0),
        proof,
        are_states_equal: verifier == challenger,
    })
}
