//! The plain scheme over records: what the calls over any scheme say, in terms of the relation and
//! of the listed polynomials.

ghost use Rattle.std.specs.Prelude.{IfOk, IfErr, map, string_bytes, false};
ghost use Rattle.std.specs.List.{AllZip};
ghost use Rattle.p3_fri_relation.specs.Views.{proof_of};
ghost use Rattle.fri_records.specs.Failures.{MatchRequestError, MatchVerifyError};
ghost use Rattle.fri_requests.specs.Accepted.{IsAccepted, IsRefused};
ghost use Rattle.fri_numbers.specs.Claims.{batch_listed};
ghost use Rattle.fri_requests.specs.Commitments.{IsCommitmentTo};
ghost use Rattle.fri_requests.specs.Opened.{IsOpened};
ghost use Rattle.fri_commitments.specs.Requests.{CanCommit, CanOpen};
ghost use Rattle.fri_requests.specs.PlainRequests.{IsRefusedRequest};
ghost use Rattle.fri_verification.specs.Statements.{IsStatement};

use fri_commitments::{Masking, commit as commit_by};
use fri_opening::{Opening, open as open_by};
use fri_records::{BatchClaims, Parameters, Request, RequestError, Rounds, VerifyError};
use fri_schemes::{Inputs, PlainScheme, SchemeField, SchemeParts};
use fri_verification::verify as verify_by;
use p3_field::BabyBear;
use p3_fri_folding::FriProverError;
use p3_fri_relation::proof::{BatchMultiOpening, FriProof};
use std::alloc::Global;

/// The plain scheme's proof over the field `F`.
pub type Proof<F = BabyBear> = FriProof<
    <F as SchemeField>::Extension,
    Rounds<<F as SchemeField>::Extension>,
    F,
    Vec<BatchMultiOpening<F, Inputs<F>>>,
>;

/// Nothing is masked.
const NOTHING: Masking = Masking {
    num_random_codewords: 0,
    seed: [0; 32],
};

/// The commitments of a request over the field `F`, each 32 bytes, in order. Its points aren't
/// read.
pub fn commit<F: SchemeField>(
    alloc: Global,
    request: &Request,
) -> Result<Vec<[u8; 32]>, RequestError<FriProverError>>
    ensures committed { IfOk result (λ commitments. AllZip (IsCommitmentTo
        ⟦<F as SchemeParts>⟧.fields request.now.parameters.log_blowup) commitments.items
        request.now.commitments.items) }
    ensures well_formed { IfOk result (λ _.
        CanCommit ⟦<F as SchemeParts>⟧.fields false request.now) }
    // the scheme itself refuses for want of memory alone
    ensures refused { IfErr result (MatchRequestError
        (¬ CanCommit ⟦<F as SchemeParts>⟧.fields false request.now) (λ _. ⊥)) }
{
    commit_by::<F, PlainScheme<F>>(alloc, request, NOTHING)
}

/// Commits to a request's matrices over the field `F` and opens them at its points, as `open` of
/// any scheme does. The preprocessed batch is opened as the others.
pub fn open<F: SchemeField>(
    alloc: Global,
    request: &Request,
) -> Result<Opening<Proof<F>>, RequestError<FriProverError>>
    ensures accepted { IfOk result (λ o. IsAccepted ⟦<F as SchemeParts>⟧.fields
        (string_bytes request.now.context) request.now.parameters o.claims.items
        (proof_of o.proof) o.next_challenge.items) }
    ensures opened { IfOk result (λ o. AllZip (IsOpened ⟦<F as SchemeParts>⟧.fields
        request.now.parameters.log_blowup) (map batch_listed o.claims.items)
        request.now.commitments.items) }
    ensures well_formed { IfOk result (λ _.
        CanOpen ⟦<F as SchemeParts>⟧.fields false request.now) }
    // where it can't be opened, where the scheme refuses it
    ensures refused { IfErr result (MatchRequestError
        (¬ CanOpen ⟦<F as SchemeParts>⟧.fields false request.now)
        (IsRefusedRequest ⟦<F as SchemeParts>⟧.fields F.LEN F.Extension.LEN request.now)) }
{
    open_by::<F, PlainScheme<F>>(alloc, request, NOTHING)
}

/// Verifies claims and their proof over the field `F`, as `verify` of any scheme does, and answers
/// what the challenger draws next.
pub fn verify<F: SchemeField>(
    alloc: Global,
    context: &str,
    parameters: &Parameters,
    claims: &[BatchClaims],
    proof: &Proof<F>,
) -> Result<Vec<u64>, VerifyError>
    ensures accepted { IfOk result (λ next. IsAccepted ⟦<F as SchemeParts>⟧.fields context.now
        parameters.now claims.now (proof_of proof.now) next.items) }
    // where it isn't well formed, where it is refused
    ensures refused { IfErr result (MatchVerifyError
        (¬ IsStatement ⟦<F as SchemeParts>⟧.fields context.now parameters.now claims.now)
        (IsRefused ⟦<F as SchemeParts>⟧.fields context.now parameters.now claims.now
        (proof_of proof.now))) }
{
    verify_by::<F, PlainScheme<F>>(alloc, context, parameters, 0, None, claims, proof)
}
