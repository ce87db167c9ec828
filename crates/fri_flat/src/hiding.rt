//! The calls over bytes of the scheme that hides, at the field `F`.
//!
//! The seed of a request is secret, from a good source, and fresh for each opening: all masks are
//! drawn from it. Whoever knows it can compute what they hide, and so may whoever sees openings of
//! other data or at other points under the same seed.

ghost use Rattle.std.specs.Prelude.{◌≡◌, IfOk, length, false};
ghost use Rattle.std.specs.List.{All};
ghost use Rattle.p3_fri_plain.specs.Views.{hiding_seen};
ghost use Rattle.fri_verification.specs.Verdicts.{IsMadeFor};
ghost use Rattle.fri_flat.specs.Flat.{element_size};
ghost use Rattle.fri_flat.specs.Layouts.{layout_of};
ghost use Rattle.fri_flat.specs.HidingAnswers.{IsMarked, IsAcceptedHiding};

use crate::failure::Failure;
use crate::field::layout_of;
use crate::forms::{digests_of, hiding_answer_of, value_of};
use crate::hiding_forms::{HidingRequest, HidingStatement};
pub use crate::hiding_parts::HidingParts;
use crate::writer::push_element;
use fri_requests::{HidingScheme, MadeScheme, Request, VerifyError};
use fri_schemes::{Coset, SchemeField, SchemeParts};
use p3_challenger_sha256::Sha256Challenger;
use p3_fri_plain::{hiding_from_plain, hiding_to_plain};
use p3_pcs::Pcs;
use std::alloc::Global;

/// The request, whose commitment at the index is preprocessed.
fn marked(request: Request, index: Option<usize>) -> Result<Request, Failure>
    requires plain { All (λ b. b.preprocessed ≡ false) request.commitments.items }
    ensures { IfOk result (IsMarked request index) }
{
    let mut request = request;
    if let Some(index) = index {
        if request.commitments.len() <= index {
            return Err(Failure::NoCommitment { index });
        }
        request.commitments[index].preprocessed = true;
    }
    Ok(request)
}

/// The commitments of the hiding request in these bytes, 32 bytes each. `open` of the same bytes
/// has the same.
pub fn commit<F: SchemeField>(alloc: Global, bytes: &[u8]) -> Result<Vec<u8>, Failure>
    ensures { IfOk result (λ v. ⟦<F as HidingParts>⟧.Commits bytes.now v.items) }
{
    let layout = layout_of::<F>();
    let asked = value_of::<HidingRequest>(alloc, layout, bytes)?;
    let masking = asked.masking;
    let request = marked(asked.request, asked.preprocessed)?;
    let commitments = match fri_requests::commit::<F, HidingScheme<F>>(alloc, &request, masking) {
        Ok(commitments) => commitments,
        Err(error) => return Err(Failure::HidingRequest(error)),
    };
    let answer = digests_of(alloc, &commitments)?;
    Ok(answer)
}

/// The answer to the hiding request in these bytes: the next challenge, and the statement that
/// `verify` takes. The proof is bound to the whole statement: the number of random columns, the
/// index of the preprocessed commitment, the context, parameters, commitments, domains, widths and
/// points.
pub fn open<F: SchemeField>(alloc: Global, bytes: &[u8]) -> Result<Vec<u8>, Failure>
    ensures { IfOk result (λ v. ⟦<F as HidingParts>⟧.Opens bytes.now v.items) }
{
    let layout = layout_of::<F>();
    let asked = value_of::<HidingRequest>(alloc, layout, bytes)?;
    let masking = asked.masking;
    let request = marked(asked.request, asked.preprocessed)?;
    let opening = match fri_requests::open::<F, HidingScheme<F>>(alloc, &request, masking) {
        Ok(opening) => opening,
        Err(error) => return Err(Failure::HidingRequest(error)),
    };
    let statement = HidingStatement {
        num_random_codewords: masking.num_random_codewords,
        preprocessed: opening.preprocessing,
        context: request.context,
        parameters: request.parameters,
        claims: opening.claims,
        proof: hiding_to_plain::<F, F::Extension>(alloc, &opening.proof)?,
    };
    let answer = hiding_answer_of(alloc, layout, &opening.next_challenge, &statement)?;
    Ok(answer)
}

/// Verifies a statement.
fn verify_statement<F: SchemeField>(
    alloc: Global,
    statement: HidingStatement,
) -> Result<Vec<u64>, VerifyError>
    ensures { IfOk result (λ next. IsAcceptedHiding ⟦<F as SchemeParts>⟧.fields
        ⟦<HidingScheme<F> as Pcs<F::Extension, Sha256Challenger<F>>>⟧.rules (λ d. d.shift)
        (λ d. d.log_size) hiding_seen
        (IsMadeFor ⟦<HidingScheme<F> as MadeScheme<F, F::Extension, Coset<F>>>⟧.IsMade
        statement.parameters statement.num_random_codewords) statement next.items) }
{
    let proof = hiding_from_plain::<F, F::Extension>(alloc, statement.proof)?;
    fri_requests::verify::<F, HidingScheme<F>>(
        alloc,
        &statement.context,
        &statement.parameters,
        statement.num_random_codewords,
        statement.preprocessed,
        &statement.claims,
        &proof,
    )
}

/// Verifies the hiding statement in these bytes under the context that it states, and answers the
/// numbers of what the challenger draws next.
pub fn verify<F: SchemeField>(alloc: Global, bytes: &[u8]) -> Result<Vec<u8>, Failure>
    ensures statement { IfOk result (λ v.
        ⟦<F as HidingParts>⟧.Verifies bytes.now v.items) }
    ensures length { IfOk result (λ v.
        length v.items ≡ element_size (layout_of ⟦<F as SchemeParts>⟧.fields)) }
{
    let layout = layout_of::<F>();
    let statement = value_of::<HidingStatement>(alloc, layout, bytes)?;
    let next_challenge = match verify_statement::<F>(alloc, statement) {
        Ok(next_challenge) => next_challenge,
        Err(error) => return Err(Failure::Statement(error)),
    };
    let mut out = Vec::new(alloc);
    push_element(&mut out, layout, &next_challenge)?;
    Ok(out)
}
