//! Verification of statements.

ghost use Rattle.std.specs.Prelude.{◌≡◌, map, IsOk, IfOk, IfErr};
ghost use Rattle.p3_pcs.specs.Claims.{claim};
ghost use Rattle.fri_records.specs.Failures.{MatchVerifyError};
ghost use Rattle.fri_verification.specs.Statements.{IsStatement};
ghost use Rattle.fri_verification.specs.Verdicts.{IsMadeFor, IsAcceptedBy, IsRefusedBy};

use crate::statement::{next_drawn, read_statement};
use fri_numbers::Claims;
use fri_records::{BatchClaims, Parameters, VerifyError, verifier_parameters};
use fri_schemes::{Coset, MadeScheme, SchemeField, SchemeParts};
use p3_challenger_sha256::Sha256Challenger;
use std::alloc::{AllocError, Global};

/// Verifies claims from this challenger on, where the index names those of preprocessing.
fn verify_claims<F: SchemeField, P: MadeScheme<F, F::Extension, Coset<F>>>(
    alloc: Global,
    scheme: &P,
    claims: Claims<F>,
    proof: &P::Proof,
    challenger: &mut Sha256Challenger<F>,
    preprocessing: Option<usize>,
) -> Result<(), VerifyError>
    requires range { (P.rules scheme.now).InVerifierRange }
    ensures accepted { IsOk result → (P.rules scheme.now).Accepts preprocessing challenger.old
        (map claim claims.items) proof.now }
    ensures state { IsOk result → challenger.new ≡ (P.rules scheme.now).last_state preprocessing
        challenger.old (map claim claims.items) proof.now }
    ensures refused { IfErr result (MatchVerifyError ⊥ (λ e.
        (¬ (P.rules scheme.now).Accepts preprocessing challenger.old (map claim claims.items)
        proof.now) × (P.rules scheme.now).IsTrueRefusal preprocessing (map claim claims.items)
        proof.now challenger.old e)) }
{
    match scheme.verify_with_preprocessing(alloc, claims, proof, challenger, preprocessing) {
        Ok(()) => Ok(()),
        Err(error) => Err(error.into()),
    }
}

/// Verifies claims and their proof, and answers what the challenger draws next: of what `open`
/// answers its `next_challenge`. The challenger begins with the whole statement: by what the scheme
/// hides, if it does, the context, a hex text, the parameters, and the commitments, domains, widths
/// and points of the claims. So what is accepted was proved for just these, and only a verifier
/// that has fixed them itself, or compares them with what it expects, knows what it accepts. The
/// index names the commitment to preprocessed matrices, if there is one; a plain scheme reads
/// neither it nor the number of random columns.
pub fn verify<F: SchemeField, P: MadeScheme<F, F::Extension, Coset<F>>>(
    alloc: Global,
    context: &str,
    parameters: &Parameters,
    num_random_codewords: usize,
    preprocessing: Option<usize>,
    claims: &[BatchClaims],
    proof: &P::Proof,
) -> Result<Vec<u64>, VerifyError>
    ensures accepted { IfOk result (λ next. IsAcceptedBy ⟦<F as SchemeParts>⟧.fields P.rules
        (λ d. d.shift) (λ d. d.log_size) (IsMadeFor P.IsMade parameters.now num_random_codewords)
        (P.begun num_random_codewords preprocessing) context.now parameters.now preprocessing
        claims.now proof.now next.items) }
    // where it isn't well formed, where it is refused
    ensures refused { IfErr result (MatchVerifyError
        (¬ IsStatement ⟦<F as SchemeParts>⟧.fields context.now parameters.now claims.now)
        (IsRefusedBy ⟦<F as SchemeParts>⟧.fields P.rules (λ d. d.shift) (λ d. d.log_size)
        (IsMadeFor P.IsMade parameters.now num_random_codewords)
        (P.begun num_random_codewords preprocessing) context.now parameters.now preprocessing
        claims.now proof.now)) }
{
    let fri = match verifier_parameters::<F, F::Extension>(parameters) {
        Ok(fri) => fri,
        Err(misfit) => return Err(VerifyError::Malformed(misfit)),
    };
    // a verifier draws nothing
    let scheme = P::made(fri, num_random_codewords, [0; 32]);
    let begun = P::begin(alloc, num_random_codewords, preprocessing)?;
    let (claims, mut challenger) = read_statement(alloc, begun, context, parameters, claims)?;
    verify_claims::<F, P>(
        alloc,
        &scheme,
        claims,
        proof,
        &mut challenger,
        preprocessing,
    )?;
    Ok(next_drawn::<F, F::Extension>(alloc, &mut challenger)?)
}
