//! What a STARK prover does with a scheme, from the trait alone: it commits to preprocessed
//! columns, to a trace, to the chunks of a quotient and, where the scheme hides, to random
//! polynomials, and opens all of them at one point, and the first two at its successor too.

ghost use Rattle.std.specs.Prelude.{◌≡◌, ◌≢◌, ◌⊎◌, ◌*◌, [], ◌∷◌, if◌then◌else◌, map, length};
ghost use Rattle.std.specs.Prelude.{Some, true, IfOk, IfErr};
ghost use Rattle.p3_pcs.specs.Claims.{opened_values};
ghost use Rattle.p3_stark_columns.specs.Stark.{AreStarkValues, stark_claims, CommitsRefuse};
ghost use Rattle.p3_stark_columns.specs.Stark.{OpeningRefuses, IsCommitRefusal, IsOpenRefusal};

use crate::commit::{StarkColumns, commit_columns};
use crate::error::StarkError;
use crate::opening::{AskedBatches, StarkOpening, asked_batches, requests_of};
use p3_stark_pcs::{UnivariateStarkPcs, open_and_verify_with_preprocessing};
use std::alloc::{AllocError, Global};

/// The point with its successor, and the point alone.
fn points_at<EF: Copy>(
    alloc: Global,
    point: EF,
    successor: EF,
) -> Result<(Vec<EF>, Vec<EF>), AllocError>
    ensures both { IfOk result (λ lists. lists.0.items ≡ point ∷ successor ∷ []) }
    ensures one { IfOk result (λ lists. lists.1.items ≡ point ∷ []) }
{
    let mut both = Vec::with_capacity(alloc, 2)?;
    both.push(point)?;
    both.push(successor)?;
    let mut one = Vec::with_capacity(alloc, 1)?;
    one.push(point)?;
    Ok((both, one))
}

/// Opens the columns of a STARK at the point, and those of its trace and the preprocessed ones at
/// its successor too, and verifies what comes of it from a copy of the challenger. Where the scheme
/// hides, random polynomials on the trace's domains are committed to and opened at the point, last.
///
/// The opened values are those of what was committed to: of polynomials that have the columns on
/// their domains, of chunks that recombine to the quotient of the given ones, and of random
/// polynomials, as many on each domain as the scheme says. The proof is accepted of them, and
/// prover and verifier end in its last state. No proof of its own is refused but for want of
/// memory.
///
/// It commits to all columns and opens them at once, so it shows that a scheme serves a STARK and
/// is none: nothing is absorbed between. In a protocol the challenger absorbs what is public and
/// the trace's commitment before the quotient is made, and the quotient's before the point is
/// drawn.
pub fn open_stark_columns<EF: Copy, C: Clone, P: UnivariateStarkPcs<EF, C>>(
    scheme: &mut P,
    alloc: Global,
    columns: StarkColumns<P::Domain, P::Val>,
    point: EF,
    successor: EF,
    challenger: &mut C,
) -> Result<
    StarkOpening<EF, P::Commitment, P::Domain, P::Proof, C>,
    StarkError<P::ProverError, P::Error>,
>
    requires copies { (x y : C) → C.is_clone x y → y ≡ x }
    requires prover { (P.rules scheme.old).InProverRange }
    requires verifier { (P.rules scheme.old).InVerifierRange }
    requires preprocessed { (P.rules scheme.old).CanCommit columns.preprocessed.items }
    requires some_matrix { columns.preprocessed.items ≢ [] }
    requires trace { (P.rules scheme.old).CanCommit columns.trace.items }
    requires quotient { (P.stark_rules scheme.old).CanExtend columns.quotient.items
        (length columns.quotient.items) }
    requires quotient_domains { map (P.rules scheme.old).domain_size columns.quotient_domains.items
        ≡ map (λ e. (if P.ZK then 2 else 1) *
        (P.rules scheme.old).domain_size e.0) columns.quotient.items }
    requires random { P.ZK ≡ true
        → (P.stark_rules scheme.old).CanRandomize (map (λ e. e.0) columns.trace.items) }
    ensures values { let domains = map (λ e. e.0) columns.quotient.items in
        IfOk result (λ opened. AreStarkValues (P.rules scheme.new) (P.stark_rules scheme.new) P.ZK
        columns.preprocessed.items columns.trace.items (λ rows. P.recombined domains rows point)
        (P.recombined domains
        (map (λ e. (P.chunk_polynomials e).values_at point) columns.quotient.items) point)
        point successor opened.known.items (opened_values opened.verified.values.items)) }
    ensures accepted { IfOk result (λ opened. (P.rules scheme.new).Accepts (Some 0) challenger.old
        (stark_claims (point ∷ successor ∷ []) (point ∷ []) opened.known.items
        (opened_values opened.verified.values.items)) opened.verified.proof) }
    ensures prover_state { IfOk result (λ opened.
        challenger.new ≡ (P.rules scheme.new).last_state (Some 0) challenger.old
        (stark_claims (point ∷ successor ∷ []) (point ∷ []) opened.known.items
        (opened_values opened.verified.values.items)) opened.verified.proof) }
    ensures verifier_state { IfOk result (λ opened.
        opened.verified.challenger ≡ challenger.new) }
    ensures refused { let r = P.rules scheme.new in IfErr result (λ e.
        IsCommitRefusal (CommitsRefuse (P.rules scheme.old) (P.stark_rules scheme.old) P.ZK
        columns.preprocessed.items columns.trace.items columns.quotient.items) e
        ⊎ IsOpenRefusal (OpeningRefuses r (P.stark_rules scheme.new) P.ZK
        columns.preprocessed.items columns.trace.items (point ∷ successor ∷ []) (point ∷ [])
        challenger.old) (λ e. e ≡ r.out_of_memory) e) }
{
    let (both, one) = points_at(alloc, point, successor)?;
    let batches = commit_columns(scheme, alloc, columns)?;
    let AskedBatches { known, mut asked } = asked_batches(
        alloc,
        batches,
        both.as_slice(),
        one.as_slice(),
    )?;
    let mut requests = requests_of(alloc, asked.as_mut_slice())?;
    let opened = open_and_verify_with_preprocessing(
        &*scheme,
        alloc,
        known.as_slice(),
        requests.as_mut_slice(),
        challenger,
        Some(0),
    );
    match opened {
        Ok(verified) => Ok(StarkOpening { known, verified }),
        Err(error) => Err(StarkError::Open(error)),
    }
}
