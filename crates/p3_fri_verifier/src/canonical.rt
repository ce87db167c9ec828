//! Whether the witnesses of proofs of work that have no bits are zero.

ghost use Rattle.std.specs.Prelude.{◌≡◌, ◌≢◌, ◌↔◌, All, true, false, IsTrue, IsOk, IfErr};
ghost use Rattle.std.specs.List.{Any};
ghost use Rattle.p3_fri_folding.specs.declared.pow_phase.PowPhase.{PowPhase};
ghost use Rattle.p3_fri_relation.specs.Acceptance.{AreCanonical};
ghost use Rattle.p3_fri_relation.specs.Faults.{IsNotCanonical};
ghost use Rattle.p3_fri_relation.specs.Views.{parameters_of, proof_of};
ghost use Rattle.p3_fri_relation.specs.declared.error.FriError.TheVariants.{NonCanonicalPowWitness};

use p3_field_core::Field;
use p3_fri_folding::{FriParameters, PowPhase};
use p3_fri_relation::error::FriError;
use p3_fri_relation::proof::{BatchMultiOpening, FriProof};
use p3_mmcs::Mmcs;

/// Whether the witness of a proof of work of as many bits is zero if they are none.
fn is_canonical<F: Field>(bits: usize, witness: F) -> bool
    ensures exact { IsTrue result ↔ (bits ≡ 0 → witness ≡ F.ops.zero) }
    ensures otherwise { result ≡ false → (bits ≡ 0) × (witness ≢ F.ops.zero) }
{
    bits > 0 || witness.is_zero()
}

/// Whether those of several are.
fn are_canonical<F: Field>(bits: usize, witnesses: &[F]) -> bool
    ensures exact { IsTrue result ↔ (bits ≡ 0 → All (λ w. w ≡ F.ops.zero) witnesses.now) }
    ensures otherwise { result ≡ false
        → (bits ≡ 0) × Any (λ w. w ≢ F.ops.zero) witnesses.now }
{
    for witness in witnesses {
        if !is_canonical(bits, *witness) {
            return false;
        }
    }
    true
}

/// Whether each witness of a proof whose proof of work has no bits by the parameters is zero: only
/// then a proof isn't one of many that differ in witnesses that nobody reads.
///
/// # Errors
///
/// `NonCanonicalPowWitness`, with a phase whose witness isn't.
pub fn check_canonical<F: Field, EF: Copy, M: Mmcs<EF>, InputMmcs: Mmcs<F>>(
    params: &FriParameters<M>,
    proof: &FriProof<EF, M, F, Vec<BatchMultiOpening<F, InputMmcs>>>,
) -> Result<(), FriError<M::Error, InputMmcs::Error>>
    ensures exact { IsOk result
        ↔ AreCanonical (parameters_of params.now) (proof_of proof.now) F.ops.zero }
    ensures refusal { IfErr result (λ e. (phase : PowPhase) × (e ≡ NonCanonicalPowWitness phase)
        × IsNotCanonical (parameters_of params.now) (proof_of proof.now) F.ops.zero phase) }
{
    if !is_canonical(params.batch_proof_of_work_bits, proof.batch_pow_witness) {
        return Err(FriError::NonCanonicalPowWitness {
            phase: PowPhase::Batch,
        });
    }
    let witnesses = proof.commit_pow_witnesses.as_slice();
    if !are_canonical(params.commit_proof_of_work_bits, witnesses) {
        return Err(FriError::NonCanonicalPowWitness {
            phase: PowPhase::CommitPhase,
        });
    }
    if !is_canonical(params.query_proof_of_work_bits, proof.query_pow_witness) {
        return Err(FriError::NonCanonicalPowWitness {
            phase: PowPhase::Query,
        });
    }
    Ok(())
}
