//! Proofs of systems by their numbers.

ghost use Rattle.std.specs.Prelude.{◌≡◌, IfOk, IfErr};
ghost use Rattle.p3_uni_stark_verifier.specs.Setting.{stark_setting};
ghost use Rattle.p3_uni_stark_system.specs.Systems.{numbers_of, IsAcceptedSystem};
ghost use Rattle.p3_uni_stark_system.specs.Systems.{IsRefusedSystem};

use crate::error::SystemVerificationError;
use crate::preprocessing::commit_numbers;
use crate::system::PlainSystem;
use p3_challenger_core::{CanObserve, FieldChallenger, Plays};
use p3_dft::TwoAdicSubgroupDft;
use p3_field_core::{ExtensionField, PrimeField64, TwoAdicField, TwoAdicMultiplicativeCoset};
use p3_uni_stark_pcs::TwoAdicStarkPcs;
use p3_uni_stark_statement::{PlainStatement, verify_plain};
use p3_uni_stark_verifier::Proof;
use p3_uni_stark_verifier::setting::StarkField;
use std::alloc::Global;

/// Whether the proof shows that some trace satisfies the system, with these public values. Nothing
/// is asked of the numbers or of the proof. The preprocessed columns are committed to first, and
/// then the proof is verified of the one statement that these are the numbers of.
pub fn verify_system<
    F: TwoAdicField + PrimeField64,
    EF: ExtensionField<F>,
    Com: Copy,
    C: FieldChallenger<F> + CanObserve<Com>,
    Dft: TwoAdicSubgroupDft<F> + Default + Drop,
    P: TwoAdicStarkPcs<EF, C, TwoAdicMultiplicativeCoset<F>, Commitment = Com>,
>(
    scheme: &mut P,
    alloc: Global,
    system: &PlainSystem<'_>,
    public_values: &[u64],
    proof: &Proof<EF, Com, P::Proof>,
    challenger: &mut C,
) -> Result<(), SystemVerificationError<P::ProverError, P::Error>>
    requires range { (P.rules scheme.old).InVerifierRange }
    ensures kept { P.Keeps scheme.old scheme.new }
    ensures accepted { let S = stark_setting ⟦<EF as StarkField<F>>⟧.fields
        ⟦<C as Plays<F, EF, Com>>⟧.moves P.ZK (P.rules scheme.new)
        (λ k d. (d.shift ≡ F.ONE) × (d.log_size ≡ k)) in IfOk result (λ _.
        IsAcceptedSystem F.canonical S (numbers_of system.now public_values.now) proof.now
        challenger.old challenger.new) }
    ensures refused { let S = stark_setting ⟦<EF as StarkField<F>>⟧.fields
        ⟦<C as Plays<F, EF, Com>>⟧.moves P.ZK (P.rules scheme.new)
        (λ k d. (d.shift ≡ F.ONE) × (d.log_size ≡ k)) in IfErr result
        (IsRefusedSystem F.ORDER_U64 (P.log_blowup scheme.old) F.canonical S
        (P.stark_rules scheme.old) (numbers_of system.now public_values.now) proof.now
        challenger.old challenger.new) }
{
    let width = system.air.layout.preprocessed_width;
    let committed = commit_numbers::<F, EF, Com, C, P>(scheme, alloc, system.preprocessed, width);
    let key = match committed {
        Ok(key) => key,
        Err(error) => return Err(SystemVerificationError::Preprocessing(error)),
    };
    let statement = PlainStatement {
        air: system.air,
        preprocessed: key,
        periodic: system.periodic,
        public_values,
    };
    match verify_plain::<F, EF, Com, C, Dft, P>(&*scheme, alloc, &statement, proof, challenger) {
        Ok(()) => Ok(()),
        Err(error) => Err(SystemVerificationError::Proof(error)),
    }
}
