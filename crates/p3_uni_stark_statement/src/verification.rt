//! Proofs of statements by their numbers.

ghost use Rattle.std.specs.Prelude.{◌≡◌, IfOk, IfErr};
ghost use Rattle.p3_uni_stark_statement.specs.Statements.{stated, IsAcceptedOf, IsRefusedOf};
ghost use Rattle.p3_uni_stark_verifier.specs.Setting.{stark_setting};

use crate::error::PlainVerificationError;
use crate::statement::PlainStatement;
use p3_air_plain::{Part, air_from_plain, elements_from_plain, rows_from_plain};
use p3_challenger_core::{CanObserve, FieldChallenger, Plays};
use p3_dft::TwoAdicSubgroupDft;
use p3_field_core::{ExtensionField, PrimeField64, TwoAdicField, TwoAdicMultiplicativeCoset};
use p3_stark_pcs::UnivariateStarkPcs;
use p3_uni_stark_verifier::setting::StarkField;
use p3_uni_stark_verifier::{Proof, Statement, verify};
use std::alloc::Global;

/// Whether the proof shows that some trace satisfies the constraint system of this form, with these
/// periodic columns and public values. Nothing is asked of the numbers or of the proof: a form that
/// is no system's and a number that is no element's are refused by name, then the proof is verified
/// of the one statement that these are the numbers of. Where it is accepted the challenger ends in
/// the state of `verify`; refused numbers leave it as it was.
pub fn verify_plain<
    F: TwoAdicField + PrimeField64,
    EF: ExtensionField<F>,
    Com: Copy,
    C: FieldChallenger<F> + CanObserve<Com>,
    Dft: TwoAdicSubgroupDft<F> + Default + Drop,
    P: UnivariateStarkPcs<EF, C, Val = F, Domain = TwoAdicMultiplicativeCoset<F>, Commitment = Com>,
>(
    scheme: &P,
    alloc: Global,
    plain: &PlainStatement<'_, Com>,
    proof: &Proof<EF, Com, P::Proof>,
    challenger: &mut C,
) -> Result<(), PlainVerificationError<P::Error>>
    requires range { (P.rules scheme.now).InVerifierRange }
    ensures accepted { let S = stark_setting ⟦<EF as StarkField<F>>⟧.fields
        ⟦<C as Plays<F, EF, Com>>⟧.moves P.ZK (P.rules scheme.now)
        (λ k d. (d.shift ≡ F.ONE) × (d.log_size ≡ k)) in
        IfOk result (λ _. IsAcceptedOf F.canonical S (stated plain.now) proof.now challenger.old
        challenger.new) }
    ensures refused { let S = stark_setting ⟦<EF as StarkField<F>>⟧.fields
        ⟦<C as Plays<F, EF, Com>>⟧.moves P.ZK (P.rules scheme.now)
        (λ k d. (d.shift ≡ F.ONE) × (d.log_size ≡ k)) in
        IfErr result (IsRefusedOf F.canonical S (stated plain.now) proof.now challenger.old
        challenger.new F.ORDER_U64) }
{
    let air = match air_from_plain::<F>(alloc, plain.air) {
        Ok(air) => air,
        Err(fault) => return Err(PlainVerificationError::Air(fault)),
    };
    let periodic = match rows_from_plain::<F>(alloc, plain.periodic, Part::Periodic) {
        Ok(columns) => columns,
        Err(fault) => return Err(PlainVerificationError::Element(fault)),
    };
    let values = elements_from_plain::<F>(alloc, plain.public_values, Part::PublicValues, 0);
    let public_values = match values {
        Ok(values) => values,
        Err(fault) => return Err(PlainVerificationError::Element(fault)),
    };
    let statement = Statement {
        air: &air,
        preprocessed: plain.preprocessed,
        periodic: periodic.as_slice(),
        public_values: public_values.as_slice(),
    };
    match verify::<F, EF, Com, C, Dft, P>(scheme, alloc, &statement, proof, challenger) {
        Ok(()) => Ok(()),
        Err(refusal) => Err(PlainVerificationError::Refused(refusal)),
    }
}
