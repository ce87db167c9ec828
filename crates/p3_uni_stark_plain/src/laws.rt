//! The law of plain forms, as a call that does nothing and whose contract is a theorem.

ghost use Rattle.std.specs.Prelude.{◌≡◌};
ghost use Rattle.p3_baby_bear.specs.declared.baby_bear4.BabyBear4.{BabyBear4};
ghost use Rattle.p3_uni_stark_plain.specs.declared.forms.PlainStarkProof.{PlainStarkProof};
ghost use Rattle.p3_uni_stark_plain.specs.Proofs.{StarkParts, stark_numbers, stark_listed};

use p3_fri_plain::Plain;

/// A plain form is that of one proof at most, and two forms are read as one proof only where they
/// are the same numbers.
pub fn stark_form_law<Opening: Plain>()
    ensures one_proof { (a b : StarkParts BabyBear4 Opening.Seen)
        → stark_numbers Opening.numbers a ≡ stark_numbers Opening.numbers b → a ≡ b }
    ensures one_form { (seen : StarkParts BabyBear4 Opening.Seen)
        (a b : PlainStarkProof Opening.Form)
        → stark_numbers Opening.numbers seen ≡ stark_listed Opening.listed a
        → stark_numbers Opening.numbers seen ≡ stark_listed Opening.listed b
        → stark_listed Opening.listed a ≡ stark_listed Opening.listed b }
{}
