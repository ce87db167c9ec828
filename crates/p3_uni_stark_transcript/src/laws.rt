//! The law of instances, as a call that does nothing and whose contract is a theorem.

ghost use Rattle.std.specs.Prelude.{ℕ, Bool};
ghost use Rattle.p3_uni_stark_transcript.specs.Instance.{Instance};
ghost use Rattle.p3_uni_stark_transcript.specs.InstanceLaws.{IsDeterminedInstance};

use p3_field_core::PrimeField64;

/// What is absorbed first determines the instance: the constraint system with its sizes, nodes and
/// constraints, the public values, the periodic columns, and the height.
pub fn stark_instance_law<F: PrimeField64>()
    ensures { (d : ℕ) (preprocessed hides : Bool) (a b : Instance F)
        → IsDeterminedInstance F.canonical d preprocessed hides a b }
{}
