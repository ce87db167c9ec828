//! The prover's side of an opening, step by step and as a whole.

ghost use Rattle.std.specs.Prelude.{◌≡◌, ◌≤◌, length};

use crate::pcs_transcript::cases::{Case, Form, PcsRun};
use crate::pcs_transcript::shapes::parameters;
use crate::run::shape_of as test_of;
use p3_challenger::Sha256Challenger;
use p3_field::{BabyBear, BabyBear4};
use p3_fri_core::pcs_transcript::{PcsProverTranscript, PcsShape, play_pcs};
use p3_mmcs::OpenedValues;
use std::alloc::Global;
use std::process::Abort;

/// Whether the prover's whole opening, with a test of one round, is the run; or whether its steps,
/// with nothing inside the bracket, draw and find what the run does before the test.
pub(crate) fn proves(
    rt: &impl Abort,
    alloc: Global,
    challenger: &mut Sha256Challenger,
    case: &Case,
    values: &OpenedValues<BabyBear4>,
    final_poly: &[BabyBear4],
    run: &PcsRun,
) -> bool
    requires bits { case.now.bits ≤ 63 }
    requires constant { length final_poly.now ≡ 1 }
{
    let shape = PcsShape::from_opened_values(alloc, &parameters(case.bits), values);
    let shape = shape.expect(rt, "memory");
    if let Form::Whole = case.form {
        let test = test_of(rt, alloc, &[3], 2, 3);
        let played = play_pcs(
            alloc,
            challenger,
            shape,
            values,
            test,
            &[[7u8; 32]],
            final_poly,
        );
        let played = played.expect(rt, "the prover is refused");
        return (played.alpha == run.alpha)
            & (Some(played.batch_witness) == run.batch_witness)
            & run.test.is_played(&played.test);
    }
    let transcript = PcsProverTranscript::<Sha256Challenger, BabyBear, BabyBear4>::new(
        alloc, challenger, shape,
    );
    let mut transcript = transcript.expect(rt, "memory");
    transcript.claimed_openings(values);
    let drawn = transcript.batch_phase();
    let (alpha, witness) = drawn.expect(rt, "no witness passes");
    let _lent = transcript.begin_delegate();
    transcript.end_delegate();
    transcript.finish();
    (alpha == run.alpha) & (witness == run.batch_witness)
}
