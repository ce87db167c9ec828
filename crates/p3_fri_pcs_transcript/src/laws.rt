//! Laws as calls that give nothing and whose contracts are theorems over the definitions. Their
//! bodies only read: a number that is read is known to fit its type.

ghost use Rattle.std.specs.Prelude.{◌≡◌, ℕ, List, [], ◌∷◌};
ghost use Rattle.algebra.specs.Field.{FieldOps};
ghost use Rattle.p3_challenger_core.specs.Run.{Moves};
ghost use Rattle.p3_fri_pow.specs.Fits.{FitsList, FitsPoints};
ghost use Rattle.p3_fri_transcript.specs.Steps.{FriNumbers};
ghost use Rattle.p3_fri_pcs_transcript.specs.Events.{IsRunOfPcs};
ghost use Rattle.p3_fri_pcs_transcript.specs.Shapes.{pcs_shape};
ghost use Rattle.p3_fri_pcs_transcript.specs.Shown.{ReplaysAsShown};
ghost use Rattle.p3_fri_pcs_transcript.specs.Steps.{PcsNumbers, pcs_stream};
ghost use Rattle.p3_fri_pcs_transcript.specs.SeedLaws.{FitsPcs};
ghost use Rattle.p3_fri_pcs_transcript.specs.SeedExamples.{with_counts, DifferInGrouping};

use crate::pcs_transcript::PcsShape;
use p3_field_core::{ExtensionField, Field};
use p3_fri_pow::laws::points_fit;

/// The stream determines the shape.
pub fn pcs_seed_law<F: Field, EF: ExtensionField<F>>(a: &PcsShape, b: &PcsShape)
    ensures { pcs_stream EF.DIMENSION (pcs_shape a.now) ≡ pcs_stream EF.DIMENSION (pcs_shape b.now)
        → pcs_shape a.now ≡ pcs_shape b.now }
{
    let _degree = EF::DIMENSION;
    pcs_fits(a);
    pcs_fits(b);
}

/// Shapes that share their steps and have different streams.
pub fn pcs_seed_examples_law()
    ensures matrices { (d : ℕ) → DifferInGrouping d
        (with_counts (((3 ∷ []) ∷ (3 ∷ []) ∷ []) ∷ []))
        (with_counts (((3 ∷ 3 ∷ []) ∷ []) ∷ [])) }
    ensures commitments { (d : ℕ) → DifferInGrouping d
        (with_counts (((3 ∷ []) ∷ []) ∷ ((3 ∷ []) ∷ []) ∷ []))
        (with_counts (((3 ∷ []) ∷ (3 ∷ []) ∷ []) ∷ [])) }
{}

/// The replay is a run over events: the stream's bytes, all values in order, the proof of work, the
/// challenge, and then the low-degree test's.
pub fn pcs_replay_law<C, F, E, Com>()
    ensures { (m : Moves C F E Com) (coefficients : E → List F) (ops : FieldOps F) (d : ℕ)
        (shape : PcsNumbers) (test : FriNumbers) (c : C) (values : List E) (batch_witness : F)
        (commitments : List Com) (witnesses : List F) (final_poly : List E) (witness : F)
        → IsRunOfPcs m coefficients ops d shape test c values batch_witness commitments witnesses
        final_poly witness }
{}

/// What `play_pcs` gives, `replay_pcs` passes, from the same state to the same last state: a
/// witness that is shown where there are bits, and may be missing at no bits, is replayed as the
/// prover's.
pub fn pcs_shown_law<C, F, E, Com>()
    ensures { (m : Moves C F E Com) (coefficients : E → List F) (ops : FieldOps F) (d : ℕ)
        (shape : PcsNumbers) (test : FriNumbers) (c : C) (values : List E) (batch_witness : F)
        (commitments : List Com) (witnesses : List F) (final_poly : List E) (witness : F)
        → ReplaysAsShown m coefficients ops d shape test c values batch_witness commitments
        witnesses final_poly witness }
{}

fn pcs_fits(shape: &PcsShape)
    ensures { FitsPcs (pcs_shape shape.now) }
{
    commitments_fit(shape.claimed_evaluation_counts.as_slice());
    let _batch_pow_bits = shape.batch_pow_bits;
}

fn commitments_fit(commitments: &[Vec<Vec<usize>>])
    ensures { FitsList (λ matrices. FitsList (λ points. FitsPoints points.items) matrices.items)
        commitments.now }
{
    for matrices in commitments {
        matrices_fit(matrices.as_slice());
    }
}

fn matrices_fit(matrices: &[Vec<usize>])
    ensures { FitsList (λ points. FitsPoints points.items) matrices.now }
{
    for points in matrices {
        points_fit(points.as_slice());
    }
}
