//! Laws as calls that give nothing and whose contracts are theorems over the definitions. Their
//! bodies only read: a number that is read is known to fit its type.

ghost use Rattle.std.specs.Prelude.{◌≡◌, ◌↔◌, ℕ, List, [], ◌∷◌};
ghost use Rattle.algebra.specs.Field.{FieldOps};
ghost use Rattle.p3_challenger_core.specs.Run.{Moves};
ghost use Rattle.p3_fri_transcript.specs.Events.{IsRunOfFri};
ghost use Rattle.p3_fri_transcript.specs.Shapes.{fri_shape};
ghost use Rattle.p3_fri_transcript.specs.Steps.{FriNumbers, fri_stream};
ghost use Rattle.p3_fri_transcript.specs.SeedLaws.{SameFriShape, FitsFri};
ghost use Rattle.p3_fri_transcript.specs.SeedExamples.{without_rounds, stream_without_rounds};
ghost use Rattle.p3_fri_transcript.specs.SeedExamples.{with_arities, DifferInLabels};

use crate::transcript::FriShape;
use p3_field_core::{ExtensionField, Field};
use p3_fri_pow::laws::points_fit;

/// The stream of a low-degree test determines each number of its shape, the bits of a round's proof
/// of work only if there is a round.
pub fn fri_seed_law<F: Field, EF: ExtensionField<F>>(a: &FriShape, b: &FriShape)
    ensures { fri_stream EF.DIMENSION (fri_shape a.now) ≡ fri_stream EF.DIMENSION (fri_shape b.now)
        ↔ SameFriShape (fri_shape a.now) (fri_shape b.now) }
{
    let _degree = EF::DIMENSION;
    fri_fits(a);
    fri_fits(b);
}

/// The stream of one shape, byte for byte, and two shapes that share their steps and have different
/// streams.
pub fn fri_seed_examples_law()
    ensures stream { fri_stream 4 without_rounds ≡ stream_without_rounds }
    ensures schedules { (d : ℕ) →
        DifferInLabels d (with_arities (3 ∷ 3 ∷ 2 ∷ [])) (with_arities (2 ∷ 3 ∷ 3 ∷ [])) }
{}

/// The replay of a low-degree test is a run over events: the stream's bytes, the rounds, the final
/// polynomial, its proof of work, the queries' indices.
pub fn fri_replay_law<C, F, E, Com>()
    ensures { (m : Moves C F E Com) (coefficients : E → List F) (shape : FriNumbers)
        (ops : FieldOps F) (stream : List ℕ) (c : C) (commitments : List Com) (witnesses : List F)
        (final_poly : List E) (witness : F)
        → IsRunOfFri m coefficients shape ops stream c commitments witnesses final_poly witness }
{}

/// Numbers of a shape fit by their types.
fn fri_fits(shape: &FriShape)
    ensures { FitsFri (fri_shape shape.now) }
{
    points_fit(shape.log_arities.as_slice());
    let _final_poly_len = shape.final_poly_len;
    let _commit_pow_bits = shape.commit_pow_bits;
    let _query_pow_bits = shape.query_pow_bits;
    let _num_queries = shape.num_queries;
    let _index_bits = shape.index_bits;
    let _log_blowup = shape.log_blowup;
    let _max_log_arity = shape.max_log_arity;
}
