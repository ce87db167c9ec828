//! The transcripts of both sides, and how they begin and end.

ghost use Rattle.std.specs.Prelude.{◌≡◌, [], IfOk, length};
ghost use Rattle.p3_challenger_fs.specs.Separator.{seed_bytes, seed_turns};
ghost use Rattle.p3_fri_transcript.specs.Shapes.{fri_shape};
ghost use Rattle.p3_fri_transcript.specs.Steps.{fri_stream};
ghost use Rattle.p3_fri_transcript.specs.Turns.{RoundsLeft};
ghost use Rattle.p3_fri_transcript.specs.Views.{state_of, left_of, Starts};

use crate::transcript::FriShape;
use p3_challenger_core::FieldChallenger;
use p3_challenger_fs::{Prover, Script, Seed, Verifier};
use p3_field_core::{ExtensionField, Field};
use std::alloc::{AllocError, Global};
use std::marker::PhantomData;

/// One side of the transcript of a low-degree test, over a borrowed challenger. It is spent by
/// `finish`, once all steps were played, or by `abort`.
pub struct FriTranscript<'a, Side, C, F, EF, S = FriShape, P = Script> {
    pub(crate) challenger: &'a mut C,
    pub(crate) script: P,
    pub(crate) shape: S,
    pub(crate) of: PhantomData<(Side, F, EF)>,
}

/// The prover's side.
pub type ProverTranscript<'a, C, F, EF> = FriTranscript<'a, Prover, C, F, EF>;

/// The verifier's side.
pub type VerifierTranscript<'a, C, F, EF> = FriTranscript<'a, Verifier, C, F, EF>;

impl<'a, Side, F: Field, EF: ExtensionField<F>, C: FieldChallenger<F>> FriTranscript<
    'a,
    Side,
    C,
    F,
    EF,
> {
    /// Absorbs the seed, and stands before its first step. The seed is to be the shape's own: the
    /// calls that follow ask for the steps of the shape.
    pub fn start(challenger: &'a mut C, seed: Seed, shape: FriShape) -> Self
        ensures starts { Starts F.ops C.observed challenger.entry (seed_bytes seed) shape result }
        ensures steps { left_of result ≡ seed_turns seed }
    {
        let script = Script::start(&mut *challenger, seed);
        FriTranscript {
            challenger,
            script,
            shape,
            of: PhantomData,
        }
    }

    /// Makes the seed of the shape, and starts with it. A refusal leaves the challenger as it was:
    /// the seed is made before it is touched.
    pub fn new(alloc: Global, challenger: &'a mut C, shape: FriShape) -> Result<Self, AllocError>
        ensures starts { IfOk result (λ t.
            let stream = fri_stream EF.DIMENSION (fri_shape shape) in
            Starts F.ops C.observed challenger.entry stream shape t) }
        ensures rounds { IfOk result (λ t.
            let described = fri_shape shape in
            RoundsLeft EF.DIMENSION described (length described.log_arities) (left_of t)) }
    {
        let seed = shape.seed::<F, EF>(alloc)?;
        Ok(Self::start(challenger, seed, shape))
    }

    /// Ends the transcript, of which all steps were played.
    pub fn finish(self)
        requires all_played { left_of self ≡ [] }
        ensures { self.exit.0.now ≡ state_of self.entry }
    {
        // A transcript can't be dropped: it is taken apart by name.
        let FriTranscript {
            challenger: _,
            script: _,
            shape: _,
            of: _,
        } = self;
    }

    /// Gives the transcript up, and leaves the challenger as it stands.
    pub fn abort(self)
        ensures { self.exit.0.now ≡ state_of self.entry }
    {
        // Nothing is undone: what was absorbed and drawn stays so.
        let FriTranscript {
            challenger: _,
            script: _,
            shape: _,
            of: _,
        } = self;
    }
}
