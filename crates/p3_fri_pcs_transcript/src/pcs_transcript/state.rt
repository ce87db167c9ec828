//! The transcripts of both sides, and how they begin and end.

ghost use mir.Syntax.{named};
ghost use Rattle.std.specs.Prelude.{◌≡◌, [], IfOk};
ghost use Rattle.std.specs.Borrow.{sem, Lends};
ghost use Rattle.p3_challenger_fs.specs.Separator.{seed_bytes, seed_turns};
ghost use Rattle.p3_fri_pcs_transcript.specs.Shapes.{pcs_shape};
ghost use Rattle.p3_fri_pcs_transcript.specs.Steps.{pcs_stream};
ghost use Rattle.p3_fri_pcs_transcript.specs.Turns.{bracket_turns, bracket_end_turns};

use crate::pcs_transcript::PcsShape;
use p3_challenger_core::FieldChallenger;
use p3_challenger_fs::{Prover, Script, Seed, Verifier};
use p3_field_core::{ExtensionField, Field};
use std::alloc::{AllocError, Global};
use std::marker::PhantomData;

/// One side of the transcript, over a borrowed challenger. It is spent by `finish`, once all steps
/// were played, or by `abort`.
pub struct PcsTranscript<'a, Side, C, F, EF, S = PcsShape, P = Script> {
    pub(crate) challenger: &'a mut C,
    pub(crate) script: P,
    pub(crate) shape: S,
    pub(crate) of: PhantomData<(Side, F, EF)>,
}

/// The prover's side.
pub type PcsProverTranscript<'a, C, F, EF> = PcsTranscript<'a, Prover, C, F, EF>;

/// The verifier's side.
pub type PcsVerifierTranscript<'a, C, F, EF> = PcsTranscript<'a, Verifier, C, F, EF>;

impl<'a, Side, F: Field, EF: ExtensionField<F>, C: FieldChallenger<F>> PcsTranscript<
    'a,
    Side,
    C,
    F,
    EF,
> {
    ghost use Rattle.p3_challenger_fs.specs.contracts.script.Script.{the_row as script_row};
    ghost use Rattle.p3_fri_pcs_transcript.specs.contracts.pcs_transcript.shape.PcsShape.{
      the_row as shape_row,
    };
    ghost use Rattle.p3_fri_pcs_transcript.specs.contracts.pcs_transcript.state.PcsTranscript.{
      the_row as pcs_row,
    };
    ghost use Rattle.p3_fri_pcs_transcript.specs.Lending.{given_back};
    ghost use Rattle.p3_fri_pcs_transcript.specs.Views.{state_of, left_of, AllClaimsLeft};
    ghost use Rattle.p3_fri_pcs_transcript.specs.Views.{Kept, Starts};

    /// Absorbs the seed, and stands before its first step. The seed is to be the shape's own: the
    /// calls that follow ask for the steps of the shape.
    pub fn start(challenger: &'a mut C, seed: Seed, shape: PcsShape) -> Self
        ensures starts { Starts F.ops C.observed challenger.entry (seed_bytes seed) shape result }
        ensures steps { left_of result ≡ seed_turns seed }
    {
        let script = Script::start(&mut *challenger, seed);
        PcsTranscript {
            challenger,
            script,
            shape,
            of: PhantomData,
        }
    }

    /// Makes the seed of the shape, and starts with it. A refusal leaves the challenger as it was:
    /// the seed is made before it is touched.
    pub fn new(alloc: Global, challenger: &'a mut C, shape: PcsShape) -> Result<Self, AllocError>
        ensures starts { IfOk result (λ t. Starts F.ops C.observed challenger.entry
            (pcs_stream EF.DIMENSION (pcs_shape shape)) shape t) }
        ensures claims { IfOk result (λ t. AllClaimsLeft EF.DIMENSION t) }
    {
        let seed = shape.seed::<F, EF>(alloc)?;
        Ok(Self::start(challenger, seed, shape))
    }

    /// Opens the bracket, and lends the challenger to the low-degree test. What was run on it is
    /// what the transcript's challenger has seen, once it is given back.
    pub fn begin_delegate(&mut self) -> &mut C
        requires bracket_left { left_of self.old ≡ bracket_turns }
        ensures* writes_back { sem 𝓛 (Lends
            (pcs_row (record { mir = named 1; lft = [] })
            Side.row C.row F.row EF.row shape_row script_row)
            C.row self.entry result (given_back self.old)) }
        ensures value { result.now ≡ state_of self.old }
        ensures steps { left_of (given_back self.old result.now) ≡ bracket_end_turns }
    {
        self.script.begin_protocol();
        &mut *self.challenger
    }

    /// Closes the bracket.
    pub fn end_delegate(&mut self)
        requires bracket_open { left_of self.old ≡ bracket_end_turns }
        ensures kept { Kept self.old self.new }
        ensures state { state_of self.new ≡ state_of self.old }
        ensures steps { left_of self.new ≡ [] }
    {
        self.script.end_protocol();
    }

    /// Ends the transcript, of which all steps were played.
    pub fn finish(self)
        requires all_played { left_of self ≡ [] }
        ensures { self.exit.0.now ≡ state_of self.entry }
    {
        // A transcript can't be dropped: it is taken apart by name.
        let PcsTranscript {
            challenger: _,
            script: _,
            shape: _,
            of: _,
        } = self;
    }

    /// Gives the transcript up, and leaves the challenger as it stands.
    pub fn abort(self)
        ensures { self.exit.0.now ≡ state_of self.entry }
    {
        // Nothing is undone: what was absorbed and drawn stays so.
        let PcsTranscript {
            challenger: _,
            script: _,
            shape: _,
            of: _,
        } = self;
    }
}
