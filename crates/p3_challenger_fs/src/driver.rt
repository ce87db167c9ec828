//! Drivers: a borrowed challenger, and the script that is played on it.

ghost use Rattle.std.specs.Prelude.{◌≡◌, ◌≤◌, IfOk, IfSome, IfNone, [], map, drop, length};
ghost use Rattle.std.specs.Bool.{OnTrue};
ghost use Rattle.std.specs.List.{flat_map};
ghost use Rattle.p3_challenger_fs.specs.declared.pattern.Hierarchy.TheVariants.{Atomic, Begin, End};
ghost use Rattle.p3_challenger_fs.specs.declared.pattern.Kind.TheVariants.{Message, Challenge, Pow};
ghost use Rattle.p3_challenger_fs.specs.declared.pattern.Kind.TheVariants.{Protocol};
ghost use Rattle.p3_challenger_fs.specs.declared.pattern.TypeTag.TheVariants.{Opaque, Algebra};
ghost use Rattle.p3_challenger_fs.specs.declared.pattern.TypeTag.TheVariants.{Bits, Marker};
ghost use Rattle.p3_challenger_fs.specs.declared.pattern.Length.TheVariants.{Scalar, Fixed};
ghost use Rattle.p3_challenger_fs.specs.Description.{stream_of};
ghost use Rattle.p3_challenger_fs.specs.Pattern.{turn_of};
ghost use Rattle.p3_challenger_core.specs.Run.{observed_all, drawn_element, draws, grind_attempt};
ghost use Rattle.p3_challenger_core.specs.Run.{Passes};
ghost use Rattle.p3_challenger_fs.specs.Driver.{Borrows, SameChallenger, state_of, steps_left};
ghost use Rattle.p3_challenger_fs.specs.Separator.{description, seed_bytes, seed_turns};
ghost use Rattle.p3_challenger_fs.specs.Turns.{IsNext, bytes_observed};

use crate::domain_separator::{DomainSeparator, Seed};
use crate::script::Script;
use p3_challenger_core::{CanObserve, FieldChallenger, GrindingChallenger};
use p3_field_core::{ExtensionField, Field};
use std::alloc::{AllocError, Global};
use std::marker::PhantomData;

/// The prover's side of a transcript.
#[derive(Clone, Copy, Debug)]
pub struct Prover;

/// The verifier's side of a transcript.
#[derive(Clone, Copy, Debug)]
pub struct Verifier;

/// The driver of one side of a transcript, over a borrowed challenger. It is spent by `finalize`,
/// once all steps were played, or by `abort`. `S` is always `Script`: it is a parameter because a
/// field of a type that owns memory would hide what the borrowed challenger is left as.
pub struct TranscriptState<'a, Side, C, F, S = Script> {
    challenger: &'a mut C,
    script: S,
    of: PhantomData<(Side, F)>,
}

/// The driver of the prover's side.
pub type ProverState<'a, C, F> = TranscriptState<'a, Prover, C, F>;

/// The driver of the verifier's side.
pub type VerifierState<'a, C, F> = TranscriptState<'a, Verifier, C, F>;

impl<'a, Side, F: Field, C: FieldChallenger<F>> TranscriptState<'a, Side, C, F> {
    /// Absorbs the stream, each byte as an element, and stands before the first step.
    pub fn start(challenger: &'a mut C, seed: Seed) -> Self
        ensures same { Borrows challenger.entry result }
        ensures state { state_of result
            ≡ bytes_observed F.ops C.observed challenger.old (seed_bytes seed) }
        ensures steps { steps_left result ≡ seed_turns seed }
    {
        let script = Script::start(&mut *challenger, seed);
        Self {
            challenger,
            script,
            of: PhantomData,
        }
    }

    /// Makes the seed of the separator, and starts with it. Where memory is refused nothing was
    /// absorbed; a caller that has to prove so makes the seed itself, and takes `start`.
    pub fn new(
        alloc: Global,
        challenger: &'a mut C,
        separator: &DomainSeparator,
    ) -> Result<Self, AllocError>
        ensures same { IfOk result (λ t. Borrows challenger.entry t) }
        ensures state { IfOk result (λ t.
            state_of t ≡ bytes_observed F.ops C.observed challenger.old
            (stream_of (description separator.now))) }
        ensures steps { IfOk result (λ t.
            steps_left t ≡ map turn_of (description separator.now).steps) }
    {
        let seed = separator.seed(alloc)?;
        Ok(Self::start(challenger, seed))
    }

    /// Absorbs a value whose encoding belongs to another layer.
    pub fn observe_opaque<T: Copy>(&mut self, value: T)
    where
        C: CanObserve<T>,
        requires next { IsNext Atomic Message Opaque Scalar (steps_left self.old) }
        ensures same { SameChallenger self.old self.new }
        ensures state { state_of self.new
            ≡ ⟦<C as CanObserve<T>>⟧.observed (state_of self.old) value }
        ensures steps { steps_left self.new ≡ drop 1 (steps_left self.old) }
    {
        self.script.observe_opaque(&mut *self.challenger, value);
    }

    /// Absorbs elements of an extension, as many as are described.
    pub fn observe_extensions<EF: ExtensionField<F>>(&mut self, values: &[EF])
        requires next { IsNext Atomic Message (Algebra EF.DIMENSION) (Fixed (length values.now))
            (steps_left self.old) }
        ensures same { SameChallenger self.old self.new }
        ensures state { state_of self.new
            ≡ observed_all C.observed (state_of self.old) (flat_map EF.coefficients values.now) }
        ensures steps { steps_left self.new ≡ drop 1 (steps_left self.old) }
    {
        self.script
            .observe_extensions(&mut *self.challenger, values);
    }

    /// Draws an element of an extension.
    pub fn challenge_extension<EF: ExtensionField<F>>(&mut self) -> EF
        requires next { IsNext Atomic Challenge (Algebra EF.DIMENSION) Scalar
            (steps_left self.old) }
        ensures same { SameChallenger self.old self.new }
        ensures value { result ≡ (drawn_element C.sampled EF.of_coefficients EF.DIMENSION
            (state_of self.old)).value }
        ensures state { state_of self.new
            ≡ (drawn_element C.sampled EF.of_coefficients EF.DIMENSION (state_of self.old)).state }
        ensures steps { steps_left self.new ≡ drop 1 (steps_left self.old) }
    {
        self.script.challenge_extension(&mut *self.challenger)
    }

    /// Draws `count` numbers of `width` bits. After a refusal only `abort` may follow.
    pub fn challenge_bits(
        &mut self,
        alloc: Global,
        width: usize,
        count: usize,
    ) -> Result<Vec<usize>, AllocError>
        requires next { IsNext Atomic Challenge (Bits width) (Fixed count) (steps_left self.old) }
        requires at_most_max { width ≤ C.MAX_SAMPLE_BITS }
        ensures same { SameChallenger self.old self.new }
        ensures values { IfOk result (λ numbers.
            numbers.items ≡ (draws (λ c. C.sampled_bits c width) (state_of self.old) count).value) }
        ensures state { IfOk result (λ _.
            state_of self.new
            ≡ (draws (λ c. C.sampled_bits c width) (state_of self.old) count).state) }
        ensures steps { IfOk result (λ _. steps_left self.new ≡ drop 1 (steps_left self.old)) }
    {
        self.script
            .challenge_bits(alloc, &mut *self.challenger, width, count)
    }

    /// Opens a bracket around a protocol that is run on the challenger.
    pub fn begin_protocol(&mut self)
        requires next { IsNext Begin Protocol Marker Scalar (steps_left self.old) }
        ensures same { SameChallenger self.old self.new }
        ensures state { state_of self.new ≡ state_of self.old }
        ensures steps { steps_left self.new ≡ drop 1 (steps_left self.old) }
    {
        self.script.begin_protocol();
    }

    /// Closes the bracket.
    pub fn end_protocol(&mut self)
        requires next { IsNext End Protocol Marker Scalar (steps_left self.old) }
        ensures same { SameChallenger self.old self.new }
        ensures state { state_of self.new ≡ state_of self.old }
        ensures steps { steps_left self.new ≡ drop 1 (steps_left self.old) }
    {
        self.script.end_protocol();
    }

    /// Ends the transcript, of which all steps were played.
    pub fn finalize(self)
        requires all_played { steps_left self ≡ [] }
        ensures { self.exit.0.now ≡ state_of self.entry }
    {
        self.abort();
    }

    /// Gives the transcript up, and leaves the challenger as it stands.
    pub fn abort(self)
        ensures { self.exit.0.now ≡ state_of self.entry }
    {
        let Self {
            challenger: _,
            script: _,
            of: _,
        } = self;
    }
}

impl<'a, F: Field, C: FieldChallenger<F> + GrindingChallenger<Witness = F>> ProverState<'a, C, F> {
    /// Searches a witness of a proof of work, and absorbs it. `None`, with the challenger
    /// unchanged, where no element passes; then only `abort` may follow.
    pub fn observe_pow(&mut self, bits: usize) -> Option<F>
        requires next { IsNext Atomic Pow (Algebra 1) (Fixed bits) (steps_left self.old) }
        requires at_most_max { bits ≤ C.MAX_SAMPLE_BITS }
        ensures same { SameChallenger self.old self.new }
        ensures value { result ≡ C.solution (state_of self.old) bits }
        ensures state { IfSome result (λ w.
            state_of self.new
            ≡ (grind_attempt C.observed C.sampled_bits (state_of self.old) bits w).state) }
        ensures passes { IfSome result (λ w.
            Passes C.observed C.sampled_bits (state_of self.old) bits w) }
        ensures none_passes { IfNone result
            ((w : F) → ¬ Passes C.observed C.sampled_bits (state_of self.old) bits w) }
        ensures unchanged { IfNone result (state_of self.new ≡ state_of self.old) }
        ensures steps { IfSome result (λ _. steps_left self.new ≡ drop 1 (steps_left self.old)) }
    {
        self.script.grind(&mut *self.challenger, bits)
    }
}

impl<'a, F: Field, C: FieldChallenger<F> + GrindingChallenger<Witness = F>> VerifierState<
    'a,
    C,
    F,
> {
    /// Absorbs the witness of a proof of work, and answers whether it passes. If it doesn't, only
    /// `abort` may follow.
    pub fn observe_pow(&mut self, bits: usize, witness: F) -> bool
        requires next { IsNext Atomic Pow (Algebra 1) (Fixed bits) (steps_left self.old) }
        requires at_most_max { bits ≤ C.MAX_SAMPLE_BITS }
        ensures same { SameChallenger self.old self.new }
        ensures value { result ≡ (grind_attempt C.observed C.sampled_bits
            (state_of self.old) bits witness).value }
        ensures state { state_of self.new
            ≡ (grind_attempt C.observed C.sampled_bits (state_of self.old) bits witness).state }
        ensures steps { OnTrue result (steps_left self.new ≡ drop 1 (steps_left self.old)) }
    {
        self.script
            .check_witness(&mut *self.challenger, bits, witness)
    }
}
