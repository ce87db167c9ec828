//! Playing the steps of a description, one after another.

ghost use Rattle.std.specs.Prelude.{◌≡◌, ◌≤◌, IfOk, IfSome, IfNone, OnErr, drop, length};
ghost use Rattle.std.specs.Bool.{OnTrue};
ghost use Rattle.std.specs.List.{flat_map};
ghost use Rattle.p3_challenger_fs.specs.declared.pattern.Hierarchy.TheVariants.{Atomic, Begin, End};
ghost use Rattle.p3_challenger_fs.specs.declared.pattern.Kind.TheVariants.{Message, Challenge, Pow};
ghost use Rattle.p3_challenger_fs.specs.declared.pattern.Kind.TheVariants.{Protocol};
ghost use Rattle.p3_challenger_fs.specs.declared.pattern.TypeTag.TheVariants.{Opaque, Algebra};
ghost use Rattle.p3_challenger_fs.specs.declared.pattern.TypeTag.TheVariants.{Bits, Marker};
ghost use Rattle.p3_challenger_fs.specs.declared.pattern.Length.TheVariants.{Scalar, Fixed};
ghost use Rattle.p3_challenger_core.specs.Run.{observed_all, drawn_element, draws, grind_attempt};
ghost use Rattle.p3_challenger_core.specs.Run.{Passes};
ghost use Rattle.p3_challenger_fs.specs.Turns.{IsNext, bytes_observed};

use crate::domain_separator::Seed;
use crate::pattern::Turn;
use p3_challenger_core::{CanObserve, CanSampleBits, FieldChallenger, GrindingChallenger};
use p3_field_core::{ExtensionField, Field};
use std::alloc::{AllocError, Global};

/// The steps of a description, and how many of them were played. Each call plays the next one on a
/// challenger; that it is the next is a condition of the call, which the caller proves.
#[derive(Debug, Drop)]
pub struct Script {
    turns: Vec<Turn>,
    played: usize,
}

/// Absorbs each byte as an element.
fn absorb<F: Field, C: FieldChallenger<F>>(challenger: &mut C, bytes: &[u8])
    ensures { challenger.new ≡ bytes_observed F.ops C.observed challenger.old bytes.now }
{
    for byte in bytes {
        challenger.observe(F::from_u64(u64::from(*byte)));
    }
}

#[tactic(auto, using(crate::proofs::Turns::drop_next), unfolding(crate::specs::Script::remaining))]
impl Script {
    ghost use Rattle.p3_challenger_fs.specs.Script.{remaining, step_played};
    ghost use Rattle.p3_challenger_fs.specs.Separator.{seed_bytes, seed_turns};

    /// Absorbs the stream of the seed, each byte as an element of `F`, and stands before the first
    /// step.
    pub fn start<F: Field, C: FieldChallenger<F>>(challenger: &mut C, seed: Seed) -> Script
        ensures state { challenger.new
            ≡ bytes_observed F.ops C.observed challenger.old (seed_bytes seed) }
        ensures steps { remaining result ≡ seed_turns seed }
    {
        let Seed { stream, turns } = seed;
        absorb(challenger, &stream);
        Script { turns, played: 0 }
    }

    /// Absorbs a value whose encoding belongs to another layer.
    pub fn observe_opaque<T: Copy, C: CanObserve<T>>(&mut self, challenger: &mut C, value: T)
        requires next { IsNext Atomic Message Opaque Scalar (remaining self.old) }
        ensures state { challenger.new ≡ C.observed challenger.old value }
        ensures steps { remaining self.new ≡ drop 1 (remaining self.old) }
    {
        challenger.observe(value);
        self.played += 1;
    }

    /// Absorbs elements of an extension, as many as are described.
    pub fn observe_extensions<F: Field, EF: ExtensionField<F>, C: FieldChallenger<F>>(
        &mut self,
        challenger: &mut C,
        values: &[EF],
    )
        requires next { IsNext Atomic Message (Algebra EF.DIMENSION) (Fixed (length values.now))
            (remaining self.old) }
        ensures state { challenger.new
            ≡ observed_all C.observed challenger.old (flat_map EF.coefficients values.now) }
        ensures steps { remaining self.new ≡ drop 1 (remaining self.old) }
    {
        challenger.observe_algebra_slice(values);
        self.played += 1;
    }

    /// Searches a witness of a proof of work, and absorbs it. `None`, with the challenger
    /// unchanged, where no element passes; then no step may follow.
    pub fn grind<F: Field, C: FieldChallenger<F> + GrindingChallenger<Witness = F>>(
        &mut self,
        challenger: &mut C,
        bits: usize,
    ) -> Option<F>
        requires next { IsNext Atomic Pow (Algebra 1) (Fixed bits) (remaining self.old) }
        requires at_most_max { bits ≤ C.MAX_SAMPLE_BITS }
        ensures value { result ≡ C.solution challenger.old bits }
        ensures state { IfSome result (λ w.
            challenger.new
            ≡ (grind_attempt C.observed C.sampled_bits challenger.old bits w).state) }
        ensures passes { IfSome result (λ w.
            Passes C.observed C.sampled_bits challenger.old bits w) }
        ensures none_passes { IfNone result
            ((w : F) → ¬ Passes C.observed C.sampled_bits challenger.old bits w) }
        ensures unchanged { IfNone result (challenger.new ≡ challenger.old) }
        ensures steps { IfSome result (λ _. remaining self.new ≡ drop 1 (remaining self.old)) }
    {
        let witness = challenger.grind(bits);
        self.played += 1;
        witness
    }

    /// Absorbs the witness of a proof of work, and answers whether it passes. If it doesn't, no
    /// step may follow.
    pub fn check_witness<F: Field, C: FieldChallenger<F> + GrindingChallenger<Witness = F>>(
        &mut self,
        challenger: &mut C,
        bits: usize,
        witness: F,
    ) -> bool
        requires next { IsNext Atomic Pow (Algebra 1) (Fixed bits) (remaining self.old) }
        requires at_most_max { bits ≤ C.MAX_SAMPLE_BITS }
        ensures value { result ≡ (grind_attempt C.observed C.sampled_bits challenger.old bits
            witness).value }
        ensures state { challenger.new
            ≡ (grind_attempt C.observed C.sampled_bits challenger.old bits witness).state }
        ensures steps { OnTrue result (remaining self.new ≡ drop 1 (remaining self.old)) }
    {
        self.played += 1;
        challenger.check_witness(bits, witness)
    }

    /// Draws an element of an extension.
    pub fn challenge_extension<F: Field, EF: ExtensionField<F>, C: FieldChallenger<F>>(
        &mut self,
        challenger: &mut C,
    ) -> EF
        requires next { IsNext Atomic Challenge (Algebra EF.DIMENSION) Scalar (remaining self.old) }
        ensures value { result ≡ (drawn_element C.sampled EF.of_coefficients EF.DIMENSION
            challenger.old).value }
        ensures state { challenger.new
            ≡ (drawn_element C.sampled EF.of_coefficients EF.DIMENSION challenger.old).state }
        ensures steps { remaining self.new ≡ drop 1 (remaining self.old) }
    {
        self.played += 1;
        challenger.sample_algebra_element()
    }

    /// Draws `count` numbers of `width` bits. Room for all is taken first, so a refusal leaves the
    /// challenger as it was; no step may follow it.
    pub fn challenge_bits<C: CanSampleBits>(
        &mut self,
        alloc: Global,
        challenger: &mut C,
        width: usize,
        count: usize,
    ) -> Result<Vec<usize>, AllocError>
        requires next { IsNext Atomic Challenge (Bits width) (Fixed count) (remaining self.old) }
        requires at_most_max { width ≤ C.MAX_SAMPLE_BITS }
        ensures values { IfOk result (λ numbers.
            numbers.items ≡ (draws (λ c. C.sampled_bits c width) challenger.old count).value) }
        ensures state { IfOk result (λ _.
            challenger.new ≡ (draws (λ c. C.sampled_bits c width) challenger.old count).state) }
        ensures steps { IfOk result (λ _. remaining self.new ≡ drop 1 (remaining self.old)) }
        ensures unchanged { OnErr result (challenger.new ≡ challenger.old) }
    {
        self.played += 1;
        draw_numbers(alloc, challenger, width, count)
    }

    /// Opens a bracket around a protocol that is run on the challenger.
    pub fn begin_protocol(&mut self)
        requires next { IsNext Begin Protocol Marker Scalar (remaining self.old) }
        ensures script { self.new ≡ step_played self.old }
        ensures steps { remaining self.new ≡ drop 1 (remaining self.old) }
    {
        self.played += 1;
    }

    /// Closes the bracket.
    pub fn end_protocol(&mut self)
        requires next { IsNext End Protocol Marker Scalar (remaining self.old) }
        ensures { remaining self.new ≡ drop 1 (remaining self.old) }
    {
        self.played += 1;
    }
}

/// Draws `count` numbers of `width` bits, once there is room for all.
fn draw_numbers<C: CanSampleBits>(
    alloc: Global,
    challenger: &mut C,
    width: usize,
    count: usize,
) -> Result<Vec<usize>, AllocError>
    requires at_most_max { width ≤ C.MAX_SAMPLE_BITS }
    ensures values { IfOk result (λ numbers.
        numbers.items ≡ (draws (λ c. C.sampled_bits c width) challenger.old count).value) }
    ensures state { IfOk result (λ _.
        challenger.new ≡ (draws (λ c. C.sampled_bits c width) challenger.old count).state) }
    ensures unchanged { OnErr result (challenger.new ≡ challenger.old) }
{
    let mut numbers = Vec::with_capacity(alloc, count)?;
    for _ in 0..count {
        numbers.push(challenger.sample_bits(width))?;
    }
    Ok(numbers)
}
