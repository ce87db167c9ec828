//! The steps of the transcript, and the calls of both sides.

ghost use Rattle.std.specs.Prelude.{◌≡◌, ◌++◌, map, IfOk, OnOk, OnErr};
ghost use Rattle.p3_challenger_fs.specs.Pattern.{pattern_steps, step_of};
ghost use Rattle.p3_challenger_fs.specs.Separator.{description};
ghost use Rattle.p3_challenger_fs.specs.Turns.{bytes_observed};
ghost use Rattle.p3_uni_stark_transcript.specs.Replay.{observed_if, alpha_drawn, zeta_drawn};
ghost use Rattle.p3_uni_stark_transcript.specs.Replay.{stark_replay};
ghost use Rattle.p3_uni_stark_transcript.specs.Steps.{commitment_step, challenge_step, step_if};
ghost use Rattle.p3_uni_stark_transcript.specs.Steps.{first_steps, last_steps, stark_steps};
ghost use Rattle.p3_uni_stark_transcript.specs.Steps.{stark_description, stark_stream};
ghost use Rattle.p3_uni_stark_transcript.specs.Views.{instance_of};

use crate::instance::StarkInstance;
use crate::numbers::instance_label;
use p3_challenger_core::{CanObserve, FieldChallenger, Plays};
use p3_challenger_fs::{
    DomainSeparator, Hierarchy, Interaction, InteractionPattern, Kind, Length, Script,
};
use p3_field_core::{ExtensionField, Field, PrimeField64};
use std::alloc::{AllocError, Global};

/// The version of the protocol.
const VERSION: u8 = 1;

/// Its name.
const NAME: &[u8] = b"p3-uni-stark";

/// The commitment to preprocessed columns.
const PREPROCESSED: &str = "preprocessed";

/// The commitment to the trace.
const TRACE: &str = "trace";

/// The challenge that puts the constraints together.
const ALPHA: &str = "alpha";

/// The commitment to the quotient's chunks.
const QUOTIENT: &str = "quotient";

/// The commitment to random polynomials.
const RANDOM: &str = "random";

/// The point at which columns are opened.
const ZETA: &str = "zeta";

/// The bracket in which the opening runs.
const OPENING: &str = "opening";

/// What is committed to before an opening.
#[derive(Clone, Copy, Debug)]
pub struct StarkCommitments<Com> {
    /// To preprocessed columns, if there are such. The verifier has it by itself.
    pub preprocessed: Option<Com>,
    pub trace: Com,
    /// To the chunks of the quotient.
    pub quotient: Com,
    /// To random polynomials, where the scheme hides.
    pub random: Option<Com>,
}

/// The challenges that are drawn before an opening.
#[derive(Clone, Copy, Debug)]
pub struct StarkChallenges<EF> {
    /// By its powers the constraints are put together.
    pub alpha: EF,
    /// The point at which columns are opened.
    pub zeta: EF,
}

/// A commitment's step.
fn commitment_step(label: &'static str) -> Interaction
    ensures { step_of result ≡ commitment_step label.now }
{
    Interaction::opaque(Hierarchy::Atomic, Kind::Message, label, Length::Scalar)
}

/// A challenge's step.
fn challenge_step<F: Field, EF: ExtensionField<F>>(label: &'static str) -> Interaction
    ensures { step_of result ≡ challenge_step EF.DIMENSION label.now }
{
    Interaction::algebra::<F, EF>(Hierarchy::Atomic, Kind::Challenge, label, Length::Scalar)
}

/// Appends a step that there may be.
fn push_if(steps: &mut Vec<Interaction>, present: bool, step: Interaction) -> Result<(), AllocError>
    ensures { OnOk result (map step_of steps.new.items
        ≡ map step_of steps.old.items ++ step_if present (step_of step)) }
{
    if present {
        steps.push(step)?;
    }
    Ok(())
}

/// The steps up to the first challenge.
fn push_first<F: Field, EF: ExtensionField<F>>(
    steps: &mut Vec<Interaction>,
    preprocessed: bool,
) -> Result<(), AllocError>
    ensures { OnOk result (map step_of steps.new.items
        ≡ map step_of steps.old.items ++ first_steps EF.DIMENSION preprocessed) }
{
    push_if(steps, preprocessed, commitment_step(PREPROCESSED))?;
    steps.push(commitment_step(TRACE))?;
    steps.push(challenge_step::<F, EF>(ALPHA))?;
    Ok(())
}

/// The steps after the first challenge.
fn push_last<F: Field, EF: ExtensionField<F>>(
    steps: &mut Vec<Interaction>,
    hides: bool,
) -> Result<(), AllocError>
    ensures { OnOk result (map step_of steps.new.items
        ≡ map step_of steps.old.items ++ last_steps EF.DIMENSION hides) }
{
    steps.push(commitment_step(QUOTIENT))?;
    push_if(steps, hides, commitment_step(RANDOM))?;
    steps.push(challenge_step::<F, EF>(ZETA))?;
    steps.push(Interaction::marker(Hierarchy::Begin, Kind::Protocol, OPENING))?;
    steps.push(Interaction::marker(Hierarchy::End, Kind::Protocol, OPENING))?;
    Ok(())
}

/// All steps.
fn stark_pattern<F: Field, EF: ExtensionField<F>>(
    alloc: Global,
    preprocessed: bool,
    hides: bool,
) -> Result<InteractionPattern, AllocError>
    ensures { IfOk result (λ pattern.
        pattern_steps pattern ≡ stark_steps EF.DIMENSION preprocessed hides) }
{
    let mut steps = Vec::with_capacity(alloc, 8)?;
    push_first::<F, EF>(&mut steps, preprocessed)?;
    push_last::<F, EF>(&mut steps, hides)?;
    Ok(InteractionPattern::new(steps))
}

/// What describes an instance.
fn separator_of<F: PrimeField64, EF: ExtensionField<F>>(
    alloc: Global,
    instance: &StarkInstance<'_, F>,
    preprocessed: bool,
    hides: bool,
) -> Result<DomainSeparator, AllocError>
    ensures { IfOk result (λ separator. description separator ≡ stark_description EF.DIMENSION
        F.canonical preprocessed hides (instance_of instance.now)) }
{
    let pattern = stark_pattern::<F, EF>(alloc, preprocessed, hides)?;
    let mut separator = DomainSeparator::new(alloc, VERSION, NAME, pattern);
    let label = instance_label(alloc, instance)?;
    separator.instance(alloc, label.as_slice())?;
    Ok(separator)
}

/// Absorbs the seed of an instance, byte by byte of its stream. Memory may be refused; then nothing
/// was absorbed.
pub fn absorb_instance<F: PrimeField64, EF: ExtensionField<F>, C: FieldChallenger<F>>(
    alloc: Global,
    challenger: &mut C,
    instance: &StarkInstance<'_, F>,
    preprocessed: bool,
    hides: bool,
) -> Result<(), AllocError>
    ensures absorbed { OnOk result (challenger.new ≡ bytes_observed F.ops C.observed challenger.old
        (stark_stream EF.DIMENSION F.canonical preprocessed hides (instance_of instance.now))) }
    ensures unchanged { OnErr result (challenger.new ≡ challenger.old) }
{
    let separator = separator_of::<F, EF>(alloc, instance, preprocessed, hides)?;
    let seed = separator.seed(alloc)?;
    let _script = Script::start::<F, C>(challenger, seed);
    Ok(())
}

/// Absorbs a commitment that there may be.
fn observe_if<Com: Copy, C: CanObserve<Com>>(challenger: &mut C, commitment: Option<Com>)
    ensures { challenger.new ≡ observed_if C.observed challenger.old commitment }
{
    if let Some(value) = commitment {
        challenger.observe(value);
    }
}

/// Absorbs the commitments to the preprocessed columns and to the trace, and draws the challenge
/// that puts the constraints together.
pub fn draw_alpha<
    F: Field,
    EF: ExtensionField<F>,
    Com: Copy,
    C: FieldChallenger<F> + CanObserve<Com>,
>(challenger: &mut C, preprocessed: Option<Com>, trace: Com) -> EF
    ensures { alpha_drawn ⟦<C as Plays<F, EF, Com>>⟧.moves challenger.old preprocessed trace
        ≡ record { value = result; state = challenger.new } }
{
    observe_if::<Com, C>(challenger, preprocessed);
    <C as CanObserve<Com>>::observe(challenger, trace);
    challenger.sample_algebra_element::<EF>()
}

/// Absorbs the commitments to the quotient and to the random polynomials, and draws the point.
pub fn draw_zeta<
    F: Field,
    EF: ExtensionField<F>,
    Com: Copy,
    C: FieldChallenger<F> + CanObserve<Com>,
>(challenger: &mut C, quotient: Com, random: Option<Com>) -> EF
    ensures { zeta_drawn ⟦<C as Plays<F, EF, Com>>⟧.moves challenger.old quotient random
        ≡ record { value = result; state = challenger.new } }
{
    <C as CanObserve<Com>>::observe(challenger, quotient);
    observe_if::<Com, C>(challenger, random);
    challenger.sample_algebra_element::<EF>()
}

/// All that a verifier does before an opening: absorbs the instance and the commitments in their
/// order, and draws both challenges. Memory may be refused; then nothing was absorbed.
pub fn replay_stark<
    F: PrimeField64,
    EF: ExtensionField<F>,
    Com: Copy,
    C: FieldChallenger<F> + CanObserve<Com>,
>(
    alloc: Global,
    challenger: &mut C,
    instance: &StarkInstance<'_, F>,
    commitments: StarkCommitments<Com>,
) -> Result<StarkChallenges<EF>, AllocError>
    ensures replay { IfOk result (λ drawn.
        stark_replay ⟦<C as Plays<F, EF, Com>>⟧.moves F.ops EF.DIMENSION F.canonical
        (instance_of instance.now) commitments challenger.old
        ≡ record { alpha = drawn.alpha; zeta = drawn.zeta; state = challenger.new }) }
    ensures unchanged { OnErr result (challenger.new ≡ challenger.old) }
{
    let preprocessed = commitments.preprocessed.is_some();
    let hides = commitments.random.is_some();
    absorb_instance::<F, EF, C>(alloc, challenger, instance, preprocessed, hides)?;
    let alpha = draw_alpha::<F, EF, Com, C>(
        challenger,
        commitments.preprocessed,
        commitments.trace,
    );
    let zeta = draw_zeta::<F, EF, Com, C>(challenger, commitments.quotient, commitments.random);
    Ok(StarkChallenges { alpha, zeta })
}
