//! The challenge after a context.

ghost use Rattle.std.specs.Prelude.{◌≡◌, IfOk};
ghost use Rattle.p3_challenger_fs.specs.Pattern.{pattern_steps};
ghost use Rattle.p3_challenger_fs.specs.Separator.{description};
ghost use Rattle.fri_statement.specs.Context.{context_steps, context_description, challenge_of};

use crate::stated_field::StatedField;
use p3_challenger_fs::{
    DomainSeparator, Hierarchy, Interaction, InteractionPattern, Kind, Length, VerifierState,
};
use p3_challenger_sha256::{Sha256Challenger, Sha256Field};
use p3_field::{ExtensionField, Field};
use std::alloc::{AllocError, Global};

/// The version of the transcript of a challenge.
const VERSION: u8 = 1;

/// Its name.
const NAME: &[u8] = b"p3-fri-context";

/// Its only step.
const CHALLENGE: &str = "challenge";

/// One challenge is drawn.
fn challenge_pattern<F: Field, EF: ExtensionField<F>>(
    alloc: Global,
) -> Result<InteractionPattern, AllocError>
    ensures { IfOk result (λ pattern. pattern_steps pattern ≡ context_steps EF.DIMENSION) }
{
    let mut steps = Vec::with_capacity(alloc, 1)?;
    steps.push(Interaction::algebra::<F, EF>(
        Hierarchy::Atomic,
        Kind::Challenge,
        CHALLENGE,
        Length::Scalar,
    ))?;
    Ok(InteractionPattern::new(steps))
}

/// What describes a context.
fn separator_of<F: Field, EF: ExtensionField<F>>(
    alloc: Global,
    context: &[u8],
) -> Result<DomainSeparator, AllocError>
    ensures { IfOk result (λ separator.
        description separator ≡ context_description EF.DIMENSION context.now) }
{
    let pattern = challenge_pattern::<F, EF>(alloc)?;
    let mut separator = DomainSeparator::new(alloc, VERSION, NAME, pattern);
    separator.instance(alloc, context)?;
    Ok(separator)
}

/// The element of the extension that a fresh challenger draws once it has absorbed these bytes. A
/// caller who keeps the bytes of all that was sent so far draws its own challenges by it: equal
/// bytes give one challenge, and whoever doesn't know the bytes before can't choose them by it.
pub fn challenge_after<F: Sha256Field, EF: ExtensionField<F>>(
    alloc: Global,
    context: &[u8],
) -> Result<EF, AllocError>
    ensures { IfOk result (λ challenge.
        challenge ≡ challenge_of ⟦<EF as StatedField<F>>⟧.prime_fields context.now) }
{
    let separator = separator_of::<F, EF>(alloc, context)?;
    let mut challenger = Sha256Challenger::<F>::over_field();
    let mut transcript = VerifierState::<Sha256Challenger<F>, F>::new(
        alloc,
        &mut challenger,
        &separator,
    )?;
    let challenge = transcript.challenge_extension::<EF>();
    transcript.finalize();
    Ok(challenge)
}
