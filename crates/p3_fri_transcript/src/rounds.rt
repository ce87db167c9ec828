//! Steps of rounds.

ghost use Rattle.std.specs.Prelude.{◌≡◌, ◌++◌, OnOk, map};
ghost use Rattle.p3_challenger_fs.specs.Pattern.{step_of};
ghost use Rattle.p3_fri_transcript.specs.Steps.{round_steps, rounds_steps};

use crate::labels;
use p3_challenger_fs::{Hierarchy, Interaction, Kind, Length};
use p3_field_core::{ExtensionField, Field};
use p3_fri_pow::steps::push_pow;
use std::alloc::AllocError;

/// Appends the steps of a round.
fn push_round<F: Field, EF: ExtensionField<F>>(
    steps: &mut Vec<Interaction>,
    pow_bits: usize,
) -> Result<(), AllocError>
    ensures { OnOk result (map step_of steps.new.items
        ≡ map step_of steps.old.items ++ round_steps EF.DIMENSION pow_bits) }
{
    steps.push(Interaction::opaque(
        Hierarchy::Atomic,
        Kind::Message,
        labels::COMMITMENT,
        Length::Scalar,
    ))?;
    push_pow::<F>(steps, labels::COMMIT_POW, pow_bits)?;
    steps.push(Interaction::algebra::<F, EF>(
        Hierarchy::Atomic,
        Kind::Challenge,
        labels::FOLD_CHALLENGE,
        Length::Scalar,
    ))?;
    Ok(())
}

/// Appends the steps of so many rounds.
pub(crate) fn push_rounds<F: Field, EF: ExtensionField<F>>(
    steps: &mut Vec<Interaction>,
    pow_bits: usize,
    rounds: usize,
) -> Result<(), AllocError>
    ensures { OnOk result (map step_of steps.new.items
        ≡ map step_of steps.old.items ++ rounds_steps EF.DIMENSION pow_bits rounds) }
{
    for _ in 0..rounds {
        push_round::<F, EF>(steps, pow_bits)?;
    }
    Ok(())
}
