//! Steps and labels that both transcripts describe.

ghost use Rattle.std.specs.Prelude.{◌≡◌, ◌++◌, ◌∷◌, [], OnOk, map};
ghost use Rattle.p3_challenger_fs.specs.Pattern.{step_of, number_bytes};
ghost use Rattle.p3_challenger_fs.specs.Separator.{description};
ghost use Rattle.p3_fri_pow.specs.Labels.{labels_added};
ghost use Rattle.p3_fri_pow.specs.Steps.{pow_steps};

use p3_challenger_fs::{DomainSeparator, Hierarchy, Interaction, Kind, Length};
use p3_field_core::{ExtensionField, Field};
use std::alloc::{AllocError, Global};

/// Appends a step of proof of work, where there are bits.
pub fn push_pow<F: Field>(
    steps: &mut Vec<Interaction>,
    label: &'static str,
    bits: usize,
) -> Result<(), AllocError>
    ensures { OnOk result (map step_of steps.new.items
        ≡ map step_of steps.old.items ++ pow_steps label.now bits) }
{
    if bits > 0 {
        steps.push(Interaction::algebra::<F, F>(
            Hierarchy::Atomic,
            Kind::Pow,
            label,
            Length::Fixed(bits),
        ))?;
    }
    Ok(())
}

/// Adds a number as a label, in eight bytes, the highest first.
pub fn push_label(
    separator: &mut DomainSeparator,
    alloc: Global,
    value: usize,
) -> Result<(), AllocError>
    ensures { OnOk result (description separator.new
        ≡ labels_added (number_bytes value ∷ []) (description separator.old)) }
{
    separator.instance(alloc, &(value as u64).to_be_bytes())
}

/// Adds numbers as labels, in order.
pub fn push_labels(
    separator: &mut DomainSeparator,
    alloc: Global,
    values: &[usize],
) -> Result<(), AllocError>
    ensures { OnOk result (description separator.new
        ≡ labels_added (map number_bytes values.now) (description separator.old)) }
{
    for value in values {
        push_label(separator, alloc, *value)?;
    }
    Ok(())
}
