//! The steps and the labels.

ghost use Rattle.std.specs.Prelude.{◌≡◌, ◌++◌, ◌∷◌, OnOk, map, codes, length};
ghost use Rattle.algebra.specs.Nested.{lists, nested, joined};
ghost use Rattle.p3_challenger_fs.specs.Pattern.{step_of, number_bytes};
ghost use Rattle.p3_challenger_fs.specs.Separator.{description};
ghost use Rattle.p3_fri_pcs_transcript.specs.Steps.{widths, grouping};
ghost use Rattle.p3_fri_pow.specs.Labels.{labels_added};
ghost use Rattle.p3_fri_pow.specs.Steps.{message_step};

use crate::labels::CLAIMED_EVALUATIONS;
use p3_challenger_fs::{DomainSeparator, Hierarchy, Interaction, Kind, Length};
use p3_field_core::{ExtensionField, Field};
use p3_fri_pow::steps::push_label;
use std::alloc::{AllocError, Global};

/// Appends a step for each point, in order.
pub(super) fn push_claims<F: Field, EF: ExtensionField<F>>(
    steps: &mut Vec<Interaction>,
    commitments: &[Vec<Vec<usize>>],
) -> Result<(), AllocError>
    ensures { OnOk result (map step_of steps.new.items ≡ map step_of steps.old.items
        ++ map (message_step EF.DIMENSION (codes "claimed_evaluations"))
        (widths (nested commitments.now))) }
{
    for matrices in commitments {
        push_claims_of_matrices::<F, EF>(steps, matrices)?;
    }
    Ok(())
}

/// Appends a step for each point of the matrices under a commitment.
fn push_claims_of_matrices<F: Field, EF: ExtensionField<F>>(
    steps: &mut Vec<Interaction>,
    matrices: &[Vec<usize>],
) -> Result<(), AllocError>
    ensures { OnOk result (map step_of steps.new.items ≡ map step_of steps.old.items
        ++ map (message_step EF.DIMENSION (codes "claimed_evaluations"))
        (joined (lists matrices.now))) }
{
    for points in matrices {
        push_claims_at_points::<F, EF>(steps, points)?;
    }
    Ok(())
}

/// Appends a step for each point of a matrix.
fn push_claims_at_points<F: Field, EF: ExtensionField<F>>(
    steps: &mut Vec<Interaction>,
    counts: &[usize],
) -> Result<(), AllocError>
    ensures { OnOk result (map step_of steps.new.items ≡ map step_of steps.old.items
        ++ map (message_step EF.DIMENSION (codes "claimed_evaluations")) counts.now) }
{
    for count in counts {
        steps.push(Interaction::algebra::<F, EF>(
            Hierarchy::Atomic,
            Kind::Message,
            CLAIMED_EVALUATIONS,
            Length::Fixed(*count),
        ))?;
    }
    Ok(())
}

/// Adds as labels how the points are grouped: the number of commitments, then of each its number of
/// matrices, and of each of these its number of points.
pub(super) fn push_grouping(
    separator: &mut DomainSeparator,
    alloc: Global,
    commitments: &[Vec<Vec<usize>>],
) -> Result<(), AllocError>
    ensures { OnOk result (description separator.new ≡ labels_added
        (map number_bytes (grouping (nested commitments.now))) (description separator.old)) }
{
    push_label(separator, alloc, commitments.len())?;
    for matrices in commitments {
        push_group(separator, alloc, matrices)?;
    }
    Ok(())
}

/// Adds the labels of a commitment.
fn push_group(
    separator: &mut DomainSeparator,
    alloc: Global,
    matrices: &[Vec<usize>],
) -> Result<(), AllocError>
    ensures { OnOk result (description separator.new ≡ labels_added
        (map number_bytes (length (lists matrices.now) ∷ map length (lists matrices.now)))
        (description separator.old)) }
{
    push_label(separator, alloc, matrices.len())?;
    for points in matrices {
        push_label(separator, alloc, points.as_slice().len())?;
    }
    Ok(())
}
