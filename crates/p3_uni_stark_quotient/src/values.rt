//! The quotient's values on a coset.

ghost use Rattle.std.specs.Prelude.{◌≡◌, ◌≤◌, ◌+◌, ◌^◌, IfOk, reverse};
ghost use Rattle.p3_air.specs.WellFormed.{IsWellFormed};
ghost use Rattle.p3_uni_stark_identity.specs.Laws.{IsOffSubgroup};
ghost use Rattle.p3_uni_stark_quotient.specs.Given.{on_coset, FitsCoset};
ghost use Rattle.p3_uni_stark_quotient.specs.Quotient.{quotient_on_coset};

use crate::blocks::{num_blocks, push_blocks};
use crate::columns::CosetColumns;
use crate::rows::{Prepared, push_rows};
use crate::selectors::selectors_on_coset;
use p3_air::{Air, Constraint};
use p3_field_core::powers::powers;
use p3_field_core::{
    ExtensionField, PackableField, PackedField, TwoAdicField, TwoAdicMultiplicativeCoset,
};
use std::alloc::{AllocError, Global};

/// The constraints, the last one first.
fn reversed_constraints(
    alloc: Global,
    constraints: &[Constraint],
) -> Result<Vec<Constraint>, AllocError>
    ensures { IfOk result (λ reversed. reversed.items ≡ reverse constraints.now) }
{
    let mut reversed = Vec::from_slice(alloc, constraints)?;
    reversed.reverse();
    Ok(reversed)
}

/// The quotient's values at the points of a coset, in natural order: the constraints' sum by powers
/// of `alpha`, over the value of the polynomial that vanishes on the trace's domain of `2^log_size`
/// points. The coset has `2^log_num_chunks` times as many points and doesn't meet that domain.
///
/// Rows are gone through in blocks, several at once by lanes where the field's elements are packed;
/// nothing grows within a block, the selectors of all points come of three inversions, and values
/// are put together in the extension by products with elements of the base field alone.
pub fn quotient_values<F: TwoAdicField + PackableField, EF: ExtensionField<F>>(
    alloc: Global,
    air: &Air<F>,
    columns: &CosetColumns<'_, F>,
    log_size: usize,
    log_num_chunks: usize,
    coset: TwoAdicMultiplicativeCoset<F>,
    alpha: EF,
) -> Result<Vec<EF>, AllocError>
    requires well_formed { IsWellFormed air.now }
    requires size { coset.log_size ≡ log_size + log_num_chunks }
    requires columns { FitsCoset air.now.layout (2 ^ coset.log_size) (on_coset columns.now) }
    requires off { IsOffSubgroup F.ops (F.root coset.log_size) coset.shift log_size }
    ensures { IfOk result (λ values. values.items ≡ quotient_on_coset F.ops EF.ops EF.lift air.now
        (F.root log_size) (2 ^ log_size) alpha (on_coset columns.now) (F.root coset.log_size)
        coset.shift (2 ^ log_num_chunks) coset.log_size) }
{
    let all_selectors = selectors_on_coset(alloc, log_size, coset)?;
    let constraints = reversed_constraints(alloc, air.constraints.as_slice())?;
    let all_powers = powers(alloc, alpha, constraints.len())?;
    let prepared = Prepared {
        air,
        columns: *columns,
        reversed: constraints.as_slice(),
        powers: all_powers.as_slice(),
        selectors: all_selectors.as_slice(),
        step: 1usize << log_num_chunks,
    };
    let width = F::Packing::WIDTH;
    let blocks = num_blocks(coset.size(), width);
    let mut values = Vec::with_capacity(alloc, coset.size())?;
    push_blocks::<F, EF, F::Packing>(alloc, &prepared, blocks, &mut values)?;
    push_rows(alloc, &prepared, blocks * width, &mut values)?;
    Ok(values)
}
