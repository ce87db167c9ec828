//! The quotient's values at all points, a block of rows at a time.

ghost use Rattle.std.specs.Prelude.{◌≡◌, ◌≢◌, ◌<◌, ◌≤◌, ◌*◌, ◌/◌, ℕ, [], OnOk};
ghost use Rattle.std.specs.Prelude.{length};
ghost use Rattle.algebra.specs.Polynomial.{tabulate};
ghost use Rattle.p3_uni_stark_quotient.specs.Prepared.{IsReady, IsPreparedFor, quotient_at};

use crate::lanes::{LaneBuffers, pack_selectors, push_by_lanes};
use crate::packed::PackedColumns;
use crate::rows::Prepared;
use p3_field_core::{ExtensionField, Field, PackedField};
use std::alloc::{AllocError, Global};

/// How many blocks of `width` rows are computed by lanes: none where there is one lane alone, by
/// which nothing is gained.
pub(crate) fn num_blocks(size: usize, width: usize) -> usize
    requires { 0 < width }
    ensures within { result * width ≤ size }
    ensures blocks { width ≢ 1 → result ≡ size / width }
    ensures alone { width ≡ 1 → result ≡ 0 }
{
    if width == 1 { 0 } else { size / width }
}

/// Appends the values at the rows of so many blocks, each of as many rows as there are lanes, from
/// the first on. Nothing grows within a block but the first.
pub(crate) fn push_blocks<F: Field, EF: ExtensionField<F>, P: PackedField<F>>(
    alloc: Global,
    prepared: &Prepared<'_, F, EF>,
    blocks: usize,
    values: &mut Vec<EF>,
) -> Result<(), AllocError>
    requires ready { IsReady prepared.now }
    requires blocks { blocks * P.WIDTH ≤ length prepared.now.selectors.now }
    requires empty { values.old.items ≡ [] }
    ensures { (g : F) (n : ℕ) (alpha : EF) (x : ℕ → F)
        → IsPreparedFor F.ops EF.ops prepared.now g n alpha x
        → OnOk result (values.new.items ≡ tabulate (blocks * P.WIDTH)
        (quotient_at F.ops EF.ops prepared.now g n alpha x EF.lift)) }
{
    let layout = prepared.air.layout;
    let public_values = prepared.columns.public_values;
    let mut packed = PackedColumns::<'_, F, P>::new(alloc);
    let mut buffers = LaneBuffers::<F, EF, P>::new(alloc);
    for block in 0..blocks {
        let first = block * P::WIDTH;
        packed.fill(&layout, &prepared.columns, first, prepared.step)?;
        let window = packed.window(public_values);
        let selectors = pack_selectors(prepared.selectors, first);
        push_by_lanes(
            prepared.air,
            prepared.reversed,
            prepared.powers,
            &window,
            &selectors,
            &mut buffers,
            values,
        )?;
    }
    Ok(())
}
