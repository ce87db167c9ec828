//! Tests of the conditions of commitments and openings, for values that come from outside.

ghost use Rattle.std.specs.Prelude.{◌≡◌, ◌↔◌, IsTrue};
ghost use Rattle.p3_mmcs.specs.Batch.{max_height, AreBelow, HavePowerHeights};

use p3_matrix::Dimensions;

/// Whether each height is a power of two, as matrices that are committed together have them.
#[tactic(auto, using(crate::proofs::Heights::heights_refused))]
pub fn have_power_heights(dimensions: &[Dimensions]) -> bool
    ensures { IsTrue result ↔ HavePowerHeights dimensions.now }
{
    for d in dimensions {
        if !d.height.is_power_of_two() {
            return false;
        }
    }
    true
}

/// The greatest height, 1 where there is none. The indices of an opening lie below it.
#[tactic(auto, using(crate::proofs::Heights::max_height_take))]
pub fn max_height(dimensions: &[Dimensions]) -> usize
    ensures { result ≡ max_height dimensions.now }
{
    let mut greatest: usize = 1;
    for d in dimensions {
        greatest = greatest.max(d.height);
    }
    greatest
}

/// Whether each index lies below `height`.
pub fn indices_are_below(indices: &[usize], height: usize) -> bool
    ensures { IsTrue result ↔ AreBelow height indices.now }
{
    indices.iter().all(|i| *i < height)
}
