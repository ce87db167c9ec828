//! Opened values cut into those that are shown and the random ones that a proof keeps.

ghost use Rattle.std.specs.Prelude.{◌≡◌, IfOk, OnOk, map};
ghost use Rattle.algebra.specs.Nested.{lists, nested};
ghost use Rattle.p3_pcs.specs.Claims.{opened_values};
ghost use Rattle.p3_fri_hiding_openings.specs.Halves.{shown, kept_back, shown_values, kept_values};

use crate::append::expected_count;
use p3_mmcs::OpenedValues;
use std::alloc::{AllocError, Global};

/// Cuts the last `count` values off, or all where there are fewer.
fn split_point<EF: Copy>(
    alloc: Global,
    values: &mut Vec<EF>,
    count: usize,
) -> Result<Vec<EF>, AllocError>
    ensures shown { OnOk result (values.new.items ≡ shown count values.old.items) }
    ensures kept { IfOk result (λ kept. kept.items ≡ kept_back count values.old.items) }
{
    let at = values.len().saturating_sub(count);
    let kept = Vec::from_slice(alloc, &values[at..])?;
    values.truncate(at);
    Ok(kept)
}

/// Cuts the last `count` values off at each point.
fn split_points<EF: Copy>(
    alloc: Global,
    values: &mut [Vec<EF>],
    count: usize,
) -> Result<Vec<Vec<EF>>, AllocError>
    ensures shown { OnOk result (lists values.new ≡ map (shown count) (lists values.old)) }
    ensures kept { IfOk result (λ kept.
        lists kept.items ≡ map (kept_back count) (lists values.old)) }
{
    let mut kept = Vec::with_capacity(alloc, values.len())?;
    for i in 0..values.len() {
        kept.push(split_point(alloc, &mut values[i], count)?)?;
    }
    Ok(kept)
}

/// The same of a matrix's points.
fn split_matrix<EF: Copy>(
    alloc: Global,
    values: &mut Vec<Vec<EF>>,
    count: usize,
) -> Result<Vec<Vec<EF>>, AllocError>
    ensures shown { OnOk result
        (lists values.new.items ≡ map (shown count) (lists values.old.items)) }
    ensures kept { IfOk result (λ kept.
        lists kept.items ≡ map (kept_back count) (lists values.old.items)) }
{
    split_points(alloc, values.as_mut_slice(), count)
}

/// Cuts the last `count` values off at each point of each matrix.
fn split_matrices<EF: Copy>(
    alloc: Global,
    values: &mut [Vec<Vec<EF>>],
    count: usize,
) -> Result<Vec<Vec<Vec<EF>>>, AllocError>
    ensures shown { OnOk result
        (nested values.new ≡ map (map (shown count)) (nested values.old)) }
    ensures kept { IfOk result (λ kept.
        nested kept.items ≡ map (map (kept_back count)) (nested values.old)) }
{
    let mut kept = Vec::with_capacity(alloc, values.len())?;
    for i in 0..values.len() {
        kept.push(split_matrix(alloc, &mut values[i], count)?)?;
    }
    Ok(kept)
}

/// The same of the matrices under a commitment.
fn split_round<EF: Copy>(
    alloc: Global,
    values: &mut Vec<Vec<Vec<EF>>>,
    count: usize,
) -> Result<Vec<Vec<Vec<EF>>>, AllocError>
    ensures shown { OnOk result
        (nested values.new.items ≡ map (map (shown count)) (nested values.old.items)) }
    ensures kept { IfOk result (λ kept.
        nested kept.items ≡ map (map (kept_back count)) (nested values.old.items)) }
{
    split_matrices(alloc, values.as_mut_slice(), count)
}

/// The same under each commitment, with the number of values that are kept back there.
fn split_rounds<EF: Copy>(
    alloc: Global,
    values: &mut [Vec<Vec<Vec<EF>>>],
    num_random_codewords: usize,
    preprocessing: Option<usize>,
) -> Result<OpenedValues<EF>, AllocError>
    ensures shown { OnOk result (opened_values values.new
        ≡ shown_values num_random_codewords preprocessing (opened_values values.old)) }
    ensures kept { IfOk result (λ kept. opened_values kept.items
        ≡ kept_values num_random_codewords preprocessing (opened_values values.old)) }
{
    let mut kept = Vec::with_capacity(alloc, values.len())?;
    for i in 0..values.len() {
        let count = expected_count(num_random_codewords, preprocessing, i);
        kept.push(split_round(alloc, &mut values[i], count)?)?;
    }
    Ok(kept)
}

/// Cuts the last `num_random_codewords` values off at each point, and none under the preprocessed
/// commitment, if the index names one: the values that are shown, and those that go into the proof.
/// Where fewer stand at a point, all are cut off.
pub fn split_random_values<EF: Copy>(
    alloc: Global,
    mut values: OpenedValues<EF>,
    num_random_codewords: usize,
    preprocessing: Option<usize>,
) -> Result<(OpenedValues<EF>, OpenedValues<EF>), AllocError>
    ensures shown { IfOk result (λ halves. opened_values halves.0.items
        ≡ shown_values num_random_codewords preprocessing (opened_values values.items)) }
    ensures kept { IfOk result (λ halves. opened_values halves.1.items
        ≡ kept_values num_random_codewords preprocessing (opened_values values.items)) }
{
    let kept = split_rounds(
        alloc,
        values.as_mut_slice(),
        num_random_codewords,
        preprocessing,
    )?;
    Ok((values, kept))
}
