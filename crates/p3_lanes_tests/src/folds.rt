//! Folds of rows by lanes.

ghost use Rattle.std.specs.Prelude.{◌+◌, ◌<◌, ◌≤◌, ◌^◌};

use crate::one_lane::OneLane;
use p3_field::{
    BabyBear, BabyBear4, Field, PackableExtension, PackableField, PackedField, TwoAdicField,
};
use p3_fri_folding::{FriFoldingStrategy, TwoAdicFriFolding, fold_lanes};
use std::alloc::Global;
use std::marker::PhantomData;
use std::process::Abort;

/// Entry `j` of row `i` of `2^log_arity` values: each entry another one.
fn entry<EF: Field>(i: usize, j: usize, log_arity: usize) -> EF
    requires { log_arity ≤ 3 }
{
    EF::GENERATOR.exp_u64(i as u64).exp_power_of_2(log_arity) * EF::TWO.exp_u64(j as u64)
}

/// The row `i` of `2^log_arity` values.
fn row<EF: Field>(rt: &impl Abort, alloc: Global, i: usize, log_arity: usize) -> Vec<EF>
    requires { log_arity ≤ 3 }
{
    let mut row = Vec::new(alloc);
    for j in 0..1usize << log_arity {
        row.push(entry(i, j, log_arity)).expect(rt, "memory");
    }
    row
}

/// The rows from `first` on, one to a lane.
fn rows_by_lanes<EF: Field, P: PackedField<EF>>(
    rt: &impl Abort,
    alloc: Global,
    first: usize,
    log_arity: usize,
) -> Vec<P>
    requires { log_arity ≤ 3 }
{
    let mut values = Vec::new(alloc);
    for j in 0..1usize << log_arity {
        let mut packed = P::broadcast(EF::ZERO);
        for lane in 0..P::WIDTH {
            packed = packed.with_lane(lane, entry(first.wrapping_add(lane), j, log_arity));
        }
        values.push(packed).expect(rt, "memory");
    }
    values
}

/// The fold by lanes of the rows from `first` on, at the generator.
fn fold_by_lanes<F: TwoAdicField + PackableField, EF: PackableExtension<F>>(
    rt: &impl Abort,
    alloc: Global,
    first: usize,
    log_height: usize,
    log_arity: usize,
) -> EF::ExtensionPacking
    requires within_two_adicity { log_height + log_arity ≤ F.TWO_ADICITY }
    requires positive { 1 ≤ log_arity }
    requires arity { log_arity ≤ 3 }
    requires within_word { first + EF.ExtensionPacking.WIDTH ≤ 2 ^ log_height }
{
    let mut values = rows_by_lanes::<EF, EF::ExtensionPacking>(rt, alloc, first, log_arity);
    assert!(rt; values.len() == 1 << log_arity, "another number of entries");
    fold_lanes::<F, EF>(first, log_height, log_arity, EF::GENERATOR, &mut values)
}

/// The fold of one row, at the generator.
fn fold_of_row<F: TwoAdicField + PackableField, EF: PackableExtension<F>>(
    rt: &impl Abort,
    alloc: Global,
    index: usize,
    log_height: usize,
    log_arity: usize,
) -> EF
    requires within_two_adicity { log_height + log_arity ≤ F.TWO_ADICITY }
    requires positive { 1 ≤ log_arity }
    requires arity { log_arity ≤ 3 }
    requires within_word { index < 2 ^ log_height }
{
    let row = row::<EF>(rt, alloc, index, log_arity);
    assert!(rt; row.len() == 1 << log_arity, "another number of entries");
    let folding: TwoAdicFriFolding<(), ()> = TwoAdicFriFolding(PhantomData);
    FriFoldingStrategy::<F, EF>::fold_row(
        &folding,
        index,
        log_height,
        log_arity,
        EF::GENERATOR,
        &row,
    )
}

/// Whether the fold by lanes of the rows from `first` on is the fold of each, at the generator.
fn lanes_agree<F: TwoAdicField + PackableField, EF: PackableExtension<F>>(
    rt: &impl Abort,
    alloc: Global,
    first: usize,
    log_height: usize,
    log_arity: usize,
) -> bool
    requires within_two_adicity { log_height + log_arity ≤ F.TWO_ADICITY }
    requires positive { 1 ≤ log_arity }
    requires arity { log_arity ≤ 3 }
    requires low { log_height < 24 }
{
    let width = EF::ExtensionPacking::WIDTH;
    assert!(rt;
        width <= 1 << log_height && first <= (1 << log_height) - width,
        "there are fewer rows"
    );
    let folds = fold_by_lanes::<F, EF>(rt, alloc, first, log_height, log_arity);
    let mut right = true;
    for lane in 0..width {
        let fold = fold_of_row::<F, EF>(rt, alloc, first + lane, log_height, log_arity);
        right = right && fold == folds.lane(lane);
    }
    right
}

/// The first rows of the folds by lanes.
static FIRST_ROWS: [usize; 4] = [0, 3, 8, 24];

/// The folds by lanes of 32 rows are those of each row, over the fields of this name.
fn check_folds<F: TwoAdicField + PackableField, EF: PackableExtension<F>>(
    rt: &impl Abort,
    alloc: Global,
    fields: &str,
)
    requires within_two_adicity { 8 ≤ F.TWO_ADICITY }
{
    for log_arity in 1..4 {
        for first in &FIRST_ROWS {
            assert!(rt;
                lanes_agree::<F, EF>(rt, alloc, *first, 5, log_arity),
                "{fields}: log arity {log_arity}, first row {first}"
            );
        }
    }
}

#[test]
fn lanes_fold_their_rows(rt: HostRuntime) {
    check_folds::<BabyBear, BabyBear>(&rt, rt.alloc(), "the field");
    check_folds::<BabyBear, BabyBear4>(&rt, rt.alloc(), "the extension");
    check_folds::<OneLane, OneLane>(&rt, rt.alloc(), "the field without lanes");
}

#[test]
fn one_lane_folds_the_only_row(rt: HostRuntime) {
    // at the points 1, -1, i and -i the polynomial is X^2
    let mut row = [OneLane::ONE, OneLane::ONE, -OneLane::ONE, -OneLane::ONE];
    let three = OneLane::from_u64(3);
    let fold = fold_lanes::<OneLane, OneLane>(0, 0, 2, three, &mut row);
    assert!(rt; fold == OneLane::from_u64(9));
}

#[test]
fn eight_lanes_fold_constants_to_themselves(rt: HostRuntime) {
    let sevens = <BabyBear as PackableField>::Packing::broadcast(BabyBear::from_u64(7));
    let mut rows = [sevens, sevens, sevens, sevens];
    let folds = fold_lanes::<BabyBear, BabyBear>(0, 3, 2, BabyBear::TWO, &mut rows);
    for lane in 0..8 {
        assert!(rt; folds.lane(lane) == BabyBear::from_u64(7), "lane {lane}");
    }
}
