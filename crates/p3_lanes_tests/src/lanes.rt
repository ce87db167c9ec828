//! Operations lane by lane.

ghost use Rattle.std.specs.Prelude.{◌<◌};

use crate::one_lane::OneLane;
use p3_field::{
    BabyBear, BabyBear4, BabyBear4x8Lanes, BabyBear8Lanes, ExtensionField, Field,
    PackableExtension, PackableField, PackedExtension, PackedField, PrimeField64,
};

/// A different element for each number.
fn element<T: Field>(number: usize) -> T {
    (T::GENERATOR + T::ONE).exp_u64(number as u64)
}

/// Different elements from that of `first` on, one to a lane.
fn elements<T: Field, P: PackedField<T>>(first: usize) -> P {
    P::from_fn(|lane| element::<T>(first.wrapping_add(lane)))
}

/// Whether `a` with another element in one lane has it there, and elsewhere what it had.
fn changes_one_lane<T: Field, P: PackedField<T>>(a: P, lane: usize, value: T) -> bool
    requires { lane < P.WIDTH }
{
    let changed = a.with_lane(lane, value);
    let mut right = true;
    for other in 0..P::WIDTH {
        let wanted = if other == lane { value } else { a.lane(other) };
        right = right && changed.lane(other) == wanted;
    }
    right
}

/// Whether the packed elements of two runs of elements give, by each operation, what the lanes'
/// elements give.
fn operations_act_on_each_lane<T: Field, P: PackedField<T>>() -> bool {
    let a = elements::<T, P>(3);
    let b = elements::<T, P>(70);
    let (sums, differences, products, opposites) = (a + b, a - b, a * b, -a);
    let all = P::broadcast(T::TWO);
    let mut right = true;
    for lane in 0..P::WIDTH {
        let (x, y) = (
            element::<T>(lane.wrapping_add(3)),
            element::<T>(lane.wrapping_add(70)),
        );
        let found = (
            a.lane(lane),
            b.lane(lane),
            sums.lane(lane),
            differences.lane(lane),
            products.lane(lane),
            opposites.lane(lane),
            all.lane(lane),
        );
        right = right && found == (x, y, x + y, x - y, x * y, -x, T::TWO);
        right = right && changes_one_lane(a, lane, y);
    }
    right
}

/// Whether packed elements of an extension are scaled lane by lane, and are as many as the scales.
fn scales_each_lane<F: PackableField, EF: PackableExtension<F>>() -> bool {
    let a = elements::<EF, EF::ExtensionPacking>(3);
    let factors = elements::<F, F::Packing>(70);
    let scaled = a.scale_lanes(factors);
    let width = EF::ExtensionPacking::WIDTH;
    let mut right = F::Packing::WIDTH == width;
    for lane in 0..width {
        let factor = element::<F>(lane.wrapping_add(70));
        right = right && scaled.lane(lane) == a.lane(lane).scale(factor);
    }
    right
}

#[test]
fn eight_lanes_of_the_field(rt: HostRuntime) {
    assert!(rt; BabyBear8Lanes::WIDTH == 8);
    assert!(rt; operations_act_on_each_lane::<BabyBear, BabyBear8Lanes>());
    assert!(rt; scales_each_lane::<BabyBear, BabyBear>());
    // each lane wraps at the order
    let greatest = BabyBear8Lanes::broadcast(-BabyBear::ONE);
    let sum = (greatest + greatest).lane(7).as_canonical_u64();
    assert!(rt; sum == 2_013_265_919);
    assert!(rt; (greatest * greatest).lane(7) == BabyBear::ONE);
}

#[test]
fn eight_lanes_of_the_extension(rt: HostRuntime) {
    assert!(rt; BabyBear4x8Lanes::WIDTH == 8);
    assert!(rt; operations_act_on_each_lane::<BabyBear4, BabyBear4x8Lanes>());
    assert!(rt; scales_each_lane::<BabyBear, BabyBear4>());
}

#[test]
fn one_lane_of_fields_without_lanes(rt: HostRuntime) {
    assert!(rt; operations_act_on_each_lane::<BabyBear4, BabyBear4>());
    assert!(rt; operations_act_on_each_lane::<OneLane, OneLane>());
    assert!(rt; scales_each_lane::<BabyBear4, BabyBear4>());
    assert!(rt; scales_each_lane::<OneLane, OneLane>());
}
