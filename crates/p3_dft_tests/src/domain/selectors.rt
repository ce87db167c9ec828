//! Selectors of a domain's rows.

use crate::domain::numbers::{Domain, domain, extension, numbers};
use p3_domain::{LagrangeSelectors, PolynomialSpace};
use p3_field::{BabyBear, Field, PrimeField64};

/// A domain's shift and the logarithm of its size, a point, and the selectors there: of the first
/// row, of the last, of all but the last, and the inverse of what vanishes on the domain.
static AT_POINTS: [(u64, usize, [u64; 4], [[u64; 4]; 4]); 2] = [
    (
        1,
        3,
        [2, 7, 1, 8],
        [
            [500503419, 246264025, 353729052, 1058223796],
            [1168651659, 636222252, 796571352, 1487891771],
            [211723196, 7, 1, 8],
            [1740554519, 1789494393, 480915490, 368992788],
        ],
    ),
    (
        31,
        2,
        [6, 1, 8, 3],
        [
            [45413541, 1878714801, 579698402, 1447083454],
            [778796894, 1998978180, 1316567282, 1692944062],
            [104802964, 64944062, 519552496, 194832186],
            [1130918441, 573424772, 1719288510, 390075212],
        ],
    ),
];

/// The selectors' numbers at a point, if it is off the domain.
fn at_point(domain: &Domain, point: [u64; 4]) -> Option<[[u64; 4]; 4]> {
    let point = extension(point);
    if PolynomialSpace::vanishing_poly_at_point(domain, point).is_zero() {
        return None;
    }
    let selectors = domain.selectors_at_point(point);
    Some([
        numbers(selectors.is_first_row),
        numbers(selectors.is_last_row),
        numbers(selectors.is_transition),
        numbers(selectors.inv_vanishing),
    ])
}

#[test]
fn selectors_at_points(rt: HostRuntime) {
    for (shift, log_size, point, wanted) in &AT_POINTS {
        let found = at_point(&domain(&rt, *shift, *log_size), *point);
        assert!(rt; found == Some(*wanted), "of 2^{log_size} points");
    }
    assert!(rt; at_point(&domain(&rt, 31, 2), [777639964, 0, 0, 0]).is_none());
}

/// A domain's shift and the logarithm of its size, how many points a disjoint one has, and at each
/// of these the selectors in the same order.
static ON_COSETS: [(u64, usize, usize, &[[u64; 4]]); 2] = [
    (
        1,
        1,
        4,
        &[
            [32, 30, 32, 2011168769],
            [1235625958, 1235625956, 1235625958, 592260141],
            [2013265891, 2013265889, 2013265891, 2011168769],
            [777639965, 777639963, 777639965, 592260141],
        ],
    ),
    (
        7,
        2,
        2,
        &[
            [30784, 1676082105, 1728404544, 1301714455],
            [2013237061, 1676022585, 1728404482, 1301714455],
        ],
    ),
];

/// Whether the selectors are as many as these numbers of four, and theirs.
fn are_numbers(selectors: &[LagrangeSelectors<BabyBear>], numbers: &[[u64; 4]]) -> bool {
    let mut same = selectors.len() == numbers.len();
    for (selectors, wanted) in selectors.iter().zip(numbers) {
        let found = [
            selectors.is_first_row.as_canonical_u64(),
            selectors.is_last_row.as_canonical_u64(),
            selectors.is_transition.as_canonical_u64(),
            selectors.inv_vanishing.as_canonical_u64(),
        ];
        same = same && found == *wanted;
    }
    same
}

#[test]
fn selectors_on_cosets(rt: HostRuntime) {
    for (shift, log_size, min_size, wanted) in &ON_COSETS {
        let domain = domain(&rt, *shift, *log_size);
        let coset = domain.create_disjoint_domain(*min_size);
        let coset = coset.expect(&rt, "no disjoint domain");
        let found = domain
            .selectors_on_coset(rt.alloc(), coset)
            .expect(&rt, "memory");
        assert!(rt; are_numbers(&found, *wanted), "of 2^{log_size} points");
    }
}
