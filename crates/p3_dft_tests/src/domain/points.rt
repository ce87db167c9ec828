//! Points of a domain, what vanishes on it, and a domain disjoint from it.

use crate::domain::numbers::{Domain, domain, extension, numbers};
use p3_domain::PolynomialSpace;
use p3_field::{BabyBear, Field, PrimeField64};

/// A domain's shift and the logarithm of its size, its points, and the value at
/// `2 + 7X + X^2 + 8X^3` of what vanishes on it.
static DOMAINS: [(u64, usize, &[u64], [u64; 4]); 3] = [
    (
        1,
        3,
        &[
            1, 1592366214, 1728404513, 211723194, 2013265920, 420899707, 284861408, 1801542727,
        ],
        [842895670, 213290107, 1078276407, 1744820774],
    ),
    (
        31,
        2,
        &[31, 1235625957, 2013265890, 777639964],
        [328921157, 1226538295, 873207806, 1434640075],
    ),
    (7, 0, &[7], [1725656503, 1, 862828252, 862828253]),
];

/// Whether the points from the first on are those of these numbers, after which the first comes
/// again, and the domain has as many.
fn goes_round<D: PolynomialSpace>(domain: &D, numbers: &[u64]) -> bool {
    let mut point = domain.first_point();
    for number in numbers {
        if point != D::Val::from_u64(*number) {
            return false;
        }
        match domain.next_point(point) {
            Some(next) => point = next,
            None => return false,
        }
    }
    point == domain.first_point() && domain.size() == numbers.len()
}

#[test]
fn points_go_round(rt: HostRuntime) {
    for (shift, log_size, points, vanishing) in &DOMAINS {
        let domain = domain(&rt, *shift, *log_size);
        let value = PolynomialSpace::vanishing_poly_at_point(&domain, extension([2, 7, 1, 8]));
        let agree = goes_round(&domain, *points) && numbers(value) == *vanishing;
        assert!(rt; agree, "2^{log_size} points");
    }
}

/// A domain's shift, how many points another is to have, and its shift and log size.
static DISJOINT: [(u64, usize, Option<(u64, usize)>); 6] = [
    (1, 5, Some((31, 3))),
    (7, 8, Some((217, 3))),
    (7, 0, Some((217, 0))),
    (7, 1, Some((217, 0))),
    (1, 1 << 27, Some((31, 27))),
    (1, (1 << 27) + 1, None),
];

/// Whether the domain that is asked for is there, with this shift and log size, or isn't.
fn is_domain(domain: Option<Domain>, wanted: Option<(u64, usize)>) -> bool {
    match domain {
        Some(domain) => wanted == Some((domain.shift().as_canonical_u64(), domain.log_size())),
        None => wanted.is_none(),
    }
}

#[test]
fn disjoint_domains(rt: HostRuntime) {
    for (shift, min_size, wanted) in &DISJOINT {
        let other = domain(&rt, *shift, 3).create_disjoint_domain(*min_size);
        assert!(rt; is_domain(other, *wanted), "{min_size} points");
    }
}
