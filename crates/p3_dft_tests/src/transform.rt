//! Worked values, and each call against the values by Horner's rule.

ghost use Rattle.std.specs.Prelude.{◌≡◌, ◌<◌, ◌≤◌, ◌+◌, ◌*◌, ◌^◌, length, vec_len};
ghost use Rattle.p3_matrix.specs.Matrix.{rows};

use crate::column::column_of;
use p3_dft::{Radix2Dit, TwoAdicSubgroupDft};
use p3_field::{BabyBear, BabyBear4, ExtensionField, Field, TwoAdicField};
use p3_matrix::RowMajorMatrix;
use std::alloc::Global;
use std::process::Abort;

/// Elements in no regular order.
fn elements<EF: Field>(rt: &impl Abort, alloc: Global, count: usize) -> Vec<EF>
    ensures { vec_len result ≡ count }
{
    let mut elements = vec![in alloc; EF::ZERO; count].expect(rt, "memory");
    let mut next = EF::GENERATOR;
    for element in elements.iter_mut() {
        *element = next;
        next = next.square() + EF::GENERATOR;
    }
    elements
}

/// The same matrix of elements in no regular order, each time.
fn matrix<EF: Field>(
    rt: &impl Abort,
    alloc: Global,
    log_height: usize,
    width: usize,
) -> RowMajorMatrix<EF>
    requires low { log_height < 10 }
    ensures height { length (rows result) ≡ 2 ^ log_height }
{
    let height = 1usize << log_height;
    let elements = elements::<EF>(rt, alloc, height.saturating_mul(width));
    assert!(rt; width != 0 && elements.len() % width == 0);
    let matrix = RowMajorMatrix::new(elements, width);
    assert!(rt; matrix.height() == height);
    matrix
}

/// The value at `x` of the polynomial whose coefficients stand in a column.
fn value<EF: Field>(coefficients: &RowMajorMatrix<EF>, column: usize, x: EF) -> EF {
    let mut value = EF::ZERO;
    for i in (0..coefficients.height()).rev() {
        value = value * x + coefficients.get(i, column).unwrap_or(EF::ZERO);
    }
    value
}

/// The matrix whose row `i`, of `2^log_height`, has the values at `shift * root^i` by Horner's
/// rule.
fn values_by_horner<EF: Field>(
    rt: &impl Abort,
    alloc: Global,
    coefficients: &RowMajorMatrix<EF>,
    log_height: usize,
    shift: EF,
    root: EF,
) -> RowMajorMatrix<EF>
    requires low { log_height < 12 }
    ensures height { length (rows result) ≡ 2 ^ log_height }
{
    let (height, width) = (1usize << log_height, coefficients.width());
    let mut values = Vec::new(alloc);
    let mut point = shift;
    for _ in 0..height {
        for column in 0..width {
            let value = value(coefficients, column, point);
            values.push(value).expect(rt, "memory");
        }
        point = point * root;
    }
    assert!(rt; values.len() % width == 0);
    let matrix = RowMajorMatrix::new(values, width);
    assert!(rt; matrix.height() == height);
    matrix
}

/// Whether the transforms of a matrix to the subgroup and to a coset, and the extension, answer the
/// values by Horner's rule, and the inverse gives back the coefficients.
fn values_agree<F: TwoAdicField, D: TwoAdicSubgroupDft<F>>(
    rt: &impl Abort,
    alloc: Global,
    dft: &D,
    log: usize,
    width: usize,
) -> bool
    requires low { log < 10 }
    requires within_two_adicity { log + 2 ≤ F.TWO_ADICITY }
{
    let shift = F::GENERATOR;
    let (root, extended_root) = (F::two_adic_generator(log), F::two_adic_generator(log + 2));
    let coefficients = matrix::<F>(rt, alloc, log, width);
    let values = values_by_horner(rt, alloc, &coefficients, log, F::ONE, root);
    let coset_values = values_by_horner(rt, alloc, &coefficients, log, shift, root);
    let extended = values_by_horner(rt, alloc, &coefficients, log + 2, shift, extended_root);
    let copy = matrix::<F>(rt, alloc, log, width);
    let transformed = dft.dft_batch(alloc, copy).expect(rt, "memory");
    let other = matrix::<F>(rt, alloc, log, width);
    let shifted = dft
        .coset_dft_batch(alloc, other, shift)
        .expect(rt, "memory");
    let all_agree = transformed == values && shifted == coset_values;
    let longer = dft
        .coset_lde_batch(alloc, values, 2, shift)
        .expect(rt, "memory");
    let back = dft
        .coset_idft_batch(alloc, coset_values, shift)
        .expect(rt, "memory");
    all_agree && longer == extended && back == coefficients
}

/// Whether the extension of one column is that of the matrix of this column alone.
fn columns_agree<F: TwoAdicField, D: TwoAdicSubgroupDft<F>>(
    rt: &impl Abort,
    alloc: Global,
    dft: &D,
    log_height: usize,
) -> bool
    requires low { log_height < 10 }
    requires within_two_adicity { log_height + 1 ≤ F.TWO_ADICITY }
{
    let values = matrix::<F>(rt, alloc, log_height, 1);
    let column = elements::<F>(rt, alloc, 1 << log_height);
    let extended = dft
        .coset_lde_batch(alloc, values, 1, F::GENERATOR)
        .expect(rt, "memory");
    let extended_column = dft
        .coset_lde(alloc, column, 1, F::GENERATOR)
        .expect(rt, "memory");
    extended.into_values().as_slice() == extended_column.as_slice()
}

/// Whether the polynomial over an extension that is found of its values has these by Horner's rule.
fn algebra_comes_back<F: TwoAdicField, EF: ExtensionField<F>, D: TwoAdicSubgroupDft<F>>(
    rt: &impl Abort,
    alloc: Global,
    dft: &D,
    log_height: usize,
) -> bool
    requires low { log_height < 10 }
    requires within_two_adicity { log_height ≤ F.TWO_ADICITY }
{
    let values = elements::<EF>(rt, alloc, 1 << log_height);
    let coefficients = dft.idft_algebra(alloc, values).expect(rt, "memory");
    let coefficients = RowMajorMatrix::new(coefficients, 1);
    let root = EF::from_base(F::two_adic_generator(log_height));
    let back = values_by_horner(rt, alloc, &coefficients, log_height, EF::ONE, root);
    back == matrix::<EF>(rt, alloc, log_height, 1)
}

/// Whether all calls agree with Horner's rule at `2^log` rows.
fn calls_agree<F: TwoAdicField, EF: ExtensionField<F>, D: TwoAdicSubgroupDft<F>>(
    rt: &impl Abort,
    alloc: Global,
    dft: &D,
    log: usize,
) -> bool
    requires low { log < 10 }
    requires within_two_adicity { log + 2 ≤ F.TWO_ADICITY }
{
    values_agree(rt, alloc, dft, log, 1)
        && values_agree(rt, alloc, dft, log, 3)
        && columns_agree(rt, alloc, dft, log)
        && algebra_comes_back::<F, EF, D>(rt, alloc, dft, log)
}

/// Whether the only column has so many rows, and in each of these the number beside it.
fn shows(matrix: &RowMajorMatrix<BabyBear>, height: usize, numbers: &[(usize, u64)]) -> bool {
    let mut right = matrix.height() == height;
    for (row, number) in numbers {
        right = right && matrix.get(*row, 0) == Some(BabyBear::from_u64(*number));
    }
    right
}

#[test]
fn two_coefficients(rt: HostRuntime) {
    let alloc = rt.alloc();
    let dft = Radix2Dit::<BabyBear>::default();
    let coefficients = RowMajorMatrix::new(column_of(&rt, alloc, &[2, 2013265920]), 1);
    assert!(rt; coefficients.height() == 2);
    let values = dft.dft_batch(alloc, coefficients).expect(&rt, "memory");
    assert!(rt; values.height() == 2);
    let transformed = shows(&values, 2, &[(0, 1), (1, 3)]);
    let extended = dft.coset_lde_batch(alloc, values, 1, BabyBear::GENERATOR);
    let extended = extended.expect(&rt, "memory");
    assert!(rt; transformed && shows(&extended, 4, &[(0, 2013265892), (2, 33)]));
}

#[test]
fn calls_agree_with_horner(rt: HostRuntime) {
    let dft = Radix2Dit::<BabyBear>::default();
    for log in [0, 1, 3] {
        let agree = calls_agree::<BabyBear, BabyBear4, _>(&rt, rt.alloc(), &dft, log);
        assert!(rt; agree, "2^{log} rows");
    }
}
