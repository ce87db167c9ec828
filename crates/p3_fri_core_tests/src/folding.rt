//! Folds of rows and of matrices, by strategies over the whole two-adicity.

ghost use Rattle.std.specs.Prelude.{◌≡◌, ◌+◌, ◌<◌, ◌≤◌, ◌^◌, length};
ghost use Rattle.p3_matrix.specs.Matrix.{rows, matrix_width};

use p3_field::{BabyBear, BabyBear4, ExtensionField, Field};
use p3_fri_core::{FriFoldingStrategy, TwoAdicFriFolding, WithExtraBits};
use p3_matrix::RowMajorMatrix;
use std::alloc::Global;
use std::marker::PhantomData;
use std::process::Abort;

type Folding = TwoAdicFriFolding<(), ()>;

const FOLDING: Folding = TwoAdicFriFolding(PhantomData);

/// The points of the subgroup of order 32, in bit-reversed order. These and the next numbers were
/// computed in Python from the root 440564289 of order `2^27`.
const POINTS: &[u64] = &[
    1, 2013265920, 1728404513, 284861408, 1592366214, 420899707, 211723194, 1801542727, 196396260,
    1816869661, 1400279418, 612986503, 78945800, 1934320121, 1446056615, 567209306, 760005850,
    1253260071, 889310574, 1123955347, 177390144, 1835875777, 1424376889, 588889032, 1240658731,
    772607190, 1561292356, 451973565, 1399190761, 614075160, 740045640, 1273220281,
];

/// The fifth powers of the points of the subgroup of order 64, in that order.
const FIFTH_POWERS: &[u64] = &[
    1, 2013265920, 1728404513, 284861408, 420899707, 1592366214, 1801542727, 211723194, 1400279418,
    612986503, 1816869661, 196396260, 567209306, 1446056615, 78945800, 1934320121, 177390144,
    1835875777, 1424376889, 588889032, 1123955347, 889310574, 760005850, 1253260071, 740045640,
    1273220281, 614075160, 1399190761, 1240658731, 772607190, 1561292356, 451973565, 492152090,
    1521113831, 95586718, 1917679203, 406991886, 1606274035, 1957706687, 55559234, 686375053,
    1326890868, 602251207, 1411014714, 1721589904, 291676017, 1941224298, 72041623, 918899846,
    1094366075, 1351065666, 662200255, 1171812390, 841453531, 939236864, 1074029057, 1141518129,
    871747792, 1724976031, 288289890, 328902512, 1684363409, 1333217202, 680048719,
];

/// The points of the subgroup of order 16, in that order, times 7.
const SEVENFOLD_POINTS: &[u64] = &[
    7, 2013265914, 19236065, 1994029856, 1080233893, 933032028, 1482062358, 531203563, 1374773820,
    638492101, 1748892242, 264373679, 552620600, 1460645321, 56066700, 1957199221,
];

/// Numbers as `2^log_height` rows of `2^log_arity`, or if none are listed those from 0 on, and the
/// word that they fold to at beta, or at the field's generator. The word isn't compared if none is
/// listed.
struct Fold {
    name: &'static str,
    values: &'static [u64],
    log_height: usize,
    log_arity: usize,
    beta: Option<u64>,
    word: &'static [u64],
}

/// The numbers from 0 on, at the field's generator.
const COUNTED: Fold = Fold {
    name: "1 row of 2 counted",
    values: &[],
    log_height: 0,
    log_arity: 1,
    beta: None,
    word: &[],
};

static FOLDS: [Fold; 26] = [
    Fold {
        name: "a matrix of one row",
        values: &[5, 3],
        log_height: 0,
        log_arity: 1,
        beta: Some(7),
        word: &[11],
    },
    Fold {
        name: "the first power",
        values: POINTS,
        log_height: 4,
        log_arity: 1,
        beta: Some(7),
        word: &[7; 16],
    },
    Fold {
        // in a row whose points have the fourth power s, X^5 is s X
        name: "the fifth power",
        values: FIFTH_POWERS,
        log_height: 4,
        log_arity: 2,
        beta: Some(7),
        word: SEVENFOLD_POINTS,
    },
    Fold {
        // at the points 1 and -1 the line is 4 + X, at w and -w, for the root w = 1728404513 of
        // order 4, it is 4 + X / w; beta is 7 w
        name: "two lines",
        values: &[5, 3, 5, 3],
        log_height: 1,
        log_arity: 1,
        beta: Some(19_236_065),
        word: &[19_236_069, 11],
    },
    Fold {
        // at the points 1, -1, i and -i the polynomial is X^2
        name: "a row of four at 3",
        values: &[1, 1, 2_013_265_920, 2_013_265_920],
        log_height: 0,
        log_arity: 2,
        beta: Some(3),
        word: &[9],
    },
    Fold {
        name: "a row of four at 1",
        values: &[1, 1, 2_013_265_920, 2_013_265_920],
        log_height: 0,
        log_arity: 2,
        beta: Some(1),
        word: &[1],
    },
    COUNTED,
    Fold {
        name: "1 row of 4 counted",
        log_arity: 2,
        ..COUNTED
    },
    Fold {
        name: "1 row of 8 counted",
        log_arity: 3,
        ..COUNTED
    },
    Fold {
        name: "1 row of 16 counted",
        log_arity: 4,
        ..COUNTED
    },
    Fold {
        name: "4 rows of 2 counted",
        log_height: 2,
        ..COUNTED
    },
    Fold {
        name: "4 rows of 4 counted",
        log_height: 2,
        log_arity: 2,
        ..COUNTED
    },
    Fold {
        name: "4 rows of 8 counted",
        log_height: 2,
        log_arity: 3,
        ..COUNTED
    },
    Fold {
        name: "4 rows of 16 counted",
        log_height: 2,
        log_arity: 4,
        ..COUNTED
    },
    Fold {
        name: "8 rows of 2 counted",
        log_height: 3,
        ..COUNTED
    },
    Fold {
        name: "8 rows of 4 counted",
        log_height: 3,
        log_arity: 2,
        ..COUNTED
    },
    Fold {
        name: "8 rows of 8 counted",
        log_height: 3,
        log_arity: 3,
        ..COUNTED
    },
    Fold {
        name: "8 rows of 16 counted",
        log_height: 3,
        log_arity: 4,
        ..COUNTED
    },
    Fold {
        name: "16 rows of 2 counted",
        log_height: 4,
        ..COUNTED
    },
    Fold {
        name: "16 rows of 4 counted",
        log_height: 4,
        log_arity: 2,
        ..COUNTED
    },
    Fold {
        name: "16 rows of 8 counted",
        log_height: 4,
        log_arity: 3,
        ..COUNTED
    },
    Fold {
        name: "16 rows of 16 counted",
        log_height: 4,
        log_arity: 4,
        ..COUNTED
    },
    Fold {
        name: "64 rows of 2 counted",
        log_height: 6,
        ..COUNTED
    },
    Fold {
        name: "64 rows of 4 counted",
        log_height: 6,
        log_arity: 2,
        ..COUNTED
    },
    Fold {
        name: "64 rows of 8 counted",
        log_height: 6,
        log_arity: 3,
        ..COUNTED
    },
    Fold {
        name: "64 rows of 16 counted",
        log_height: 6,
        log_arity: 4,
        ..COUNTED
    },
];

/// So many elements: those of the numbers, and at later places that of the place.
fn elements<EF: Field>(rt: &impl Abort, alloc: Global, numbers: &[u64], count: usize) -> Vec<EF> {
    let mut elements = Vec::new(alloc);
    for place in 0..count {
        let number = match numbers.get(place) {
            Some(number) => *number,
            None => place as u64,
        };
        elements.push(EF::from_u64(number)).expect(rt, "memory");
    }
    elements
}

/// The values, of which there are so many, as `2^log_height` rows of `2^log_arity`.
fn rows_of<EF: Copy + Drop>(
    rt: &impl Abort,
    values: Vec<EF>,
    log_height: usize,
    log_arity: usize,
) -> RowMajorMatrix<EF>
    requires arity { log_arity ≤ 4 }
    requires height { log_height < 24 }
    ensures height { length (rows result) ≡ 2 ^ log_height }
    ensures width { matrix_width result ≡ 2 ^ log_arity }
{
    let width = 1 << log_arity;
    if values.len() % width != 0 {
        rt.panic("the values aren't whole rows");
    }
    let matrix = RowMajorMatrix::new(values, width);
    if matrix.height() != 1 << log_height {
        rt.panic("the values are another number of rows");
    }
    matrix
}

/// Whether the values fold to the word, as a matrix and row by row.
fn is_folded<EF: ExtensionField<BabyBear>, S: FriFoldingStrategy<BabyBear, EF>>(
    rt: &impl Abort,
    alloc: Global,
    folding: &S,
    fold: &Fold,
) -> bool
    requires { S.max_log_height folding.now ≡ 27 }
{
    let (log_height, log_arity) = (fold.log_height, fold.log_arity);
    if log_height > 20 || log_arity == 0 || log_arity > 4 {
        rt.panic("another height or arity");
    }
    let beta = match fold.beta {
        Some(number) => EF::from_u64(number),
        None => EF::GENERATOR,
    };
    let values = elements(rt, alloc, fold.values, 1 << (log_height + log_arity));
    let matrix = rows_of(rt, values, log_height, log_arity);
    let word = folding.fold_matrix(alloc, beta, log_arity, &matrix);
    let word = word.expect(rt, "memory");
    let wanted: Vec<EF> = elements(rt, alloc, fold.word, fold.word.len());
    let mut is_right = wanted.is_empty() | (word == wanted);
    let height = matrix.height();
    is_right &= word.len() == height;
    for index in 0..height {
        let fold = folding.fold_row(index, log_height, log_arity, beta, matrix.row(index));
        is_right &= word.get(index) == Some(&fold);
    }
    is_right
}

/// Asserts that all folds are right by a strategy over the whole two-adicity with so many extra
/// bits, and that a line that is 4 + X at the points 1 and -1 folds to its value at 7 at each
/// height.
fn assert_folds<EF: ExtensionField<BabyBear>, S: FriFoldingStrategy<BabyBear, EF>>(
    rt: &impl Abort,
    alloc: Global,
    folding: &S,
    extra_bits: usize,
) {
    let line: Vec<EF> = elements(rt, alloc, &[5, 3], 2);
    if folding.max_log_height() != 27 || line.len() != 2 {
        rt.panic("the whole two-adicity and a line");
    }
    if folding.extra_query_index_bits() != extra_bits {
        rt.panic("extra bits");
    }
    for log_height in 0..27 {
        if folding.fold_row(0, log_height, 1, EF::from_u64(7), &line) != EF::from_u64(11) {
            rt.panic("the first row of a height");
        }
    }
    for fold in &FOLDS {
        if !is_folded(rt, alloc, folding, fold) {
            rt.panic(fold.name);
        }
    }
}

#[test]
fn folds(rt: HostRuntime) {
    let extra = WithExtraBits::new(FOLDING, 3);
    assert_folds::<BabyBear, Folding>(&rt, rt.alloc(), &FOLDING, 0);
    assert_folds::<BabyBear, WithExtraBits<Folding>>(&rt, rt.alloc(), &extra, 3);
    assert_folds::<BabyBear4, Folding>(&rt, rt.alloc(), &FOLDING, 0);
}
