//! A quotient's values on a coset and their chunks, against values by coefficients.

use crate::numbers::{elements, extension, extensions, has_coefficients};
use crate::systems::{self, System, air_of};
use p3_air::Air;
use p3_field::{
    BabyBear, BabyBear4, ExtensionField, Field, PackableField, PrimeField64, TwoAdicField,
    TwoAdicMultiplicativeCoset,
};
use p3_matrix::RowMajorMatrix;
use p3_uni_stark_quotient::{CosetColumns, is_off_subgroups, quotient_chunks, quotient_values};
use std::alloc::Global;
use std::process::Abort;

/// Columns on a coset, row after row, and the quotient's values at all points.
#[derive(Clone, Copy)]
struct Values {
    system: System,
    log_size: usize,
    width: usize,
    trace: &'static [u64],
    preprocessed: &'static [u64],
    public_values: &'static [u64],
    alpha: [u64; 4],
    quotient: &'static [[u64; 4]],
}

/// Fibonacci numbers, eight rows, on a coset of sixteen points: two blocks of lanes, of which the
/// last has next rows at the coset's begin.
static FIBONACCI: Values = Values {
    system: systems::FIBONACCI,
    log_size: 3,
    width: 2,
    trace: &[
        1108103215, 1255266142, 1194686748, 21652724, 1232187421, 1410483304, 1320040706,
        1144684256, 735063605, 1171390141, 894178425, 773637107, 213936270, 339711048, 1550378048,
        1291628591, 1566336609, 1279683559, 1484155055, 1509832372, 288393757, 674837059,
        1714143018, 1132023843, 611487314, 310495073, 580799103, 1944162741, 284289626, 1611197445,
        1327948556, 235442137,
    ],
    preprocessed: &[],
    public_values: &[1, 1, 34],
    alpha: [3, 1, 4, 1],
    quotient: &[
        [422473080, 384451185, 1146844527, 259049764],
        [1449673804, 1443269701, 1353292613, 128060701],
        [860209688, 1747645438, 297830293, 2003025625],
        [816288310, 1051439321, 1788593093, 1678161407],
        [1552249994, 1813522003, 1878153576, 1096902401],
        [1764409894, 39957633, 308702050, 1425476809],
        [859636959, 292470373, 368991498, 1991904586],
        [179323015, 1825973214, 1499423876, 916568248],
        [1659835074, 755873789, 675088712, 252910034],
        [776425643, 1360158639, 393430814, 771020000],
        [720069026, 1717799030, 1207787609, 1142828067],
        [1685878290, 2012514226, 728363537, 925950582],
        [1448179240, 446967547, 1516930854, 1616625186],
        [115736586, 1844682333, 1588022412, 1976251873],
        [2006952785, 686030048, 256159931, 221996228],
        [728604383, 280030267, 1701224526, 763752271],
    ],
};

/// Cubes with a summand on selected rows, two rows, on a coset of four points, fewer than there are
/// lanes.
static TWO_CUBES: Values = Values {
    system: systems::CUBES,
    log_size: 1,
    width: 1,
    trace: &[2013265728, 21494972, 210, 1991770966],
    preprocessed: &[16, 617812979, 2013265906, 1395452943],
    public_values: &[2, 7],
    alpha: [5, 0, 2, 9],
    quotient: &[
        [239606, 0, 2013265908, 1006632902],
        [137782253, 0, 2013265908, 1006632902],
        [1006922337, 0, 2013265908, 1006632902],
        [1874956992, 0, 2013265908, 1006632902],
    ],
};

/// The same of four rows, on a coset of eight points, as many as there are lanes.
static CUBES: Values = Values {
    system: systems::CUBES,
    log_size: 2,
    width: 1,
    trace: &[
        1207934152, 887396509, 1758150605, 452737608, 1589877432, 1385609836, 1675145849,
        1492098164,
    ],
    preprocessed: &[
        481, 1032809045, 2013265441, 980456877, 481, 1032809045, 2013265441, 980456877,
    ],
    public_values: &[2, 7],
    alpha: [5, 0, 2, 9],
    quotient: &[
        [1273608227, 0, 1422706224, 362380245],
        [785827465, 0, 170798395, 1775225738],
        [774349521, 0, 1100053748, 923710024],
        [1331822822, 0, 867576388, 1890827825],
        [990699801, 0, 655607381, 1943600254],
        [919651464, 0, 860131059, 850690884],
        [267569363, 0, 465543955, 1088314837],
        [781020898, 0, 1745405466, 1814526834],
    ],
};

/// The matrix of these numbers.
fn matrix<F: Field>(
    rt: &impl Abort,
    alloc: Global,
    numbers: &[u64],
    width: usize,
) -> RowMajorMatrix<F> {
    let values = elements::<F>(rt, alloc, numbers);
    assert!(rt;
        width != 0 && values.len() % width == 0,
        "rows aren't whole"
    );
    RowMajorMatrix::new(values, width)
}

/// Whether the values are those.
fn are<F: PrimeField64, EF: ExtensionField<F>>(values: &[EF], expected: &[[u64; 4]]) -> bool {
    if values.len() != expected.len() {
        return false;
    }
    for i in 0..expected.len() {
        if !has_coefficients::<F, EF>(values[i], expected[i]) {
            return false;
        }
    }
    true
}

/// Whether the quotient's values of these columns, on a coset of twice as many points, are the
/// case's.
fn give_values<F: TwoAdicField + PackableField + PrimeField64, EF: ExtensionField<F>>(
    rt: &impl Abort,
    alloc: Global,
    air: &Air<F>,
    columns: &CosetColumns<'_, F>,
    case: &Values,
) -> bool {
    let log_size = case.log_size;
    assert!(rt;
        log_size < F::TWO_ADICITY && air.check().is_ok(),
        "there is no such system"
    );
    let coset = TwoAdicMultiplicativeCoset::new(F::GENERATOR, log_size + 1).expect(
        rt,
        "no such coset",
    );
    assert!(rt;
        is_off_subgroups(coset) && columns.fits(&air.layout, coset.size()),
        "the columns don't fit the coset"
    );
    let alpha = extension::<F, EF>(case.alpha);
    let values = quotient_values(alloc, air, columns, log_size, 1, coset, alpha).expect(
        rt, "memory",
    );
    are::<F, EF>(&values, case.quotient)
}

/// Whether the case's columns give its values.
fn is_met<F: TwoAdicField + PackableField + PrimeField64, EF: ExtensionField<F>>(
    rt: &impl Abort,
    alloc: Global,
    case: &Values,
) -> bool {
    let trace = matrix::<F>(rt, alloc, case.trace, case.width);
    let preprocessed = matrix::<F>(rt, alloc, case.preprocessed, 1);
    let public_values = elements::<F>(rt, alloc, case.public_values);
    let air = air_of::<F>(rt, alloc, &case.system);
    let columns = CosetColumns {
        trace: &trace,
        preprocessed: if preprocessed.height() == 0 {
            None
        } else {
            Some(&preprocessed)
        },
        periodic: None,
        public_values: &public_values,
    };
    give_values::<F, EF>(rt, alloc, &air, &columns, case)
}

#[test]
fn fibonacci_numbers(rt: HostRuntime) {
    assert!(rt; is_met::<BabyBear, BabyBear4>(&rt, rt.alloc(), &FIBONACCI));
}

#[test]
fn selected_cubes(rt: HostRuntime) {
    assert!(rt; is_met::<BabyBear, BabyBear4>(&rt, rt.alloc(), &TWO_CUBES));
    assert!(rt; is_met::<BabyBear, BabyBear4>(&rt, rt.alloc(), &CUBES));
}

/// Whether the second chunk of the cubes' values has this number at a place.
fn second_chunk_has<F: PrimeField64, EF: ExtensionField<F>>(
    rt: &impl Abort,
    alloc: Global,
    (row, column): (usize, usize),
    expected: u64,
) -> bool {
    let values = extensions::<F, EF>(rt, alloc, CUBES.quotient);
    assert!(rt; values.len() == 8, "not eight values");
    let chunks = quotient_chunks::<F, EF>(alloc, &values, 2, 1).expect(rt, "memory");
    let chunk = chunks.get(1).expect(rt, "one chunk");
    let entry = chunk.get(row, column).expect(rt, "no such entry");
    entry.as_canonical_u64() == expected
}

#[test]
fn a_chunk_has_every_second_value(rt: HostRuntime) {
    let place = (2, 3);
    assert!(rt; second_chunk_has::<BabyBear, BabyBear4>(&rt, rt.alloc(), place, 850690884));
}
