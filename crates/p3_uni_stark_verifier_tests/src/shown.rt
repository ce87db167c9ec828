//! What is shown of traces that satisfy their constraints, in numbers. The challenges and the
//! values at them were computed by a program apart, by coefficients of polynomials.

use p3_air::{AirLayout, Constraint, Node, Rows};
use p3_uni_stark_verifier::PreprocessedVerifierKey;

/// A statement and a proof in numbers, whether they are of a scheme that hides, and how many claims
/// its opening is believed of.
#[derive(Clone, Copy)]
pub(crate) struct Shown {
    pub(crate) hides: bool,
    pub(crate) layout: AirLayout,
    pub(crate) nodes: &'static [Node<u64>],
    /// How many nodes follow where there is one, each the square of the one before.
    pub(crate) squares: usize,
    pub(crate) constraints: &'static [Constraint],
    pub(crate) public_values: &'static [u64],
    pub(crate) periodic: &'static [&'static [u64]],
    pub(crate) preprocessed: Option<PreprocessedVerifierKey<[u8; 32]>>,
    pub(crate) log_height: usize,
    pub(crate) trace: [u8; 32],
    pub(crate) quotient: [u8; 32],
    pub(crate) random: Option<[u8; 32]>,
    pub(crate) trace_local: &'static [[u64; 4]],
    pub(crate) trace_next: &'static [[u64; 4]],
    pub(crate) preprocessed_local: &'static [[u64; 4]],
    pub(crate) preprocessed_next: &'static [[u64; 4]],
    pub(crate) quotient_chunks: &'static [&'static [[u64; 4]]],
    pub(crate) random_values: &'static [[u64; 4]],
    pub(crate) claims: usize,
}

/// The sizes of a system of Fibonacci numbers: the first row is the first two public values, each
/// next row has the second entry and the sum of both, and the last entry is the third public value.
const FIBONACCI_LAYOUT: AirLayout = AirLayout {
    width: 2,
    preprocessed_width: 0,
    num_public_values: 3,
    num_periodic_columns: 0,
};

/// Its nodes.
const FIBONACCI_NODES: [Node<u64>; 13] = [
    Node::Local(0),
    Node::Local(1),
    Node::Public(0),
    Node::Public(1),
    Node::Sub(0, 2),
    Node::Sub(1, 3),
    Node::Next(0),
    Node::Next(1),
    Node::Add(0, 1),
    Node::Sub(6, 1),
    Node::Sub(7, 8),
    Node::Public(2),
    Node::Sub(1, 11),
];

/// Its constraints.
const FIBONACCI_CONSTRAINTS: [Constraint; 5] = [
    Constraint {
        rows: Rows::First,
        node: 4,
    },
    Constraint {
        rows: Rows::First,
        node: 5,
    },
    Constraint {
        rows: Rows::Transition,
        node: 9,
    },
    Constraint {
        rows: Rows::Transition,
        node: 10,
    },
    Constraint {
        rows: Rows::Last,
        node: 12,
    },
];

/// The sizes of a system of cubes: the first entry is the first public value, and each next one is
/// the cube of this one, a periodic column's entry and, where the preprocessed column is one, the
/// second public value.
const CUBES_LAYOUT: AirLayout = AirLayout {
    width: 1,
    preprocessed_width: 1,
    num_public_values: 2,
    num_periodic_columns: 1,
};

/// Its nodes.
const CUBES_NODES: [Node<u64>; 13] = [
    Node::Local(0),
    Node::Public(0),
    Node::Sub(0, 1),
    Node::Next(0),
    Node::Mul(0, 0),
    Node::Mul(4, 0),
    Node::Preprocessed(0),
    Node::Public(1),
    Node::Mul(6, 7),
    Node::Add(5, 8),
    Node::Periodic(0),
    Node::Add(9, 10),
    Node::Sub(3, 11),
];

/// Its constraints.
const CUBES_CONSTRAINTS: [Constraint; 2] = [
    Constraint {
        rows: Rows::First,
        node: 2,
    },
    Constraint {
        rows: Rows::Transition,
        node: 12,
    },
];

/// Fibonacci numbers, eight rows.
pub(crate) const FIBONACCI: Shown = Shown {
    hides: false,
    layout: FIBONACCI_LAYOUT,
    nodes: &FIBONACCI_NODES,
    squares: 0,
    constraints: &FIBONACCI_CONSTRAINTS,
    public_values: &[1, 1, 34],
    periodic: &[],
    preprocessed: None,
    log_height: 3,
    trace: [1; 32],
    quotient: [2; 32],
    random: None,
    trace_local: &[
        [955487452, 1171602190, 111321698, 1721585015],
        [1633152973, 869860582, 172839893, 1343825852],
    ],
    trace_next: &[
        [491023440, 1413171055, 539772327, 151182821],
        [1817846237, 551202003, 884596483, 564740656],
    ],
    preprocessed_local: &[],
    preprocessed_next: &[],
    quotient_chunks: &[&[
        [1184399536, 279229703, 1732406767, 1123399754],
        [1049688222, 13709311, 1315745318, 112865729],
        [702787892, 1606962209, 927518707, 297319935],
        [838511153, 500437163, 196511936, 1360304547],
    ]],
    random_values: &[],
    claims: 2,
};

/// The values of the first chunk of the cubes' quotient.
pub(crate) const FIRST_CHUNK: &[[u64; 4]] = &[
    [1960851861, 833953499, 430976579, 1408031934],
    [527301029, 1213501275, 911378975, 1893726070],
    [1262714499, 379497818, 1933636718, 295135163],
    [1082273227, 984502204, 1908294098, 1443228750],
];

/// Cubes with a summand on selected rows and a periodic one, four rows.
pub(crate) const CUBES: Shown = Shown {
    hides: false,
    layout: CUBES_LAYOUT,
    nodes: &CUBES_NODES,
    squares: 0,
    constraints: &CUBES_CONSTRAINTS,
    public_values: &[2, 7],
    periodic: &[&[3, 5]],
    preprocessed: Some(PreprocessedVerifierKey {
        commitment: [3; 32],
        log_height: 2,
    }),
    log_height: 2,
    trace: [1; 32],
    quotient: [2; 32],
    random: None,
    trace_local: &[[353792325, 275726383, 241861741, 448934525]],
    trace_next: &[[971815039, 1859108408, 1573388059, 1731005624]],
    preprocessed_local: &[[1542266689, 1519219512, 730118562, 1077415223]],
    preprocessed_next: &[[470999233, 494046409, 1283147359, 935850698]],
    quotient_chunks: &[
        FIRST_CHUNK,
        &[
            [1441166047, 1469872129, 1185876633, 709168897],
            [527301029, 1213501275, 911378975, 1893726070],
            [1262714499, 379497818, 1933636718, 295135163],
            [1082273227, 984502204, 1908294098, 1443228750],
        ],
    ],
    random_values: &[],
    claims: 3,
};

/// The same by a scheme that hides: the degrees ask for twice as many chunks, and there are
/// twice as many again.
pub(crate) const HIDDEN_CUBES: Shown = Shown {
    hides: true,
    layout: CUBES_LAYOUT,
    nodes: &CUBES_NODES,
    squares: 0,
    constraints: &CUBES_CONSTRAINTS,
    public_values: &[2, 7],
    periodic: &[&[3, 5]],
    preprocessed: Some(PreprocessedVerifierKey {
        commitment: [3; 32],
        log_height: 2,
    }),
    log_height: 2,
    trace: [1; 32],
    quotient: [2; 32],
    random: Some([4; 32]),
    trace_local: &[[1890486356, 86091778, 1652605093, 1694037842]],
    trace_next: &[[1887861316, 810413535, 388667851, 262677609]],
    preprocessed_local: &[[717116472, 1033431658, 322263444, 1714760604]],
    preprocessed_next: &[[1296149450, 979834263, 1691002477, 298505317]],
    quotient_chunks: &[
        &[
            [1253191480, 302838745, 1118209630, 2001228739],
            [1881686169, 705511335, 712562109, 1583511530],
            [656574750, 1861807295, 81615885, 1557467832],
            [632690757, 1674156527, 1740908451, 1633917036],
        ],
        &[
            [395394745, 1248340588, 67184596, 1906901135],
            [1881686169, 705511335, 712562109, 1583511530],
            [656574750, 1861807295, 81615885, 1557467832],
            [632690757, 1674156527, 1740908451, 1633917036],
        ],
        &[
            [337868426, 1726722977, 146567034, 1179110817],
            [1881686169, 705511335, 712562109, 1583511530],
            [656574750, 1861807295, 81615885, 1557467832],
            [632690757, 1674156527, 1740908451, 1633917036],
        ],
        &[
            [786482966, 1338486921, 1720179871, 61280229],
            [1881686169, 705511335, 712562109, 1583511530],
            [656574750, 1861807295, 81615885, 1557467832],
            [632690757, 1674156527, 1740908451, 1633917036],
        ],
        &[
            [718252593, 1788458742, 1419369562, 711581086],
            [1881686169, 705511335, 712562109, 1583511530],
            [656574750, 1861807295, 81615885, 1557467832],
            [632690757, 1674156527, 1740908451, 1633917036],
        ],
        &[
            [1576049328, 842956899, 457128675, 805908690],
            [1881686169, 705511335, 712562109, 1583511530],
            [656574750, 1861807295, 81615885, 1557467832],
            [632690757, 1674156527, 1740908451, 1633917036],
        ],
        &[
            [1633575647, 364574510, 377746237, 1533699008],
            [1881686169, 705511335, 712562109, 1583511530],
            [656574750, 1861807295, 81615885, 1557467832],
            [632690757, 1674156527, 1740908451, 1633917036],
        ],
        &[
            [1184961107, 752810566, 817399321, 638263675],
            [1881686169, 705511335, 712562109, 1583511530],
            [656574750, 1861807295, 81615885, 1557467832],
            [632690757, 1674156527, 1740908451, 1633917036],
        ],
    ],
    random_values: &[[5, 6, 7, 8]; 4],
    claims: 4,
};
