//! Opened values that agree with a quotient's, and such that don't.

use crate::numbers::{elements, extension, extension_lists};
use crate::systems::{self, System, air_of};
use p3_air::{Air, Window};
use p3_field::{BabyBear, BabyBear4, ExtensionField, TwoAdicField};
use p3_uni_stark_identity::{
    Challenges, has_widths, have_dimension, identity_holds, is_on_domain, quotient_chunk_domains,
};
use std::alloc::Global;
use std::process::Abort;

/// What is opened of a trace and of the two chunks of its quotient, in numbers.
#[derive(Clone, Copy)]
struct Opened {
    system: System,
    log_size: usize,
    local: &'static [[u64; 4]],
    next: &'static [[u64; 4]],
    preprocessed: &'static [[u64; 4]],
    preprocessed_next: &'static [[u64; 4]],
    public_values: &'static [u64],
    first_chunk: &'static [[u64; 4]],
    second_chunk: &'static [[u64; 4]],
    alpha: [u64; 4],
    zeta: [u64; 4],
}

/// Fibonacci numbers, eight rows.
static FIBONACCI: Opened = Opened {
    system: systems::FIBONACCI,
    log_size: 3,
    local: &[
        [134383810, 1520717984, 551769911, 897653042],
        [168409222, 711638690, 1976254503, 1808265423],
    ],
    next: &[
        [989249788, 1284415500, 270570415, 1997298954],
        [364817463, 973337722, 1384122569, 86859267],
    ],
    preprocessed: &[],
    preprocessed_next: &[],
    public_values: &[1, 1, 34],
    first_chunk: &[
        [1477315618, 573643695, 1392890446, 40448821],
        [199630531, 1670526299, 824410098, 1624944752],
        [981467839, 129312766, 526817747, 1046262462],
        [1029019376, 325083531, 1997118993, 1335545707],
    ],
    second_chunk: &[
        [1477315618, 573643695, 1392890446, 40448821],
        [199630531, 1670526299, 824410098, 1624944752],
        [981467839, 129312766, 526817747, 1046262462],
        [1029019376, 325083531, 1997118993, 1335545707],
    ],
    alpha: [3, 1, 4, 1],
    zeta: [2, 7, 1, 8],
};

/// The entry of the cubes' row.
const ROW: &[[u64; 4]] = &[[987311411, 93171050, 1164359043, 1851355901]];

/// The preprocessed entry of the next row.
const NEXT_PREPROCESSED: &[[u64; 4]] = &[[1006632558, 2013265651, 2013265823, 2013265895]];

const FIRST_CHUNK: &[[u64; 4]] = &[
    [782117781, 999183537, 138330589, 1836246419],
    [0, 0, 0, 0],
    [1287550332, 512819521, 554591935, 1855154830],
    [1767444652, 1301054884, 1489030747, 295133051],
];

const SECOND_CHUNK: &[[u64; 4]] = &[
    [1567672865, 1862531333, 845625698, 1979336133],
    [0, 0, 0, 0],
    [1287550332, 512819521, 554591935, 1855154830],
    [1767444652, 1301054884, 1489030747, 295133051],
];

const ZETA: [u64; 4] = [6, 1, 8, 3];

/// Cubes with a summand on selected rows, four rows.
static CUBES: Opened = Opened {
    system: systems::CUBES,
    log_size: 2,
    local: ROW,
    next: &[[724791248, 169896288, 1916671453, 1740048030]],
    preprocessed: &[[1006633364, 270, 98, 26]],
    preprocessed_next: NEXT_PREPROCESSED,
    public_values: &[2, 7],
    first_chunk: FIRST_CHUNK,
    second_chunk: SECOND_CHUNK,
    alpha: [5, 0, 2, 9],
    zeta: ZETA,
};

/// Whether the window and the chunks agree, of a subgroup of so many points and a point off it.
fn holds<F: TwoAdicField, EF: ExtensionField<F>>(
    rt: &impl Abort,
    alloc: Global,
    air: &Air<F>,
    log_size: usize,
    window: &Window<'_, F, EF>,
    chunks: &[Vec<EF>],
    challenges: Challenges<EF>,
) -> bool {
    assert!(rt;
        log_size < F::TWO_ADICITY && !is_on_domain(log_size, challenges.zeta),
        "no such point"
    );
    assert!(rt;
        air.check().is_ok() && has_widths(&air.layout, window),
        "the rows don't fit the system"
    );
    let domains = quotient_chunk_domains::<F>(alloc, log_size, 1).expect(rt, "memory");
    assert!(rt;
        !chunks.is_empty() && chunks.len() == domains.len() && have_dimension::<F, EF>(chunks),
        "the chunks don't fit their domains"
    );
    identity_holds(alloc, air, log_size, window, &domains, chunks, challenges).expect(rt, "memory")
}

/// Whether what is opened of the trace and of the quotient agrees.
fn agrees<F: TwoAdicField, EF: ExtensionField<F>>(
    rt: &impl Abort,
    alloc: Global,
    opened: &Opened,
) -> bool {
    let lists = [
        opened.local,
        opened.next,
        opened.preprocessed,
        opened.preprocessed_next,
        opened.first_chunk,
        opened.second_chunk,
    ];
    let lists = extension_lists::<F, EF>(rt, alloc, &lists);
    let public_values = elements::<F>(rt, alloc, opened.public_values);
    let air = air_of::<F>(rt, alloc, &opened.system);
    let [local, next, preprocessed, preprocessed_next, chunks @ ..] = lists.as_slice() else {
        panic!(rt; "there are six lists");
    };
    let window = Window {
        local,
        next,
        preprocessed,
        preprocessed_next,
        public_values: &public_values,
        periodic: &[],
    };
    let challenges = Challenges {
        alpha: extension::<F, EF>(opened.alpha),
        zeta: extension::<F, EF>(opened.zeta),
    };
    holds(
        rt,
        alloc,
        &air,
        opened.log_size,
        &window,
        chunks,
        challenges,
    )
}

#[test]
fn fibonacci_agrees(rt: HostRuntime) {
    assert!(rt; agrees::<BabyBear, BabyBear4>(&rt, rt.alloc(), &FIBONACCI));
}

#[test]
fn cubes_agree(rt: HostRuntime) {
    assert!(rt; agrees::<BabyBear, BabyBear4>(&rt, rt.alloc(), &CUBES));
}

/// What is changed of the cubes' openings.
#[derive(Clone, Copy)]
enum Change {
    NextIsTheRow,
    OtherSummand,
    OtherFirstEntry,
    ChunksExchanged,
    OneChunkTwice,
    OtherChallenge,
    NextPreprocessedRow,
}

/// Makes the change.
fn change_opened(opened: &mut Opened, change: Change) {
    match change {
        Change::NextIsTheRow => opened.next = opened.local,
        Change::OtherSummand => opened.public_values = &[2, 8],
        Change::OtherFirstEntry => opened.public_values = &[3, 7],
        Change::ChunksExchanged => {
            let first_chunk = opened.first_chunk;
            opened.first_chunk = opened.second_chunk;
            opened.second_chunk = first_chunk;
        },
        Change::OneChunkTwice => opened.second_chunk = opened.first_chunk,
        Change::OtherChallenge => {
            let zeta = opened.zeta;
            opened.alpha = zeta;
        },
        Change::NextPreprocessedRow => opened.preprocessed = opened.preprocessed_next,
    }
}

static CHANGES: [(&str, Change); 7] = [
    ("next is the row", Change::NextIsTheRow),
    ("another summand", Change::OtherSummand),
    ("another first entry", Change::OtherFirstEntry),
    ("chunks exchanged", Change::ChunksExchanged),
    ("one chunk twice", Change::OneChunkTwice),
    ("another challenge", Change::OtherChallenge),
    ("the next preprocessed row", Change::NextPreprocessedRow),
];

#[test]
fn changes_are_noticed(rt: HostRuntime) {
    for (name, change) in &CHANGES {
        let mut changed = CUBES;
        change_opened(&mut changed, *change);
        assert!(rt;
            !agrees::<BabyBear, BabyBear4>(&rt, rt.alloc(), &changed),
            "{name}"
        );
    }
}
