//! The headline's function, at these instances.

ghost use Rattle.std.specs.Prelude.{◌≡◌, [], ◌∷◌};

use crate::accepted::{LINE, SQUARE};
use crate::asked::{Question, ask};
use crate::committed::commit;
use crate::numbers::{Points, are_values, points_of};
use crate::scheme::{BY_EIGHT, PLAIN, Setting};
use crate::tested::Tested;
use p3_challenger::Sha256Challenger;
use p3_pcs::{OpeningRequest, open_and_verify};
use std::alloc::Global;
use std::process::Abort;

/// A list of one value.
fn listed<T>(rt: &impl Abort, alloc: Global, value: T) -> Vec<T>
    ensures { result.items ≡ value ∷ [] }
{
    let mut values = Vec::new(alloc);
    values.push(value).expect(rt, "memory");
    values
}

/// What is opened, and the values that it has.
pub(crate) struct Shown {
    pub name: &'static str,
    setting: Setting,
    columns: &'static [&'static [u64]],
    points: &'static [&'static [u64]],
    values: Points<'static>,
}

static CASES: [Shown; 2] = [
    Shown {
        name: "a line",
        setting: PLAIN,
        columns: &[&LINE],
        points: &[&[5]],
        values: &[&[&[2_013_265_918]]],
    },
    Shown {
        name: "a square and a line",
        setting: BY_EIGHT,
        columns: &[&SQUARE, &LINE],
        points: &[&[5], &[7, 5]],
        values: &[&[&[25], &[2_013_265_916, 2_013_265_918]]],
    },
];

/// Whether the columns under one commitment are opened and verified, with these values, and both
/// sides end in one state that isn't the first.
pub(crate) fn is_shown<P: Tested>(rt: &impl Abort, alloc: Global, case: &Shown) -> bool {
    assert!(rt;
        case.setting.log_final_poly_len <= 31 && case.setting.max_log_arity > 0,
        "not in the range of prover and verifier"
    );
    let mut scheme = P::of(case.setting);
    let committed = commit(rt, &mut scheme, alloc, case.columns);
    let (known, mut data) = committed;
    let all_known = listed(rt, alloc, known);
    let request = OpeningRequest {
        prover_data: &mut data,
        points: points_of(rt, alloc, case.points),
    };
    let mut requests = listed(rt, alloc, request);
    if !scheme.are_openable(&requests) {
        panic!(rt; "the requests can't be opened")
    }
    let mut challenger = Sha256Challenger::new();
    let answer = open_and_verify(
        &scheme,
        alloc,
        all_known.as_slice(),
        requests.as_mut_slice(),
        &mut challenger,
    );
    let verified = answer.expect(rt, "not accepted");
    are_values(rt, alloc, &verified.values, case.values)
        && verified.challenger == challenger
        && challenger != Sha256Challenger::new()
}

#[test]
fn what_is_opened_is_accepted(rt: HostRuntime) {
    ask(&rt, rt.alloc(), Question::Headline(&CASES));
}
