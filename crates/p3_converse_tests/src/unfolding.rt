//! Folds, batches and quotients of worked values, undone.

ghost use Rattle.std.specs.Prelude.{◌≡◌, ◌+◌, ◌^◌, ◌<◌, IsTrue};

use crate::lists::{elements, first_length, polynomials};
use p3_converse::{
    are_distinct, have_one_length, unbatch, unfold, unfold_with_input, unfolds_within_range,
    unquotient,
};
use p3_field::{BabyBear, BabyBear4, Field};
use std::alloc::Global;
use std::process::Abort;

/// What is undone.
#[derive(Clone, Copy)]
enum Call {
    /// A fold of this log arity, at as many challenges.
    Unfold(usize),
    /// The same with an input, at one challenge more.
    UnfoldWithInput(usize),
    Unbatch,
    /// A quotient on a coset of this shift, of which this value is claimed at the only challenge.
    Unquotient { shift: u64, claim: u64 },
}

/// Numbers of the challenges, of the polynomials, one for each, and of those that they come from:
/// none where what the call asks for isn't so.
#[derive(Clone, Copy)]
struct Case {
    name: &'static str,
    call: Call,
    challenges: &'static [u64],
    polys: &'static [&'static [u64]],
    undone: &'static [&'static [u64]],
}

static CASES: [Case; 9] = [
    Case {
        name: "a fold to two constants",
        call: Call::Unfold(1),
        challenges: &[0, 1],
        polys: &[&[4], &[11]],
        undone: &[&[4, 7]],
    },
    Case {
        name: "a fold to two lines",
        call: Call::Unfold(1),
        challenges: &[0, 1],
        polys: &[&[1, 2], &[4, 6]],
        undone: &[&[1, 3, 2, 4]],
    },
    Case {
        name: "a fold to four constants",
        call: Call::Unfold(2),
        challenges: &[0, 1, 2, 3],
        polys: &[&[1], &[4], &[15], &[40]],
        undone: &[&[1, 1, 1, 1]],
    },
    Case {
        name: "a fold to constants with its input",
        call: Call::UnfoldWithInput(1),
        challenges: &[0, 1, 2],
        polys: &[&[4], &[13], &[26]],
        undone: &[&[4, 7], &[2]],
    },
    Case {
        name: "batches of two lines",
        call: Call::Unbatch,
        challenges: &[1, 2],
        polys: &[&[5, 1], &[8, 1]],
        undone: &[&[2, 1], &[3, 0]],
    },
    Case {
        name: "a batch of one constant",
        call: Call::Unbatch,
        challenges: &[9],
        polys: &[&[4]],
        undone: &[&[4]],
    },
    Case {
        name: "the quotient of a square",
        call: Call::Unquotient {
            shift: 31,
            claim: 25,
        },
        challenges: &[5],
        polys: &[&[5, 31]],
        undone: &[&[0, 0, 1]],
    },
    Case {
        name: "the quotient of a line",
        call: Call::Unquotient {
            shift: 31,
            claim: 2_013_265_918,
        },
        challenges: &[5],
        polys: &[&[2_013_265_920]],
        undone: &[&[2, 2_013_265_920]],
    },
    Case {
        name: "a quotient on no coset",
        call: Call::Unquotient {
            shift: 0,
            claim: 2_013_265_918,
        },
        challenges: &[5],
        polys: &[&[2_013_265_920]],
        undone: &[],
    },
];

/// Whether these are `2^log_arity`, and so many more.
#[tactic(auto, using(std::proofs::lemmas::Nat::one_shl))]
fn is_count(count: usize, log_arity: usize, more: usize) -> bool
    ensures range { IsTrue result → log_arity < 63 }
    ensures count { IsTrue result → count ≡ 2 ^ log_arity + more }
{
    if log_arity > 62 || count < more {
        return false;
    }
    count - more == 1 << log_arity
}

/// What the case's polynomials come from.
fn undone<F: Field>(rt: &impl Abort, alloc: Global, case: &Case) -> Vec<Vec<F>> {
    let points = elements::<F>(rt, alloc, case.challenges);
    let polys = polynomials::<F>(rt, alloc, case.polys);
    let (count, length) = (points.len(), first_length(&polys));
    if count == 0 || polys.len() != count || !are_distinct(&points) || !have_one_length(&polys) {
        rt.panic(case.name);
    }
    match case.call {
        Call::Unfold(log_arity) => {
            if !is_count(count, log_arity, 0) || !unfolds_within_range(length, log_arity) {
                rt.panic(case.name);
            }
            let word = unfold(alloc, log_arity, &points, &polys).expect(rt, "memory");
            vec![in alloc; word].expect(rt, "memory")
        },
        Call::UnfoldWithInput(log_arity) => {
            if !is_count(count, log_arity, 1) || !unfolds_within_range(length, log_arity) {
                rt.panic(case.name);
            }
            let unfolded = unfold_with_input(alloc, log_arity, &points, &polys);
            let (word, input) = unfolded.expect(rt, "memory");
            vec![in alloc; word, input].expect(rt, "memory")
        },
        Call::Unbatch => unbatch(alloc, &points, &polys).expect(rt, "memory"),
        Call::Unquotient { shift, claim } => {
            let (shift, claim) = (F::from_u64(shift), F::from_u64(claim));
            let mut undone = Vec::new(alloc);
            if !shift.is_zero() && polys[0].len() < 100 {
                let poly = unquotient(alloc, shift, points[0], claim, &polys[0]);
                undone.push(poly.expect(rt, "memory")).expect(rt, "memory");
            }
            undone
        },
    }
}

/// Asserts of each case that it comes from what it says.
fn assert_undone<F: Field>(rt: &impl Abort, alloc: Global) {
    for case in &CASES {
        let wanted = polynomials::<F>(rt, alloc, case.undone);
        assert!(rt; undone::<F>(rt, alloc, case) == wanted, "{}", case.name);
    }
}

#[test]
fn folds_batches_and_quotients_are_undone(rt: HostRuntime) {
    assert_undone::<BabyBear>(&rt, rt.alloc());
    assert_undone::<BabyBear4>(&rt, rt.alloc());
}
