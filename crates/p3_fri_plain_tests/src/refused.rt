//! Texts of plain forms that aren't any proof's, and how refusals print.

use crate::forms::form_of;
use crate::line::LINE;
use p3_field::{BabyBear, BabyBear4};
use p3_fri_plain::{PlainProofError, from_plain};
use std::alloc::Global;
use std::process::Abort;

/// What stands in the text of the line's proof, what is written there in its place, and why the
/// form is refused then.
struct Case {
    old: &'static str,
    new: &'static str,
    error: PlainProofError,
}

static CASES: [Case; 11] = [
    Case {
        old: "\"batch_pow_witness\":0",
        new: "\"batch_pow_witness\":2013265921",
        error: PlainProofError::ElementOutOfRange,
    },
    Case {
        old: "\"query_pow_witness\":0",
        new: "\"query_pow_witness\":18446744073709551615",
        error: PlainProofError::ElementOutOfRange,
    },
    Case {
        old: "\"commit_pow_witnesses\":[0]",
        new: "\"commit_pow_witnesses\":[0,2013265921]",
        error: PlainProofError::ElementOutOfRange,
    },
    Case {
        old: "[[2013265892]]",
        new: "[[2013265921]]",
        error: PlainProofError::ElementOutOfRange,
    },
    Case {
        old: "\"final_poly\":[[2013265920,0,0,0]]",
        new: "\"final_poly\":[[2013265920,0,0,2013265921]]",
        error: PlainProofError::ElementOutOfRange,
    },
    Case {
        old: "\"final_poly\":[[2013265920,0,0,0]]",
        new: "\"final_poly\":[[2013265920,0,0]]",
        error: PlainProofError::ElementLength,
    },
    Case {
        old: "\"final_poly\":[[2013265920,0,0,0]]",
        new: "\"final_poly\":[[2013265920,0,0,0,0]]",
        error: PlainProofError::ElementLength,
    },
    Case {
        old: "\"sibling_values\":[[[2013265920,0,0,0]]",
        new: "\"sibling_values\":[[[]]",
        error: PlainProofError::ElementLength,
    },
    Case {
        old: "\"commit_phase_commits\":[[",
        new: "\"commit_phase_commits\":[[0,",
        error: PlainProofError::DigestLength,
    },
    Case {
        old: "\"paths\":[[[137,",
        new: "\"paths\":[[[",
        error: PlainProofError::DigestLength,
    },
    Case {
        old: "\"paths\":[[[183,",
        new: "\"paths\":[[[],[183,",
        error: PlainProofError::DigestLength,
    },
];

/// Whether the text is refused so.
fn is_refused(rt: &impl Abort, alloc: Global, case: &Case) -> bool {
    let text = LINE
        .replacen(alloc, case.old, case.new, 1)
        .expect(rt, "memory");
    let answer = from_plain::<BabyBear, BabyBear4>(alloc, form_of(rt, alloc, text.as_str()));
    answer.err() == Some(case.error)
}

/// Each refusal, and the words for it.
static REFUSALS: [(PlainProofError, &str); 4] = [
    (
        PlainProofError::ElementOutOfRange,
        "a number is not below the field's order",
    ),
    (
        PlainProofError::ElementLength,
        "an element of the extension is not given by one number for each coefficient",
    ),
    (
        PlainProofError::DigestLength,
        "a digest does not have 32 bytes",
    ),
    (PlainProofError::OutOfMemory, "out of memory"),
];

#[test]
fn altered_texts_are_refused_and_refusals_printed(rt: HostRuntime) {
    for case in &CASES {
        assert!(rt; is_refused(&rt, rt.alloc(), case), "{}", case.new);
    }
    for (refusal, wanted) in &REFUSALS {
        let said = format!(in rt.alloc(); "{refusal}").expect(&rt, "memory");
        assert!(rt; said.as_str() == *wanted, "{wanted}");
    }
}
