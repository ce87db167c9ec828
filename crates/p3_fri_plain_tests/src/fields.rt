//! Plain forms over the other fields: the greatest number of each, one above it, and elements of
//! the extension of the wrong length.

use crate::forms::form_of;
use p3_field_core::{ElementBytes, ExtensionField, PrimeField64};
use p3_fri_plain::{PlainProofError, from_plain, to_plain};
use p3_goldilocks::{Goldilocks, Goldilocks2};
use p3_koala_bear::{KoalaBear, KoalaBear4};
use std::alloc::Global;
use std::process::Abort;

/// The text of a form without any opening.
static TEXT: &str = "{\"batch_pow_witness\":0,\"commit_phase_commits\":[],\
\"commit_pow_witnesses\":[7],\"input_openings\":[],\"commit_phase_openings\":[],\
\"final_poly\":[[]],\"query_pow_witness\":0}";

/// Numbers of the witness and of the final polynomial's coefficient, and why the form is refused
/// over each field, if it is.
struct Case {
    witness: &'static str,
    coefficient: &'static str,
    koala_bear: Option<PlainProofError>,
    goldilocks: Option<PlainProofError>,
}

static CASES: [Case; 7] = [
    Case {
        witness: "1",
        coefficient: "1,2,3,4",
        koala_bear: None,
        goldilocks: Some(PlainProofError::ElementLength),
    },
    Case {
        witness: "2130706432",
        coefficient: "0,0,0,2130706432",
        koala_bear: None,
        goldilocks: Some(PlainProofError::ElementLength),
    },
    Case {
        witness: "2130706433",
        coefficient: "1,2",
        koala_bear: Some(PlainProofError::ElementOutOfRange),
        goldilocks: None,
    },
    Case {
        witness: "0",
        coefficient: "2130706433,0,0,0",
        koala_bear: Some(PlainProofError::ElementOutOfRange),
        goldilocks: Some(PlainProofError::ElementLength),
    },
    Case {
        witness: "18446744069414584320",
        coefficient: "18446744069414584320,0",
        koala_bear: Some(PlainProofError::ElementOutOfRange),
        goldilocks: None,
    },
    Case {
        witness: "18446744069414584321",
        coefficient: "0,0",
        koala_bear: Some(PlainProofError::ElementOutOfRange),
        goldilocks: Some(PlainProofError::ElementOutOfRange),
    },
    Case {
        witness: "0",
        coefficient: "0,18446744069414584321",
        koala_bear: Some(PlainProofError::ElementLength),
        goldilocks: Some(PlainProofError::ElementOutOfRange),
    },
];

/// The text with the case's numbers.
fn text_of(rt: &impl Abort, alloc: Global, case: &Case) -> String {
    let witness = format!(in alloc; "\"batch_pow_witness\":{}", case.witness).expect(rt, "memory");
    let coefficient = format!(in alloc; "[[{}]]", case.coefficient).expect(rt, "memory");
    let text = TEXT
        .replacen(alloc, "\"batch_pow_witness\":0", witness.as_str(), 1)
        .expect(rt, "memory");
    text.replacen(alloc, "[[]]", coefficient.as_str(), 1)
        .expect(rt, "memory")
}

/// Whether the form is refused so, or comes back where it isn't.
fn is_answered<F: PrimeField64 + ElementBytes, EF: ExtensionField<F> + ElementBytes>(
    rt: &impl Abort,
    alloc: Global,
    text: &str,
    refusal: Option<PlainProofError>,
) -> bool {
    match from_plain::<F, EF>(alloc, form_of(rt, alloc, text)) {
        Ok(proof) => {
            let form = to_plain::<F, EF>(alloc, &proof).expect(rt, "memory");
            let again = serde_json::to_string(alloc, &form).expect(rt, "no text");
            refusal.is_none() && again.as_str() == text
        },
        Err(error) => refusal == Some(error),
    }
}

#[test]
fn each_field_takes_its_own_numbers(rt: HostRuntime) {
    for case in &CASES {
        let text = text_of(&rt, rt.alloc(), case);
        let text = text.as_str();
        assert!(rt; is_answered::<KoalaBear, KoalaBear4>(&rt, rt.alloc(), text, case.koala_bear));
        assert!(rt; is_answered::<Goldilocks, Goldilocks2>(&rt, rt.alloc(), text, case.goldilocks));
    }
}
