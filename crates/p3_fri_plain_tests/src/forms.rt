//! Proofs by way of their plain forms and of JSON, and the pair of the scheme that hides.

use crate::line::{COMMITMENT, LINE, is_accepted, opened};
use p3_field::{BabyBear, BabyBear4};
use p3_fri_plain::laws::{form_round_trip, value_round_trip};
use p3_fri_plain::{
    PlainFriProof, PlainHidingProof, TwoAdicFriProof, from_plain, hiding_from_plain,
    hiding_to_plain, to_plain,
};
use std::alloc::Global;
use std::process::Abort;

/// Texts of forms that aren't of one run and are accepted: no entry in any list, the greatest
/// numbers, and lists whose entries are empty.
static ACCEPTED: [&str; 3] = [
    "{\"batch_pow_witness\":0,\"commit_phase_commits\":[],\"commit_pow_witnesses\":[],\
\"input_openings\":[],\"commit_phase_openings\":[],\"final_poly\":[],\"query_pow_witness\":1}",
    "{\"batch_pow_witness\":2013265920,\"commit_phase_commits\":[],\
\"commit_pow_witnesses\":[0,2013265920],\"input_openings\":[],\"commit_phase_openings\":[],\
\"final_poly\":[[2013265920,0,1,2013265920]],\"query_pow_witness\":2013265920}",
    "{\"batch_pow_witness\":0,\"commit_phase_commits\":[],\"commit_pow_witnesses\":[],\
\"input_openings\":[{\"opened_values\":[],\"paths\":[[]]},\
{\"opened_values\":[[],[[],[7]]],\"paths\":[]}],\
\"commit_phase_openings\":[{\"sibling_values\":[[],[[1,2,3,4]]],\"paths\":[]}],\
\"final_poly\":[],\"query_pow_witness\":0}",
];

/// Random values of two points of one matrix, beside a commitment without any.
static HIDING: &str = "{\"random_values\":[[[[[1,2,3,4],[5,6,7,8]],[]]],[]],\
\"proof\":{\"batch_pow_witness\":0,\"commit_phase_commits\":[],\"commit_pow_witnesses\":[9],\
\"input_openings\":[],\"commit_phase_openings\":[],\"final_poly\":[],\
\"query_pow_witness\":2013265920}}";

/// The plain form that the text gives.
pub(crate) fn form_of(rt: &impl Abort, alloc: Global, text: &str) -> PlainFriProof {
    serde_json::from_str(alloc, text).expect(rt, "no plain form")
}

/// The text of the plain form of a proof.
fn text_of(rt: &impl Abort, alloc: Global, proof: &TwoAdicFriProof) -> String {
    let form = to_plain(alloc, proof).expect(rt, "memory");
    serde_json::to_string(alloc, &form).expect(rt, "no text")
}

/// Whether an opening has the commitment and the text that the other program found.
fn has_its_text(rt: &impl Abort, alloc: Global) -> bool {
    let (commitment, proof) = opened(rt, alloc);
    commitment == COMMITMENT && text_of(rt, alloc, &proof).as_str() == LINE
}

/// Whether the form of the line comes back, and its proof, which is accepted before and after.
fn is_proof(rt: &impl Abort, alloc: Global) -> bool {
    let form = form_of(rt, alloc, LINE);
    let form_again = form_round_trip::<TwoAdicFriProof>(alloc, &form).expect(rt, "refused");
    assert!(rt; form_again == form, "another form");
    let proof = from_plain(alloc, form).expect(rt, "refused");
    let again = value_round_trip::<TwoAdicFriProof>(alloc, &proof).expect(rt, "refused");
    is_accepted(rt, alloc, &proof)
        && is_accepted(rt, alloc, &again)
        && text_of(rt, alloc, &again).as_str() == LINE
}

/// Whether the text is that of the form of the proof that it gives.
fn comes_back(rt: &impl Abort, alloc: Global, text: &str) -> bool {
    let proof = from_plain(alloc, form_of(rt, alloc, text)).expect(rt, "refused");
    text_of(rt, alloc, &proof).as_str() == text
}

/// The same of the scheme that hides.
fn hiding_comes_back(rt: &impl Abort, alloc: Global, text: &str) -> bool {
    let form = serde_json::from_str::<PlainHidingProof>(alloc, text).expect(rt, "no plain form");
    let proof = hiding_from_plain::<BabyBear, BabyBear4>(alloc, form).expect(rt, "refused");
    let form_again = hiding_to_plain(alloc, &proof).expect(rt, "memory");
    let again = serde_json::to_string(alloc, &form_again).expect(rt, "no text");
    again.as_str() == text
}

#[test]
fn accepted_forms_come_back(rt: HostRuntime) {
    for text in &ACCEPTED {
        assert!(rt; comes_back(&rt, rt.alloc(), *text), "{text}");
    }
    assert!(rt; hiding_comes_back(&rt, rt.alloc(), HIDING));
}

#[test]
fn an_opening_and_its_text_are_one_proof(rt: HostRuntime) {
    assert!(rt; has_its_text(&rt, rt.alloc()));
    assert!(rt; is_proof(&rt, rt.alloc()));
}
