//! How a round's opening prints.

use p3_field::BabyBear;
use p3_fri_relation::proof::CommitPhaseMultiStep;
use p3_mmcs::Sha256Mmcs;

#[test]
fn an_opening_prints_its_parts(rt: HostRuntime) {
    let alloc = rt.alloc();
    let opening: CommitPhaseMultiStep<BabyBear, Sha256Mmcs<BabyBear>> = CommitPhaseMultiStep {
        sibling_values: vec![in alloc; Vec::new(alloc)].expect(&rt, "memory"),
        opening_proof: Vec::new(alloc),
    };
    let text = format!(in alloc; "{opening:?}").expect(&rt, "memory");
    let wanted = "CommitPhaseMultiStep { sibling_values: [[]], opening_proof: [] }";
    assert!(rt; text.as_str() == wanted);
}
