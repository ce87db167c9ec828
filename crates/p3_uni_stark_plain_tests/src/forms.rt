//! Texts of plain forms, read and written again.

use crate::given::{PROOF, SYSTEM, proof, system};
use p3_air_plain::{air_from_plain, air_to_plain};
use p3_field::BabyBear;
use p3_uni_stark_plain::stark_to_plain;
use std::alloc::Global;
use std::process::Abort;

/// The text of the form of the constraint system of this form.
fn system_again(rt: &impl Abort, alloc: Global) -> String {
    let system = system(rt, alloc);
    let air = air_from_plain::<BabyBear>(alloc, &system.form).expect(rt, "no system");
    let form = air_to_plain(alloc, &air).expect(rt, "memory");
    serde_json::to_string(alloc, &form).expect(rt, "memory")
}

/// The text of the form of the proof.
fn proof_again(rt: &impl Abort, alloc: Global) -> String {
    let form = stark_to_plain(alloc, &proof(rt, alloc)).expect(rt, "memory");
    serde_json::to_string(alloc, &form).expect(rt, "memory")
}

#[test]
fn forms_come_back(rt: HostRuntime) {
    assert!(rt; system_again(&rt, rt.alloc()).as_str() == SYSTEM);
    assert!(rt; proof_again(&rt, rt.alloc()).as_str() == PROOF);
}
