//! Extra bits of the queries' indices, in the transcript's stream.

use crate::answers::plain_parameters;
use p3_field::{BabyBear, BabyBear4};
use p3_fri_transcript::transcript::FriShape;
use std::alloc::Global;
use std::process::Abort;

/// The stream of a test without rounds whose indices have this many bits.
fn stream_of(rt: &impl Abort, alloc: Global, index_bits: usize) -> Vec<u8> {
    let shape = FriShape::with_schedule(&plain_parameters(), Vec::new(alloc), index_bits);
    shape
        .domain_separator::<BabyBear, BabyBear4>(alloc)
        .expect(rt, "memory")
        .seed_stream(alloc)
        .expect(rt, "memory")
}

/// How many bytes differ, and the last that do.
fn differences(one: &[u8], other: &[u8]) -> (usize, u8, u8) {
    let mut found = (0_usize, 0, 0);
    for (left, right) in one.iter().zip(other) {
        if left != right {
            found = (found.0.saturating_add(1), *left, *right);
        }
    }
    found
}

#[test]
fn the_width_of_indices_is_in_the_stream(rt: HostRuntime) {
    let plain = stream_of(&rt, rt.alloc(), 1);
    let wider = stream_of(&rt, rt.alloc(), 1 + 3);
    assert!(rt;
        plain.len() == 142 && wider.len() == 142 && differences(&plain, &wider) == (1, 1, 4)
    );
}
