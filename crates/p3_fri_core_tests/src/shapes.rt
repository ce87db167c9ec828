//! Streams of shapes, one of them byte for byte by the format, and the shapes of parameters.

use crate::run::shape_of;
use p3_field::{BabyBear, BabyBear4};
use p3_fri_core::FriParameters;
use p3_fri_core::transcript::FriShape;
use std::alloc::Global;
use std::process::Abort;

/// The stream of a shape.
fn stream_of(rt: &impl Abort, alloc: Global, shape: &FriShape) -> Vec<u8> {
    let separator = shape.domain_separator::<BabyBear, BabyBear4>(alloc);
    separator
        .expect(rt, "memory")
        .seed_stream(alloc)
        .expect(rt, "memory")
}

/// Bits that no round asks for.
static WITHOUT_ROUNDS: [(&str, usize); 2] = [
    ("a stream without rounds", 0),
    ("a stream without rounds, five bits", 5),
];

static STREAM_WITHOUT_ROUNDS: [u8; 142] = [
    0x01, 0x00, 0x00, 0x00, 0x00, 0x00, 0x00, 0x00, 0x06, 0x70, 0x33, 0x2d, 0x66, 0x72, 0x69, 0x00,
    0x00, 0x00, 0x00, 0x00, 0x00, 0x00, 0x02, 0x00, 0x00, 0x01, 0x00, 0x00, 0x00, 0x00, 0x00, 0x00,
    0x00, 0x04, 0x00, 0x00, 0x00, 0x00, 0x00, 0x00, 0x00, 0x0a, 0x66, 0x69, 0x6e, 0x61, 0x6c, 0x5f,
    0x70, 0x6f, 0x6c, 0x79, 0x01, 0x00, 0x00, 0x00, 0x00, 0x00, 0x00, 0x00, 0x01, 0x00, 0x01, 0x02,
    0x00, 0x00, 0x00, 0x00, 0x00, 0x00, 0x00, 0x01, 0x00, 0x00, 0x00, 0x00, 0x00, 0x00, 0x00, 0x0d,
    0x71, 0x75, 0x65, 0x72, 0x79, 0x5f, 0x69, 0x6e, 0x64, 0x69, 0x63, 0x65, 0x73, 0x01, 0x00, 0x00,
    0x00, 0x00, 0x00, 0x00, 0x00, 0x02, 0x00, 0x00, 0x00, 0x00, 0x00, 0x00, 0x00, 0x02, 0x00, 0x00,
    0x00, 0x00, 0x00, 0x00, 0x00, 0x08, 0x00, 0x00, 0x00, 0x00, 0x00, 0x00, 0x00, 0x01, 0x00, 0x00,
    0x00, 0x00, 0x00, 0x00, 0x00, 0x08, 0x00, 0x00, 0x00, 0x00, 0x00, 0x00, 0x00, 0x01,
];

#[test]
fn shapes(rt: HostRuntime) {
    let alloc = rt.alloc();
    for (name, commit_pow_bits) in &WITHOUT_ROUNDS {
        let mut shape = shape_of(&rt, alloc, &[], *commit_pow_bits, 0);
        shape.num_queries = 2;
        shape.index_bits = 1;
        shape.max_log_arity = 1;
        let stream = stream_of(&rt, alloc, &shape);
        if stream.as_slice() != STREAM_WITHOUT_ROUNDS.as_slice() {
            rt.panic(*name);
        }
    }
    let falling = stream_of(&rt, alloc, &shape_of(&rt, alloc, &[3, 3, 2], 0, 0));
    let rising = stream_of(&rt, alloc, &shape_of(&rt, alloc, &[2, 3, 3], 0, 0));
    assert!(rt; falling != rising);
    // parameters have a shape of three rounds and twelve steps: its clone and the scheduled one
    let mut parameters = FriParameters::new_testing((), 0);
    parameters.max_log_arity = 3;
    let shape = FriShape::new(alloc, &parameters, &[10], 12).expect(&rt, "memory");
    let copy = shape.clone(alloc).expect(&rt, "memory");
    let pattern = shape
        .pattern::<BabyBear, BabyBear4>(alloc)
        .expect(&rt, "memory");
    let rounds = Vec::from_slice(alloc, &[3, 3, 2]).expect(&rt, "memory");
    let has_rounds = shape.log_arities == rounds;
    let scheduled = FriShape::with_schedule(&parameters, rounds, 12);
    let has_steps = pattern.steps().len() == 12;
    assert!(rt; has_rounds & has_steps & (copy == shape) & (scheduled == shape));
}
