use crate::pcs_transcript::shapes::shape_of as opening_of;
use crate::run::shape_of as test_of;
use p3_challenger::Sha256Challenger;
use p3_field::{BabyBear, BabyBear4, Field};
use p3_fri_core::laws::{
    binary_folds_law, fri_replay_law, fri_seed_examples_law, fri_seed_law, no_bits_law,
    pcs_replay_law, pcs_seed_examples_law, pcs_seed_law, pcs_shown_law,
};

#[test]
fn laws_are_called_at_an_extension(rt: HostRuntime) {
    let test = test_of(&rt, rt.alloc(), &[3, 3, 2], 1, 16);
    let opening = opening_of(&rt, rt.alloc(), &[&[&[3, 1]]]);
    fri_seed_law::<BabyBear, BabyBear4>(&test, &test);
    pcs_seed_law::<BabyBear, BabyBear4>(&opening, &opening);
    let row = [
        BabyBear4::ONE,
        BabyBear4::ONE,
        BabyBear4::ZERO,
        BabyBear4::ZERO,
    ];
    binary_folds_law::<BabyBear, BabyBear4>(0, 0, 2, BabyBear4::GENERATOR, &row);
    fri_seed_examples_law();
    pcs_seed_examples_law();
    no_bits_law::<Sha256Challenger, BabyBear>();
    fri_replay_law::<Sha256Challenger, BabyBear, BabyBear4, [u8; 32]>();
    pcs_replay_law::<Sha256Challenger, BabyBear, BabyBear4, [u8; 32]>();
    pcs_shown_law::<Sha256Challenger, BabyBear, BabyBear4, [u8; 32]>();
}
