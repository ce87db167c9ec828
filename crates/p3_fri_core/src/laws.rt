//! Laws as calls that give nothing and whose contracts are theorems over the definitions.

pub use p3_fri_folding::laws::binary_folds_law;
pub use p3_fri_pcs_transcript::laws::{
    pcs_replay_law, pcs_seed_examples_law, pcs_seed_law, pcs_shown_law,
};
pub use p3_fri_pow::laws::no_bits_law;
pub use p3_fri_relation::laws::relation_example_law;
pub use p3_fri_transcript::laws::{fri_replay_law, fri_seed_examples_law, fri_seed_law};
