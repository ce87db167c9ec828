//! The law as a call.

use p3_fri_relation::laws::relation_example_law;

#[test]
fn the_example_is_a_law(_rt: HostRuntime) {
    relation_example_law();
}
