//! What a proof of a STARK speaks of.

use p3_air::Air;

/// What a proof of a STARK speaks of: the constraint system, the values that both sides know by
/// themselves, and the trace's height.
#[derive(Clone, Copy, Debug)]
pub struct StarkInstance<'a, F> {
    pub air: &'a Air<F>,
    pub public_values: &'a [F],
    /// The periodic columns, each of its own length.
    pub periodic: &'a [Vec<F>],
    /// The base-2 logarithm of the number of the trace's rows.
    pub log_height: usize,
}
