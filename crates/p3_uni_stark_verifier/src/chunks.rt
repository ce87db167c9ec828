//! How many chunks a quotient has.

ghost use Rattle.std.specs.Prelude.{◌≡◌, ◌+◌, ◌<◌, ◌^◌, ◌↔◌, length, All, IsTrue};
ghost use Rattle.p3_uni_stark_verifier.specs.Chunks.{excess, IsBelow, IsLogChunks};
ghost use Rattle.p3_uni_stark_verifier.specs.Chunks.{hiding_bits};

use p3_air::{Constraint, Rows};

/// One more where the scheme hides, which doubles each number of rows.
pub fn with_hiding(log: usize, zk: bool) -> usize
    requires { log < 2 ^ 63 }
    ensures { result ≡ log + hiding_bits zk }
{
    if zk { log + 1 } else { log }
}

/// How far a constraint's degree, with its selector and with the randomness of a scheme that hides,
/// is above two, and zero where it isn't.
fn excess(constraint: Constraint, degree: usize, zk: bool) -> usize
    ensures { result ≡ excess zk degree constraint }
{
    let allowed = match constraint.rows {
        Rows::First | Rows::Last => 1,
        Rows::All | Rows::Transition => 2,
    };
    if zk {
        degree.saturating_sub(allowed - 1)
    } else {
        degree.saturating_sub(allowed)
    }
}

/// Whether the excess of each constraint is below the bound.
fn all_below(constraints: &[Constraint], degrees: &[usize], zk: bool, bound: usize) -> bool
    requires nodes { All (λ c. c.node < length degrees.now) constraints.now }
    ensures { IsTrue result ↔ All (IsBelow zk degrees.now bound) constraints.now }
{
    for i in 0..constraints.len() {
        let constraint = constraints[i];
        if excess(constraint, degrees[constraint.node], zk) >= bound {
            return false;
        }
    }
    true
}

/// The logarithm of the number of chunks, before those that a scheme that hides adds: the least
/// such that the excess of each constraint is below the number.
pub(crate) fn log_num_chunks(constraints: &[Constraint], degrees: &[usize], zk: bool) -> usize
    requires nodes { All (λ c. c.node < length degrees.now) constraints.now }
    requires small { All (λ d. d < 2 ^ 63) degrees.now }
    ensures least { IsLogChunks zk degrees.now constraints.now result }
    ensures bound { result < 64 }
{
    for log in 0..63usize {
        if all_below(constraints, degrees, zk, 1 << log) {
            return log;
        }
    }
    63
}
