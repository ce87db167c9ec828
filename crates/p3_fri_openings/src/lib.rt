//! What a prover opens of committed words: whether it may, and the values of the committed
//! polynomials at the points.
#![tactic(auto)]

pub mod all_points;
pub mod asked_points;
pub mod checks;
pub mod denominators;
pub mod openable;
pub mod opened;
pub mod requests;
pub mod round;
pub mod values;

pub use crate::all_points::{Denominators, denominators_of_rounds};
pub use crate::checks::{
    check_points, check_round_heights, check_round_points, is_in_evaluation_domain,
};
pub use crate::denominators::{PointDenominators, denominators_of_point, inverses_at};
pub use crate::openable::are_openable;
pub use crate::opened::open_values;
pub use crate::requests::rounds_of_requests;
pub use crate::round::OpeningRound;
pub use crate::values::values_at_point;
