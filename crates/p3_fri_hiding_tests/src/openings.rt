//! Openings by any scheme that tests run by: of a private column, of preprocessing beside one, of a
//! quotient's chunks beside a trace and random polynomials, and of all of them.

pub(crate) mod cases;
pub(crate) mod changes;
pub(crate) mod headline;
mod opened;
mod preprocessed;
mod quotient;
pub(crate) mod requests;
pub(crate) mod shapes;
pub(crate) mod stark;
pub(crate) mod unsolved;
