//! Tests of the opening of the inputs.
#![tactic(auto)]

#[cfg(test)]
mod cases;
#[cfg(test)]
mod commitments;
#[cfg(test)]
mod no_index;
#[cfg(test)]
mod open_inputs;
