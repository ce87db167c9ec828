//! Tests of both schemes over bytes.
#![tactic(auto)]

#[cfg(test)]
mod answered;
#[cfg(test)]
mod fields;
#[cfg(test)]
mod forms;
#[cfg(test)]
mod hidden;
#[cfg(test)]
mod hiding;
#[cfg(test)]
mod kept;
#[cfg(test)]
mod malformed;
#[cfg(test)]
mod over_fields;
#[cfg(test)]
mod refused;
