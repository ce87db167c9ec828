//! Tests of requests, answers and statements over JSON texts.
#![tactic(auto)]

#[cfg(test)]
mod expectations;
#[cfg(test)]
mod faults;
#[cfg(test)]
mod fields;
#[cfg(test)]
mod forgeries;
#[cfg(test)]
mod hiding;
#[cfg(test)]
mod openings;
#[cfg(test)]
mod refusals;
#[cfg(test)]
mod texts;
