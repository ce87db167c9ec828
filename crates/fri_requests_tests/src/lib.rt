//! Tests of requests over each field.
#![tactic(auto)]

#[cfg(test)]
mod fields;
