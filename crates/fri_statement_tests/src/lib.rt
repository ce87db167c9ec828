//! Tests of statements and of challenges after contexts, over each field.
#![tactic(auto)]

#[cfg(test)]
mod fields;
