//! Tests of `p3_fri`: that each of its public names is there.
#![tactic(auto)]

#[cfg(test)]
mod names;
