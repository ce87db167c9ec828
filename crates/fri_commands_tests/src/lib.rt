//! Tests of the commands.
#![tactic(auto)]

#[cfg(test)]
mod runs;
