//! Tests of the challenger and of transcripts by description.
#![tactic(auto)]

#[cfg(test)]
mod fs;
#[cfg(test)]
mod other_fields;
#[cfg(test)]
mod sha256_challenger;
