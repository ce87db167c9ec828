//! Tests of what a STARK prover asks of a scheme, at the scheme over two-adic fields.
#![tactic(auto)]

#[cfg(test)]
mod columns;
#[cfg(test)]
mod committed;
#[cfg(test)]
mod evaluations;
#[cfg(test)]
mod headline;
#[cfg(test)]
mod opened;
#[cfg(test)]
mod parts;
#[cfg(test)]
mod periodic;
#[cfg(test)]
mod scheme;
#[cfg(test)]
mod stark;
#[cfg(test)]
mod tested;
#[cfg(test)]
mod values;
