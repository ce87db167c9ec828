//! Tests of masks, and of those of a quotient's chunks.
#![tactic(auto)]

#[cfg(test)]
mod budget;
#[cfg(test)]
mod chunks;
#[cfg(test)]
mod draws;
#[cfg(test)]
mod extension;
#[cfg(test)]
mod ldes;
#[cfg(test)]
mod masks;
#[cfg(test)]
mod matrices;
#[cfg(test)]
mod quotient_masks;
