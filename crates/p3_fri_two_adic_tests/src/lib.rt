//! Tests of the scheme over two-adic fields, at BabyBear, its quartic extension and SHA-256.
#![tactic(auto)]

#[cfg(test)]
mod accepted;
#[cfg(test)]
mod altered;
#[cfg(test)]
mod asked;
#[cfg(test)]
mod committed;
#[cfg(test)]
mod headline;
#[cfg(test)]
mod numbers;
#[cfg(test)]
mod refused;
#[cfg(test)]
mod replayed;
#[cfg(test)]
mod scheme;
#[cfg(test)]
mod tested;
#[cfg(test)]
mod work;
