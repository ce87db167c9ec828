//! Tests of `p3_matrix`, `p3_dft`, `p3_periodic` and `p3_domain`.
#![tactic(auto)]

#[cfg(test)]
mod column;
#[cfg(test)]
mod domain;
#[cfg(test)]
mod matrix;
#[cfg(test)]
mod periodic;
#[cfg(test)]
mod transform;
#[cfg(test)]
mod wider;
