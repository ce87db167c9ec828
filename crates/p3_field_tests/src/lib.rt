//! Tests of `p3_field`, `p3_koala_bear` and `p3_goldilocks`: worked values, and each public call at
//! a concrete type through its bound.
#![tactic(auto)]

#[cfg(test)]
mod baby_bear;
#[cfg(test)]
mod baby_bear4;
#[cfg(test)]
mod batch_inverse;
#[cfg(test)]
mod coset;
#[cfg(test)]
mod encoding;
#[cfg(test)]
mod extension;
#[cfg(test)]
mod goldilocks;
#[cfg(test)]
mod goldilocks2;
#[cfg(test)]
mod index;
#[cfg(test)]
mod koala_bear;
#[cfg(test)]
mod koala_bear4;
#[cfg(test)]
mod lanes;
#[cfg(test)]
mod powers;
#[cfg(test)]
mod prime;
#[cfg(test)]
mod row_sums;
