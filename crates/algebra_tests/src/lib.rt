//! Instances of the laws of `algebra`: tests at the field BabyBear and its extension of degree 4,
//! and a law whose premises hold of every field with roots of unity and each of its extensions.
#![tactic(auto)]

#[cfg(test)]
mod batches;
#[cfg(test)]
mod folds;
#[cfg(test)]
mod laws;
#[cfg(test)]
mod points;
#[cfg(test)]
mod values;
