//! Tests of a query that is folded by itself, and of all queries together.
#![tactic(auto)]

#[cfg(test)]
mod cases;
#[cfg(test)]
mod elements;
#[cfg(test)]
mod fold_query;
#[cfg(test)]
mod queries;
#[cfg(test)]
mod words;
