//! Tests of `p3_periodic`.

mod columns;
mod points;
mod refusals;
mod tables;
