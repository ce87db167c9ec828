//! The queries of the low-degree test. One is folded by itself, from a value of the greatest log
//! height to the value that has to be the final polynomial's; all of them are compared with that,
//! and the rows that they fold are verified round by round.
#![tactic(auto)]

mod checks;
mod collect;
mod final_value;
mod fold;
mod folded;
mod link;
mod open;
mod query;
mod rounds;
mod setting;

pub use crate::fold::fold_queries;
pub use crate::folded::FoldedQueries;
pub use crate::open::verify_rounds;
pub use crate::query::fold_query;
pub use crate::setting::QuerySetting;
