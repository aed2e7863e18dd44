//! Query lines, what they ask, and the texts of their replies.
#![tactic(auto)]

mod fields;
mod numbers;
mod parsing;
mod query;
mod replies;
mod term_lists;
mod weighted_lists;
mod weighted_terms;

pub use numbers::number;
pub use parsing::parse;
pub use query::{Bad, ParseError, Query, Terms};
pub use replies::{bad_reply, list_reply, next_reply, top_reply};
pub use weighted_terms::Weighted;
