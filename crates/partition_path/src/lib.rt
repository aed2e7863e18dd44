//! A near-cheapest partition of a sequence, and the cheapest cost of any.
//!
//! A sequence comes as the costs of its parts (`SpanCost`) or as a rising list; what is given back
//! is [`Cuts`], the ends of the parts and what they cost together.
//!
//! - `cuts` has the calls that cut. A sequence becomes one part where that is known to be near the
//!   cheapest (`whole`). Of a list the cheapest way along lines under the costs of its parts is
//!   found in one pass (`lines`), and the parts of it that are too long are cut (`allowed`). Where
//!   that is not known to be near, and of what is no list, the parts are searched for (`search`).
//! - `search` tries parts from each place in order, to the ends under the window bounds. It keeps
//!   a table (`routes`) of the cheapest known route to each place, from which the ends are read.
//! - `joints` moves each cut to a place near by where that costs less.
//! - `exact` looks at all parts, and finds what the cheapest partition costs.
#![tactic(auto)]

mod allowed;
mod cuts;
mod exact;
mod joints;
mod lines;
mod routes;
mod search;
mod whole;

pub use cuts::{Cuts, list_partition, list_partition_or_whole, partition};
pub use exact::{ExactCosts, exact_cost, exact_costs};
