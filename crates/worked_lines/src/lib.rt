//! Lines of queries with what they ask or the rules that they break, and the texts of replies,
//! worked out by hand.
#![tactic(auto)]

#[cfg(test)]
mod lines;
#[cfg(test)]
mod replies;
