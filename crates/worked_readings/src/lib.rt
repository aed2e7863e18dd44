//! Collections that are read, moved to another order and generated, and the texts of reports,
//! worked out by hand.
#![tactic(auto)]

#[cfg(test)]
mod collections;
#[cfg(test)]
mod generated;
#[cfg(test)]
mod numbers;
#[cfg(test)]
mod orders;
#[cfg(test)]
mod texts;
