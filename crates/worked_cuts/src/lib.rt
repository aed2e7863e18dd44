//! Worked examples of what parts cost, of the window bounds and the ends of windows, and of
//! near-cheapest and cheapest partitions.
#![tactic(auto)]

#[cfg(test)]
mod costs;
#[cfg(test)]
mod partitions;
#[cfg(test)]
mod windows;
