//! Packed lists, written, checked and viewed, against bits that were worked out by hand.
#![tactic(auto)]

#[cfg(test)]
mod greatest;
#[cfg(test)]
mod rows;
#[cfg(test)]
mod spelled;
#[cfg(test)]
mod written;
