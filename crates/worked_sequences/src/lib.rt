//! Sequences in parts and the posting lists that stand on them, written and read by every call,
//! against words and values that were worked out by hand.
#![tactic(auto)]

#[cfg(test)]
mod checks;
#[cfg(test)]
mod cursors;
#[cfg(test)]
mod gallops;
#[cfg(test)]
mod lone_parts;
#[cfg(test)]
mod long_parts;
#[cfg(test)]
mod posting_cursors;
#[cfg(test)]
mod posting_lists;
#[cfg(test)]
mod reading;
#[cfg(test)]
mod sequences;
#[cfg(test)]
mod steps;
#[cfg(test)]
mod writing;
