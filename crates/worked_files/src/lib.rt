//! Index files against words, checks and postings that were worked out by hand: files that are
//! built, opened, changed and cut, their words as bytes, the parts of lists as blocks with side
//! files, and scans of lists that are opened.
#![tactic(auto)]

#[cfg(test)]
mod broken;
#[cfg(test)]
mod built;
#[cfg(test)]
mod bytes;
#[cfg(test)]
mod dense;
#[cfg(test)]
mod opened;
#[cfg(test)]
mod parts;
#[cfg(test)]
mod words;
