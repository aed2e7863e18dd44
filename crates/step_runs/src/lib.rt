//! Runs of single steps of the commands over inputs, outputs and files in memory: texts that are
//! answered, files that are loaded and written, the words of indexes, what is printed of generated
//! collections, how often plans move their cursors, and what few words may claim.
#![tactic(auto)]

#[cfg(test)]
mod broken_builds;
#[cfg(test)]
mod built_words;
#[cfg(test)]
mod claims;
#[cfg(test)]
mod files;
#[cfg(test)]
mod generations;
#[cfg(test)]
mod plans;
#[cfg(test)]
mod texts;
