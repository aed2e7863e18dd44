//! Sources, sinks and files, in memory and of the system, that are read, written, loaded and
//! replaced.
#![tactic(auto)]

#[cfg(test)]
mod calls;
#[cfg(test)]
mod depots;
#[cfg(test)]
mod files;
#[cfg(test)]
mod held;
#[cfg(test)]
mod loads;
#[cfg(test)]
mod streams;
