//! Cursors over small lists, and the plans over them, against results that were worked out by hand:
//! plain lists, scans of them, WAND and MaxScore, lists in blocks with their side files, lists with
//! bounds by interval, and lists of several segments.
#![tactic(auto)]

#[cfg(test)]
mod blocks;
#[cfg(test)]
mod counting;
#[cfg(test)]
mod cursors;
#[cfg(test)]
mod intervals;
#[cfg(test)]
mod joined;
#[cfg(test)]
mod pruned;
#[cfg(test)]
mod scans;
