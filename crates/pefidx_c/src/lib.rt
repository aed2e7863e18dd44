//! The store for programs in C: the words of an index are checked once, and each call from then on
//! takes them and gives its answer in the room that its caller lends. No call keeps anything for
//! the next.
#![tactic(auto)]

mod asking;
mod building;
mod checking;
mod cursors;
mod given_lists;
mod heads;
mod joined_indexes;
mod joining;
mod kept;
mod matching;
mod merging;
mod packing;
mod ranking;
mod reply_room;
mod replying;
mod room;
mod segment;
mod segment_calls;
mod segment_checking;
mod status;
#[cfg(test)]
mod tests;
