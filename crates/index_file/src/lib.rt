//! The words of an index file: written list by list, spelled as bytes, checked and opened.
//!
//! A plain file has its lists as whole words, a packed one as bits without gaps; in both follow the
//! sizes of documents and a directory of the lists.
//!
//! - [`Builder`] takes lists one after the other, cuts both sequences of each (`partitions`), and
//!   appends it. It has a builder of a plain file (`plain_builder`) and one of a packed file
//!   (`packed_builder`, `packed_tail`), of which it fills one, and gives the words in the end.
//! - `bytes` spells words as bytes, and reads them back.
//! - [`Index`] is the words of a file, lent: `view` checks all of them, and tells the first check
//!   that breaks ([`OpenFault`]); `known` takes words that were checked. `checking`, `frame` and
//!   `lists` check a plain file, `packed_checking` and `packed_frame` a packed one.
//! - An index gives cursors over its lists (`views`, `packed_views`) and what its parts count
//!   (`measures`, `totals`), or its lists in turn ([`ListWalk`]). [`list_starts`] reads once where
//!   the lists of a packed file begin.
#![tactic(auto)]

mod builder;
mod bytes;
mod checking;
mod entries;
mod fault;
mod frame;
mod gaps;
mod index;
mod laws;
mod lists;
mod measures;
mod packed_builder;
mod packed_checking;
mod packed_frame;
mod packed_laws;
mod packed_tail;
mod packed_views;
mod partitions;
mod plain_builder;
mod run;
mod starts;
mod totals;
mod views;
mod walk;

pub use builder::{Builder, FinishError};
pub use bytes::{WordsError, read_words, read_words_into, spell_into, spell_words};
pub use fault::OpenFault;
pub use index::Index;
pub use laws::{
    files_spell_collections, index_is_read, lists_are_counted, no_version_breaks, one_broken_check,
    one_index, packed_lists_stand, words_and_bytes_undo_each_other,
};
pub use measures::PartCounts;
pub use packed_checking::FIRST_LIST_BIT;
pub use packed_laws::one_packed_file;
pub use starts::list_starts;
pub use walk::ListWalk;
