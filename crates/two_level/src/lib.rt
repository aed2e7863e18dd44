//! Sequences in parts, with a directory of the parts.
//!
//! A rising sequence is cut into parts, each in its cheapest form; the directory has the last value
//! of each part and where its bits end. `sequence_words` writes and checks these words.
//!
//! - `view` has [`SeqView`], a sequence in words that are lent, checked or known from before. It
//!   tells values by their places, parts and costs, and gives cursors.
//! - `cursor` has [`SeqCursor`], which keeps the part that it stands in. To the first value of at
//!   least x it goes by a gallop over the last values of parts ([`gallop`]), and then in the part.
//! - `stepping`, `long_steps` and `kept_steps` look at the steps from value to value: the greatest,
//!   and one that many reach, as it is told of a list's frequencies.
#![tactic(auto)]

mod cursor;
mod kept_steps;
mod long_steps;
mod stepping;
mod view;

pub use cursor::SeqCursor;
pub use part_directory::{Lasts, Part, gallop};
pub use sequence_words::{
    Check, SeqFault, SeqShape, checks_accept_a_sequence, checks_refuse_no_sequence, one_sequence,
    parts_fit, sequence_takes_its_cost, sequences_pass_checks, words_state_their_sequence,
    write_seq,
};
pub use view::{Checked, CheckedSteps, SeqView};
