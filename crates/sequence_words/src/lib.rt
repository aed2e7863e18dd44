//! The words of a sequence in parts: how they are written, the checks that they pass, and what they
//! state.
#![tactic(auto)]

mod check;
mod checking;
mod entry;
mod laws;
mod write;

pub use check::Check;
pub use checking::{Found, SeqFault, SeqShape, check_words, parts_fit};
pub use entry::{Entry, directory_bits, entry_at, entry_last};
pub use laws::{
    checks_accept_a_sequence, checks_refuse_no_sequence, directory_states_its_parts, one_sequence,
    sequence_takes_its_cost, sequences_pass_checks, words_state_their_sequence,
};
pub use write::write_seq;
