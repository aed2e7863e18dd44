//! The bits of one sequence of a packed list, and a sequence whose bits are looked at later.
#![tactic(auto)]

mod behind;
mod last_field;
mod later;
mod laws;
mod stands;
mod view;
mod window;

pub use behind::Behind;
pub use last_field::{LastField, last_doc, last_sum};
pub use later::LaterView;
pub use laws::{one_sequence_at_place, sequence_words_fit, sequences_state_back};
pub use view::{KnownSequence, known_sequence, known_sequence_with_end};
pub use window::window_from;
