//! Bounds of the frequencies of posting lists in short runs of neighbouring documents, and the plan
//! of `top` that adds them up.
#![tactic(auto)]

mod bounds;
mod bytes;
mod groups;
mod maxima;
mod pass;
mod peaks;
mod run;
mod top;
mod view;
mod words;
mod writer;
mod zeros;

pub use maxima::Bounds;
pub use peaks::INTERVAL;
pub use top::{TopQuery, bounds_can_save, intervals_can_save, top_intervals};
pub use view::MaximaView;
pub use writer::MaximaWriter;
