//! The text of each answer, written on a writer.
#![tactic(auto)]

mod answer_texts;
mod change_texts;
mod fixed_texts;
mod frame_texts;
mod local_texts;
mod place_texts;
mod stop_texts;
mod target_texts;
mod texts;
mod value_texts;

pub use answer_texts::write_answer;
pub use texts::write_pieces;
pub use value_texts::{write_value, write_values};
