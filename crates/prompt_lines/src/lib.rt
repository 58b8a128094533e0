//! The lines that people type at a prompt, and the debugger's own command lines that they stand for.
#![tactic(auto)]

mod conditions;
mod fronts;
mod heads;
mod line;
mod numbers;
mod parts;
mod reading;
mod sources;
mod table;

pub use conditions::{before_condition, condition_in, split_word};
pub use heads::{Head, function_head, has_part, stripped};
pub use line::{HELD, Kind, Look, PromptLine, Text};
pub use numbers::{NumberRange, are_numbers, behind_first, names_number, range_of};
pub use parts::count_place;
pub use reading::{
    argument, breaking_line, held_line, index, is_alone, moment, printing_line, read_line,
    setting_line,
};
pub use sources::line_named;
