//! The texts of expressions whose values an editor opens, each by its place in a table.
#![tactic(auto)]

mod texts;

pub use texts::{LONGEST_TEXT, MOST_TEXTS, OpenedText, OpenedTexts};
