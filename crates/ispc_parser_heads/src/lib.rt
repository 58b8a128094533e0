//! What stands between the word of a loop or a foreach form and its body, and the labels of a `switch`.
#![tactic(auto)]

mod heads;
mod labels;

pub use heads::{Distinct, Head, Rounds, head_of, optional, test};
pub use labels::{begins_label, label};
