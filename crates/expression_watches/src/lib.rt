//! Expressions that are watched in a frame: what they show in each lane, and whether it changed.
#![tactic(auto)]

mod codes;
mod judging;
mod lanes;
mod names;
mod placing;
mod sights;

pub use codes::KeptCodes;
pub use judging::judge_text;
pub use lanes::{LaneSight, lanes_differ};
pub use sights::{ExpressionWatch, LONGEST_TEXT, expression_sight, kept_sight};
