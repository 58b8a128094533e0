//! What commands a prompt has, what each does, and why it has not those of GDB that it lacks.
#![tactic(auto)]

mod explanations;
mod fronts;
mod help;
mod settings;
mod usages;

pub use explanations::{explanation, why_no_value};
pub use help::{Topic, topic_of, topics};
pub use settings::is_setting;
pub use usages::usage_of;
