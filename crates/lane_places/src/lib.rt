//! The seam at which a machine tells where each lane waits.
#![tactic(auto)]

mod machine;

pub use machine::LaneMachine;
