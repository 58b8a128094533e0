//! One number for each lane in place of lists of tasks.
#![tactic(auto)]
