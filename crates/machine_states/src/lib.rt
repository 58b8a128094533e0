//! The words of a machine, and the masked states that they stand for.
#![tactic(auto)]
