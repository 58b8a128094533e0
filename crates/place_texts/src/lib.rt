//! The text of a place tells its parts: laws, and no function.
#![tactic(auto)]
