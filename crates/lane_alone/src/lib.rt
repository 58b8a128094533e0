//! A lane of a lane-pure function does alone what it does among others.
#![tactic(auto)]
