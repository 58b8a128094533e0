//! Tests of the frames of messages.
#![tactic(auto)]

#[cfg(test)]
mod flushing;
