//! The operations of `lane_kernels` as plain loops over their definitions, and the tests that compare the two.
#![tactic(auto)]

pub mod ends;
pub mod plain;
#[cfg(test)]
mod tests;
