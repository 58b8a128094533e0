//! The calls of `cross_lane` beside plain loops over their definitions, and the tests that compare the two.
#![tactic(auto)]

#[cfg(test)]
mod plain;
#[cfg(test)]
mod table;
#[cfg(test)]
mod tests;
