//! Expressions that are written at steps of programs: their types, their values, and why they are refused.
#![tactic(auto)]

#[cfg(test)]
mod lanes;
#[cfg(test)]
mod placed;
#[cfg(test)]
mod refusals;
#[cfg(test)]
mod scopes;
#[cfg(test)]
mod store;
#[cfg(test)]
mod told;
#[cfg(test)]
mod types;
