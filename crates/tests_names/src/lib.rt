//! Names of short sources: scopes, faults, steps, limits.
#![tactic(auto)]

#[cfg(test)]
mod faults;
#[cfg(test)]
mod limits;
#[cfg(test)]
mod look_ups;
#[cfg(test)]
mod names;
#[cfg(test)]
mod resolution;
#[cfg(test)]
mod steps;
#[cfg(test)]
mod told;
