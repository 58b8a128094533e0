//! Inputs read for the entries of short sources.
#![tactic(auto)]

#[cfg(test)]
mod forms;
#[cfg(test)]
mod orders;
#[cfg(test)]
mod read;
#[cfg(test)]
mod sizes;
#[cfg(test)]
mod told;
#[cfg(test)]
mod types;
