//! Tests of the program, from its sources and its command line to its runs, that need public calls alone.
#![tactic(auto)]

#[cfg(test)]
mod input_refusals;
#[cfg(test)]
mod inputs;
#[cfg(test)]
mod library;
#[cfg(test)]
mod options;
#[cfg(test)]
mod reports;
#[cfg(test)]
mod running;
#[cfg(test)]
mod runs;
#[cfg(test)]
mod sessions;
#[cfg(test)]
mod sources;
#[cfg(test)]
mod told;
