//! Tests of pictures and of the pages of refusals.
#![tactic(auto)]

#[cfg(test)]
mod keeping_writer;
#[cfg(test)]
mod pages;
#[cfg(test)]
mod pictures;
#[cfg(test)]
mod walking_machine;
