//! Tokens and expressions of short sources.
#![tactic(auto)]

#[cfg(test)]
mod expressions;
#[cfg(test)]
mod marks;
#[cfg(test)]
mod tokens;
#[cfg(test)]
mod told;
