//! Types of values, names, library calls, expressions, calls and whole sources.
#![tactic(auto)]

#[cfg(test)]
mod calls;
#[cfg(test)]
mod expressions;
#[cfg(test)]
mod library;
#[cfg(test)]
mod purity;
#[cfg(test)]
mod scopes;
#[cfg(test)]
mod sources;
#[cfg(test)]
mod switches;
#[cfg(test)]
mod told;
#[cfg(test)]
mod values;
