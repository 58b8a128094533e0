//! Sources read through the lexer and the parser.
#![tactic(auto)]

#[cfg(test)]
mod forms;
#[cfg(test)]
mod reading;
#[cfg(test)]
mod refusals;
