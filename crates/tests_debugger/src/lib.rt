//! Command lines, commands on a machine, texts of answers, and lines that are answered.
#![tactic(auto)]

#[cfg(test)]
mod answers;
#[cfg(test)]
mod commands;
#[cfg(test)]
mod lines;
#[cfg(test)]
mod repeating;
#[cfg(test)]
mod session;
#[cfg(test)]
mod still_machine;
#[cfg(test)]
mod two_frames;
