//! Scalars, elements, packed calls and layouts of the memory of a program, and records of its old words.
#![tactic(auto)]

#[cfg(test)]
mod elements;
#[cfg(test)]
mod indices;
#[cfg(test)]
mod layouts;
#[cfg(test)]
mod packed;
#[cfg(test)]
mod plain;
#[cfg(test)]
mod records;
#[cfg(test)]
mod told;
#[cfg(test)]
mod worked_by_hand;
