//! Words of the nine types, operations on them, and sets of lanes.
#![tactic(auto)]

#[cfg(test)]
mod masks;
#[cfg(test)]
mod values;
