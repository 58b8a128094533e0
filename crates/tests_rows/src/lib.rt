//! The worked rows: what each run of a source answers, or what it is refused for, and the reports of lane-pure functions.
#![tactic(auto)]

#[cfg(test)]
mod row;
#[cfg(test)]
mod rows;
#[cfg(test)]
mod table;
#[cfg(test)]
mod wanted;
