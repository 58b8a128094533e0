//! Values of operations and of the code of expressions, and the points of a function.
#![tactic(auto)]

#[cfg(test)]
mod arrays;
#[cfg(test)]
mod expressions;
#[cfg(test)]
mod library;
#[cfg(test)]
mod limits;
#[cfg(test)]
mod operations;
#[cfg(test)]
mod points;
#[cfg(test)]
mod switches;
#[cfg(test)]
mod trees;
#[cfg(test)]
mod wide;
