//! The instructions that expressions become, and what each computes.
#![tactic(auto)]

mod code;
mod library;
mod operations;
mod words;

pub use code::{Gate, Instruction, Joining, Leaf, Move, OneOperand, ThreeOperands, TwoOperands};
pub use operations::{apply_one, apply_three, apply_two, leaf_words};
pub use words::Words;
