//! Parts of a tree that hold no other parts.

use gang_types::{BinaryOp, IntType, Rate};

/// What stands between two operands: an operation, or `&&` or `||`.
#[derive(Clone, Copy, Debug, PartialEq, Eq, Drop)]
pub enum Infix {
    Op(BinaryOp),
    AndAlso,
    OrElse,
}

/// The words before a declared name: a rate and a type, where none is `void`, and what else is said.
#[derive(Clone, Copy, Debug, PartialEq, Eq, Drop)]
pub struct Spec {
    pub is_exported: bool,
    pub is_static: bool,
    pub is_inline: bool,
    pub is_constant: bool,
    pub rate: Option<Rate>,
    pub value_type: Option<IntType>,
}

/// The first value of a file-scope variable.
#[derive(Clone, Copy, Debug, PartialEq, Eq, Drop)]
pub enum Literal {
    Number {
        is_negative: bool,
        value: u64,
        is_unsigned: bool,
        is_long: bool,
    },
    Truth(bool),
}

/// What follows a file-scope variable's name: nothing, a length or a first value.
#[derive(Clone, Copy, Debug, PartialEq, Eq, Drop)]
pub enum GlobalForm {
    Plain,
    Array(u64),
    Initial(Literal),
}

/// The whole number after `case`.
#[derive(Clone, Copy, Debug, PartialEq, Eq, Drop)]
pub struct Label {
    pub is_negative: bool,
    pub value: u64,
}
