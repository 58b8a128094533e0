//! The operators that compute a value from values.

/// An operation on two values of one type.
#[derive(Clone, Copy, Debug, PartialEq, Eq, Drop)]
pub enum BinaryOp {
    Add,
    Sub,
    Mul,
    Div,
    Rem,
    And,
    Or,
    Xor,
    Shl,
    Shr,
    Less,
    LessEqual,
    Greater,
    GreaterEqual,
    Equal,
    NotEqual,
}

/// An operation on one value: `-`, `+`, `!` and `~`.
#[derive(Clone, Copy, Debug, PartialEq, Eq, Drop)]
pub enum UnaryOp {
    Negate,
    Plus,
    Not,
    Complement,
}
