//! The trees of expressions.

use gang_model::Infix;
use gang_types::{IntType, Place, Rate, UnaryOp};
use ispc_lexer::Number;

/// An expression as it is written. A place is that of the form's first token.
#[cycle(tree)]
pub enum Expr {
    Number {
        place: Place,
        number: Number,
    },
    Truth {
        place: Place,
        value: bool,
    },
    Name {
        place: Place,
        name: Vec<u8>,
    },
    Index {
        place: Place,
        name: Vec<u8>,
        index: Box<Expr>,
    },
    Call {
        place: Place,
        name: Vec<u8>,
        args: Vec<Arg>,
    },
    Paren {
        place: Place,
        inner: Box<Expr>,
    },
    Unary {
        place: Place,
        operator: UnaryOp,
        operand: Box<Expr>,
    },
    /// A cast to a rate, where one is written, and to a type, `None` being `void`.
    Cast {
        place: Place,
        rate: Option<Rate>,
        value_type: Option<IntType>,
        operand: Box<Expr>,
    },
    Binary {
        operator: Infix,
        left: Box<Expr>,
        right: Box<Expr>,
    },
    Choice {
        test: Box<Expr>,
        first: Box<Expr>,
        second: Box<Expr>,
    },
}

impl Drop for Expr {
    #[cycle(tree)]
    fn drop(self) {
        match self {
            Expr::Number {
                place: _,
                number: _,
            }
            | Expr::Truth { place: _, value: _ }
            | Expr::Name { place: _, name: _ }
            | Expr::Index {
                place: _,
                name: _,
                index: _,
            }
            | Expr::Call {
                place: _,
                name: _,
                args: _,
            }
            | Expr::Paren { place: _, inner: _ }
            | Expr::Unary {
                place: _,
                operator: _,
                operand: _,
            }
            | Expr::Cast {
                place: _,
                rate: _,
                value_type: _,
                operand: _,
            }
            | Expr::Binary {
                operator: _,
                left: _,
                right: _,
            }
            | Expr::Choice {
                test: _,
                first: _,
                second: _,
            } => {}
        }
    }
}

/// An argument of a call: a value, or `&a` or `&a[e]` with the place of the name.
#[cycle(tree)]
pub enum Arg {
    Value(Expr),
    Part {
        place: Place,
        name: Vec<u8>,
    },
    PartFrom {
        place: Place,
        name: Vec<u8>,
        index: Expr,
    },
}

impl Drop for Arg {
    #[cycle(tree)]
    fn drop(self) {
        match self {
            Arg::Value(_)
            | Arg::Part { place: _, name: _ }
            | Arg::PartFrom {
                place: _,
                name: _,
                index: _,
            } => {}
        }
    }
}
