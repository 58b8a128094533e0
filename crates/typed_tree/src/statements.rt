//! Statements. A step is named by its number in the order in which the function's steps run.

use crate::expressions::{Expr, Var};
use gang_types::{BinaryOp, IntType, Rate, VarId};

/// What is assigned: a scalar, or an element of an array.
pub enum Target {
    Scalar(Var),
    Element {
        array: VarId,
        rate: Rate,
        index: Box<Expr>,
    },
}

impl Drop for Target {
    fn drop(self) {
        match self {
            Target::Scalar(_)
            | Target::Element {
                array: _,
                rate: _,
                index: _,
            } => {}
        }
    }
}

/// What a call passes: a value, or an array from an index on.
pub enum Arg {
    Value {
        parameter: Var,
        value: Box<Expr>,
    },
    Array {
        parameter: VarId,
        array: VarId,
        from: Option<Box<Expr>>,
    },
}

impl Drop for Arg {
    fn drop(self) {
        match self {
            Arg::Value {
                parameter: _,
                value: _,
            }
            | Arg::Array {
                parameter: _,
                array: _,
                from: _,
            } => {}
        }
    }
}

/// What a call's result is for.
#[derive(Clone, Copy, Debug, PartialEq, Eq, Drop)]
pub enum ResultFor {
    Nothing,
    Declares(Var),
    Assigns(Var),
    Returns,
}

/// An index variable with its bounds.
pub struct Dimension {
    pub index: Var,
    pub low: Box<Expr>,
    pub high: Box<Expr>,
}

impl Drop for Dimension {
    fn drop(self) {
        let Self {
            index: _,
            low: _,
            high: _,
        } = self;
    }
}

/// The rounds of a foreach form.
pub enum Rounds {
    Rows(Vec<Dimension>),
    Tiles(Vec<Dimension>),
    EachLane(Var),
    EachValue { index: Var, value: Box<Expr> },
}

impl Drop for Rounds {
    fn drop(self) {
        match self {
            Rounds::Rows(_)
            | Rounds::Tiles(_)
            | Rounds::EachLane(_)
            | Rounds::EachValue { index: _, value: _ } => {}
        }
    }
}

/// A statement.
#[cycle(statement)]
pub enum Stmt {
    Empty,
    Block(Vec<Stmt>),
    /// The start of a `for`, and what comes after it.
    Then {
        first: Box<Stmt>,
        rest: Box<Stmt>,
    },
    Declare {
        step: usize,
        variable: Var,
        value: Option<Box<Expr>>,
    },
    Assign {
        step: usize,
        target: Target,
        value: Box<Expr>,
    },
    /// `target op= value`: the target's type, the operation and its type.
    Change {
        step: usize,
        target: Target,
        target_type: IntType,
        operator: BinaryOp,
        value_type: IntType,
        value: Box<Expr>,
    },
    If {
        step: usize,
        test: Box<Expr>,
        first: Box<Stmt>,
        other: Box<Stmt>,
    },
    /// `while`, and `for` after its start.
    Loop {
        step: usize,
        test: Box<Expr>,
        update: Box<Stmt>,
        body: Box<Stmt>,
    },
    /// `do`.
    BodyFirst {
        step: usize,
        test: Box<Expr>,
        body: Box<Stmt>,
    },
    Break {
        step: usize,
    },
    Continue {
        step: usize,
    },
    Return {
        step: usize,
        value: Option<Box<Expr>>,
    },
    /// The segments in the order of the source.
    Switch {
        step: usize,
        selector: Box<Expr>,
        segments: Vec<Segment>,
    },
    ForEach {
        step: usize,
        rounds: Rounds,
        body: Box<Stmt>,
    },
    Call {
        step: usize,
        function: usize,
        args: Vec<Arg>,
        result_for: ResultFor,
    },
    /// `assert`.
    Check {
        step: usize,
        test: Box<Expr>,
    },
    PackedStore {
        step: usize,
        array: VarId,
        from: Option<Box<Expr>>,
        value: Box<Expr>,
        result_for: ResultFor,
    },
    PackedLoad {
        step: usize,
        array: VarId,
        from: Option<Box<Expr>>,
        into: Var,
        result_for: ResultFor,
    },
}

impl Drop for Stmt {
    #[cycle(statement)]
    fn drop(self) {
        match self {
            Stmt::Empty
            | Stmt::Block(_)
            | Stmt::Then { first: _, rest: _ }
            | Stmt::Declare {
                step: _,
                variable: _,
                value: _,
            }
            | Stmt::Assign {
                step: _,
                target: _,
                value: _,
            }
            | Stmt::Change {
                step: _,
                target: _,
                target_type: _,
                operator: _,
                value_type: _,
                value: _,
            }
            | Stmt::If {
                step: _,
                test: _,
                first: _,
                other: _,
            }
            | Stmt::Loop {
                step: _,
                test: _,
                update: _,
                body: _,
            }
            | Stmt::BodyFirst {
                step: _,
                test: _,
                body: _,
            }
            | Stmt::Break { step: _ }
            | Stmt::Continue { step: _ }
            | Stmt::Return { step: _, value: _ }
            | Stmt::Switch {
                step: _,
                selector: _,
                segments: _,
            }
            | Stmt::ForEach {
                step: _,
                rounds: _,
                body: _,
            }
            | Stmt::Call {
                step: _,
                function: _,
                args: _,
                result_for: _,
            }
            | Stmt::Check { step: _, test: _ }
            | Stmt::PackedStore {
                step: _,
                array: _,
                from: _,
                value: _,
                result_for: _,
            }
            | Stmt::PackedLoad {
                step: _,
                array: _,
                from: _,
                into: _,
                result_for: _,
            } => {}
        }
    }
}

/// A segment of a `switch`: the word of its label, none for `default`, and the statements up to the next label.
#[cycle(statement)]
pub struct Segment {
    pub label: Option<u64>,
    pub body: Vec<Stmt>,
}

impl Drop for Segment {
    #[cycle(statement)]
    fn drop(self) {
        let Self { label: _, body: _ } = self;
    }
}
