//! Expressions.

use gang_types::{BinaryOp, IntType, Rate, UnaryOp, VarId};

/// A scalar variable.
#[derive(Clone, Copy, Debug, PartialEq, Eq, Drop)]
pub struct Var {
    pub id: VarId,
    pub value_type: IntType,
    pub rate: Rate,
}

/// The library's functions over the active lanes.
#[derive(Clone, Copy, Debug, PartialEq, Eq, Drop)]
pub enum Reduction {
    AnyLane,
    AllLanes,
    NoLane,
    ReduceAdd,
    ReduceMin,
    ReduceMax,
    ReduceEqual,
    PopCountLanes,
    PackMask,
}

/// The library's functions over the active lanes before each one.
#[derive(Clone, Copy, Debug, PartialEq, Eq, Drop)]
pub enum Scan {
    Add,
    And,
    Or,
}

/// The library's functions of one value in a lane.
#[derive(Clone, Copy, Debug, PartialEq, Eq, Drop)]
pub enum OneCall {
    Absolute,
    PopCount,
}

/// The library's functions of two values in a lane.
#[derive(Clone, Copy, Debug, PartialEq, Eq, Drop)]
pub enum TwoCall {
    Lesser,
    Larger,
}

/// An expression. Its operations name the type that they are made in.
#[cycle(expression)]
pub enum Expr {
    Number(u64),
    ProgramIndex,
    ProgramCount,
    LaneMask,
    Read(Var),
    Element {
        array: VarId,
        index: Box<Expr>,
    },
    Unary {
        operator: UnaryOp,
        value_type: IntType,
        operand: Box<Expr>,
    },
    Binary {
        operator: BinaryOp,
        value_type: IntType,
        left: Box<Expr>,
        right: Box<Expr>,
    },
    Convert {
        from: IntType,
        to: IntType,
        operand: Box<Expr>,
    },
    AndAlso {
        left: Box<Expr>,
        right: Box<Expr>,
    },
    OrElse {
        left: Box<Expr>,
        right: Box<Expr>,
    },
    Choice {
        test: Box<Expr>,
        first: Box<Expr>,
        second: Box<Expr>,
    },
    Reduce {
        function: Reduction,
        value_type: IntType,
        value: Box<Expr>,
    },
    ScanLanes {
        function: Scan,
        value_type: IntType,
        value: Box<Expr>,
    },
    OfOne {
        function: OneCall,
        value_type: IntType,
        value: Box<Expr>,
    },
    OfTwo {
        function: TwoCall,
        value_type: IntType,
        left: Box<Expr>,
        right: Box<Expr>,
    },
    /// The value of the lane that the index names: `broadcast` and `extract`.
    Extract {
        value: Box<Expr>,
        index: Box<Expr>,
    },
    Insert {
        value: Box<Expr>,
        index: Box<Expr>,
        new_value: Box<Expr>,
    },
    Rotate {
        value: Box<Expr>,
        by: Box<Expr>,
    },
    Shift {
        value: Box<Expr>,
        by: Box<Expr>,
    },
    Shuffle {
        value: Box<Expr>,
        places: Box<Expr>,
    },
    ShuffleTwo {
        value: Box<Expr>,
        second: Box<Expr>,
        places: Box<Expr>,
    },
    Select {
        test: Box<Expr>,
        first: Box<Expr>,
        second: Box<Expr>,
    },
}

impl Drop for Expr {
    #[cycle(expression)]
    fn drop(self) {
        match self {
            Expr::Number(_)
            | Expr::ProgramIndex
            | Expr::ProgramCount
            | Expr::LaneMask
            | Expr::Read(_)
            | Expr::Element { array: _, index: _ }
            | Expr::Unary {
                operator: _,
                value_type: _,
                operand: _,
            }
            | Expr::Binary {
                operator: _,
                value_type: _,
                left: _,
                right: _,
            }
            | Expr::Convert {
                from: _,
                to: _,
                operand: _,
            }
            | Expr::AndAlso { left: _, right: _ }
            | Expr::OrElse { left: _, right: _ }
            | Expr::Choice {
                test: _,
                first: _,
                second: _,
            }
            | Expr::Reduce {
                function: _,
                value_type: _,
                value: _,
            }
            | Expr::ScanLanes {
                function: _,
                value_type: _,
                value: _,
            }
            | Expr::OfOne {
                function: _,
                value_type: _,
                value: _,
            }
            | Expr::OfTwo {
                function: _,
                value_type: _,
                left: _,
                right: _,
            }
            | Expr::Extract { value: _, index: _ }
            | Expr::Insert {
                value: _,
                index: _,
                new_value: _,
            }
            | Expr::Rotate { value: _, by: _ }
            | Expr::Shift { value: _, by: _ }
            | Expr::Shuffle {
                value: _,
                places: _,
            }
            | Expr::ShuffleTwo {
                value: _,
                second: _,
                places: _,
            }
            | Expr::Select {
                test: _,
                first: _,
                second: _,
            } => {}
        }
    }
}
