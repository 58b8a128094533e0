//! What the steps of a program do.

use expression_instructions::Instruction;
use foreach_lowering::Order;
use gang_types::{BinaryOp, IntType, VarId};
use typed_tree::{ResultFor, Var};

/// `target op= value`: the operation, its type, and the target's type.
#[derive(Clone, Copy, Debug, PartialEq, Eq, Drop)]
pub struct Change {
    pub operator: BinaryOp,
    pub value_type: IntType,
    pub target_type: IntType,
}

/// An argument of a call.
#[derive(Drop)]
pub enum ArgCode {
    /// The parameter, and the code of its value.
    Value {
        parameter: Var,
        value: Vec<Instruction>,
    },
    /// The array that is passed, from the element of this index on, or whole.
    Array {
        array: VarId,
        from: Option<Vec<Instruction>>,
    },
}

/// A segment of a `switch`: the word of its label, none for `default`, and the step where it begins.
#[derive(Clone, Copy, Debug, PartialEq, Eq, Drop)]
pub struct SegmentCode {
    pub label: Option<u64>,
    pub entry: usize,
}

/// The bounds of a dimension.
#[derive(Drop)]
pub struct DimensionCode {
    pub low: Vec<Instruction>,
    pub high: Vec<Instruction>,
}

/// The head of a foreach form.
pub enum FormCode {
    /// `foreach` and `foreach_tiled`.
    Domain {
        order: Order,
        dimensions: Vec<DimensionCode>,
    },
    EachLane,
    EachValue {
        value: Vec<Instruction>,
    },
}

impl Drop for FormCode {
    fn drop(self) {
        match self {
            FormCode::Domain {
                order: _,
                dimensions: _,
            }
            | FormCode::EachLane
            | FormCode::EachValue { value: _ } => {}
        }
    }
}

/// The index variables of a foreach form.
pub enum IndexCode {
    /// Those of the dimensions.
    Domain { order: Order, indices: Vec<Var> },
    EachLane { index: Var },
    EachValue { index: Var },
}

impl Drop for IndexCode {
    fn drop(self) {
        match self {
            IndexCode::Domain {
                order: _,
                indices: _,
            }
            | IndexCode::EachLane { index: _ }
            | IndexCode::EachValue { index: _ } => {}
        }
    }
}

/// What a step does, and the numbers of the steps that its lanes wait for next.
#[derive(Drop)]
pub enum StepCode {
    /// A variable gets a value, or 0 where it has none.
    Declare {
        variable: Var,
        value: Option<Vec<Instruction>>,
        next: usize,
    },
    Assign {
        variable: Var,
        value: Vec<Instruction>,
        next: usize,
    },
    Change {
        variable: Var,
        change: Change,
        value: Vec<Instruction>,
        next: usize,
    },
    AssignElement {
        array: VarId,
        index: Vec<Instruction>,
        value: Vec<Instruction>,
        next: usize,
    },
    ChangeElement {
        array: VarId,
        index: Vec<Instruction>,
        change: Change,
        value: Vec<Instruction>,
        next: usize,
    },
    /// `assert`.
    Check {
        test: Vec<Instruction>,
        next: usize,
    },
    PackedStore {
        array: VarId,
        from: Option<Vec<Instruction>>,
        value: Vec<Instruction>,
        result_for: ResultFor,
        next: usize,
    },
    PackedLoad {
        array: VarId,
        from: Option<Vec<Instruction>>,
        into: Var,
        result_for: ResultFor,
        next: usize,
    },
    /// The function's result in the lanes of the step, which return.
    Return {
        value: Option<Vec<Instruction>>,
        next: usize,
    },
    /// Nothing: `break` and `continue`.
    Go {
        next: usize,
    },
    Branch {
        test: Vec<Instruction>,
        yes: usize,
        no: usize,
    },
    /// A `switch`: its segments in the order of the source, and what follows them.
    Choose {
        selector: Vec<Instruction>,
        segments: Vec<SegmentCode>,
        next: usize,
    },
    /// A foreach form: the number of its rounds, and what follows it.
    Begin {
        form: FormCode,
        rounds: usize,
        next: usize,
    },
    /// The next round of a foreach form: its index variables, and where its body begins.
    Round {
        form: IndexCode,
        body: usize,
    },
    /// A call; its lanes go on when it is left.
    Enter {
        function: usize,
        args: Vec<ArgCode>,
        result_for: ResultFor,
        next: usize,
    },
}

/// For each function of a program its steps in running order, but for its closing brace, and the step that lanes wait for that begin
/// it; and how many foreach forms stand in one another at most.
#[derive(Drop)]
pub struct Code {
    pub functions: Vec<Vec<StepCode>>,
    pub entries: Vec<usize>,
    pub levels: usize,
}
