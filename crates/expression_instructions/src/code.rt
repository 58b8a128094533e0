//! The machine's instructions.
use gang_types::{BinaryOp, IntType, UnaryOp, VarId};
use typed_tree::{OneCall, Reduction, Scan, TwoCall, Var};

/// What needs no operand.
#[derive(Clone, Copy, Drop)]
pub enum Leaf {
    Number(u64),
    ProgramIndex,
    ProgramCount,
    LaneMask,
    Read(Var),
}

/// What takes one vector and gives one.
#[derive(Clone, Copy, Drop)]
pub enum OneOperand {
    Unary(UnaryOp, IntType),
    Convert(IntType, IntType),
    OfOne(OneCall, IntType),
    Reduce(Reduction, IntType),
    ScanLanes(Scan, IntType),
}

/// How far values are moved: to lanes of the gang in a circle, or in a row with 0 on either side.
#[derive(Clone, Copy, Drop)]
pub enum Move {
    Rotate,
    Shift,
}

/// What takes two vectors and gives one.
#[derive(Clone, Copy, Drop)]
pub enum TwoOperands {
    Binary(BinaryOp, IntType),
    OfTwo(TwoCall, IntType),
    /// The first vector's values of the lanes that the second names: `broadcast`, `extract` and `shuffle`.
    Pick,
    /// The first vector moved by the amounts of the second.
    Move(Move),
}

/// What takes three vectors and gives one.
#[derive(Clone, Copy, Drop)]
pub enum ThreeOperands {
    Select,
    /// The first vector with the third one's value in the lane that the second names.
    Insert,
    /// The values that the third vector names among those of the first and, after them, of the second.
    PickOfTwo,
}

/// Which lanes a part is run with: those where the top vector holds, those where it does not, and those where the
/// vector below the top does not.
#[derive(Clone, Copy, Drop)]
pub enum Gate {
    WhereTrue,
    WhereFalse,
    Otherwise,
}

/// How a part's vector is joined to those below it.
#[derive(Clone, Copy, Drop)]
pub enum Joining {
    Both,
    Either,
    Choice,
}

/// One instruction. A gate says how many instructions are passed where no lane is left for them.
#[derive(Clone, Copy, Drop)]
pub enum Instruction {
    Push(Leaf),
    /// The elements of an array at the indices of the top vector.
    Element(VarId),
    One(OneOperand),
    Two(TwoOperands),
    Three(ThreeOperands),
    Enter(Gate, usize),
    Join(Joining),
}
