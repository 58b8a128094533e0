//! The operations that are timed, each in two ways: on vectors, and as a plain loop over the lanes.
use gang_types::{BinaryOp, IntType, Mask, UnaryOp};
use tests_kernels::plain;

pub const LANES: usize = 8;

/// The words of the lanes.
pub type Lanes = [u64; LANES];

/// What an operation of three operands takes as its third, and a division gives where it is refused.
pub const START: Lanes = [1, 2, 3, 5, 8, 13, 21, 34];

/// How an operation is computed.
#[derive(Clone, Copy, Debug, Drop)]
pub enum Way {
    Vectors,
    Loop,
}

/// An operation of `lane_kernels` on the words of the lanes.
#[derive(Clone, Copy, Debug, Drop)]
pub enum Operation {
    Unary(UnaryOp),
    Binary(BinaryOp),
    Select,
    Min,
    Max,
    Clamp,
    Convert,
    Abs,
    Popcnt,
}

/// The operations in the order in which they are printed, with their names.
pub const OPERATIONS: [(&str, Operation); 26] = [
    ("add", Operation::Binary(BinaryOp::Add)),
    ("sub", Operation::Binary(BinaryOp::Sub)),
    ("mul", Operation::Binary(BinaryOp::Mul)),
    ("negate", Operation::Unary(UnaryOp::Negate)),
    ("and", Operation::Binary(BinaryOp::And)),
    ("or", Operation::Binary(BinaryOp::Or)),
    ("xor", Operation::Binary(BinaryOp::Xor)),
    ("complement", Operation::Unary(UnaryOp::Complement)),
    ("shl", Operation::Binary(BinaryOp::Shl)),
    ("shr", Operation::Binary(BinaryOp::Shr)),
    ("less", Operation::Binary(BinaryOp::Less)),
    ("less_equal", Operation::Binary(BinaryOp::LessEqual)),
    ("greater", Operation::Binary(BinaryOp::Greater)),
    ("greater_equal", Operation::Binary(BinaryOp::GreaterEqual)),
    ("equal", Operation::Binary(BinaryOp::Equal)),
    ("not_equal", Operation::Binary(BinaryOp::NotEqual)),
    ("not", Operation::Unary(UnaryOp::Not)),
    ("select", Operation::Select),
    ("min", Operation::Min),
    ("max", Operation::Max),
    ("clamp", Operation::Clamp),
    ("convert", Operation::Convert),
    ("abs", Operation::Abs),
    ("popcnt", Operation::Popcnt),
    ("divide", Operation::Binary(BinaryOp::Div)),
    ("remainder", Operation::Binary(BinaryOp::Rem)),
];

impl Operation {
    /// The words that the operation gives at a type, computed in one of the two ways.
    pub fn words(self, way: Way, ty: IntType, a: Lanes, b: Lanes) -> Lanes {
        match way {
            Way::Vectors => self.by_vectors(ty, a, b),
            Way::Loop => self.by_loop(ty, a, b),
        }
    }

    fn by_vectors(self, ty: IntType, a: Lanes, b: Lanes) -> Lanes {
        match self {
            Self::Unary(operator) => unary(operator, ty, a),
            Self::Binary(operator) => binary(operator, ty, a, b),
            Self::Select => lane_kernels::select(a, b, START),
            Self::Min => lane_kernels::min(ty, a, b),
            Self::Max => lane_kernels::max(ty, a, b),
            Self::Clamp => lane_kernels::clamp(ty, a, b, START),
            Self::Convert => lane_kernels::convert(ty, IntType::Uint8, a),
            Self::Abs => lane_kernels::abs(ty, a),
            Self::Popcnt => lane_kernels::popcnt(ty, a),
        }
    }

    fn by_loop(self, ty: IntType, a: Lanes, b: Lanes) -> Lanes {
        match self {
            Self::Unary(operator) => plain::unary(operator, ty, a),
            Self::Binary(operator @ (BinaryOp::Div | BinaryOp::Rem)) => {
                plain::divide(operator, ty, Mask::all::<LANES>(), a, b).unwrap_or(START)
            }
            Self::Binary(operator) => plain::binary(operator, ty, a, b),
            Self::Select => plain::select(a, b, START),
            Self::Min => plain::min(ty, a, b),
            Self::Max => plain::max(ty, a, b),
            Self::Clamp => plain::clamp(ty, a, b, START),
            Self::Convert => plain::convert(ty, IntType::Uint8, a),
            Self::Abs => plain::abs(ty, a),
            Self::Popcnt => plain::popcnt(ty, a),
        }
    }
}

fn unary(operator: UnaryOp, ty: IntType, a: Lanes) -> Lanes {
    match operator {
        UnaryOp::Negate => lane_kernels::negate(ty, a),
        UnaryOp::Plus => a,
        UnaryOp::Not => lane_kernels::not(ty, a),
        UnaryOp::Complement => lane_kernels::complement(ty, a),
    }
}

fn binary(operator: BinaryOp, ty: IntType, a: Lanes, b: Lanes) -> Lanes {
    match operator {
        BinaryOp::Add => lane_kernels::add(ty, a, b),
        BinaryOp::Sub => lane_kernels::sub(ty, a, b),
        BinaryOp::Mul => lane_kernels::mul(ty, a, b),
        BinaryOp::Div => lane_kernels::divide(ty, Mask::all::<LANES>(), a, b).unwrap_or(START),
        BinaryOp::Rem => lane_kernels::remainder(ty, Mask::all::<LANES>(), a, b).unwrap_or(START),
        BinaryOp::And => lane_kernels::and(ty, a, b),
        BinaryOp::Or => lane_kernels::or(ty, a, b),
        BinaryOp::Xor => lane_kernels::xor(ty, a, b),
        BinaryOp::Shl => lane_kernels::shl(ty, a, b),
        BinaryOp::Shr => lane_kernels::shr(ty, a, b),
        BinaryOp::Less => lane_kernels::less(ty, a, b),
        BinaryOp::LessEqual => lane_kernels::less_equal(ty, a, b),
        BinaryOp::Greater => lane_kernels::greater(ty, a, b),
        BinaryOp::GreaterEqual => lane_kernels::greater_equal(ty, a, b),
        BinaryOp::Equal => lane_kernels::equal(ty, a, b),
        BinaryOp::NotEqual => lane_kernels::not_equal(ty, a, b),
    }
}
