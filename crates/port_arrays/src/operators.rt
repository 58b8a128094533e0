//! Operators of constants, which are numbers of 31 bits with a sign.

/// An operator that waits for its right side.
#[derive(Clone, Copy)]
pub(crate) enum Operator {
    Open,
    Negative,
    Positive,
    Inverted,
    Not,
    Times,
    Over,
    Modulo,
    Plus,
    Minus,
    Left,
    Right,
    Less,
    Greater,
    AtMost,
    AtLeast,
    Equal,
    Different,
    And,
    Exclusive,
    Or,
}

const UNARY: &[(&[u8], Operator)] = &[
    (b"(", Operator::Open),
    (b"-", Operator::Negative),
    (b"+", Operator::Positive),
    (b"~", Operator::Inverted),
    (b"!", Operator::Not),
];

const BINARY: &[(&[u8], Operator)] = &[
    (b"*", Operator::Times),
    (b"/", Operator::Over),
    (b"%", Operator::Modulo),
    (b"+", Operator::Plus),
    (b"-", Operator::Minus),
    (b"<<", Operator::Left),
    (b">>", Operator::Right),
    (b"<", Operator::Less),
    (b">", Operator::Greater),
    (b"<=", Operator::AtMost),
    (b">=", Operator::AtLeast),
    (b"==", Operator::Equal),
    (b"!=", Operator::Different),
    (b"&", Operator::And),
    (b"^", Operator::Exclusive),
    (b"|", Operator::Or),
];

/// The operator before an operand.
pub(crate) fn unary(text: &[u8]) -> Option<Operator> {
    row_of(UNARY, text)
}

/// The operator behind an operand.
pub(crate) fn binary(text: &[u8]) -> Option<Operator> {
    row_of(BINARY, text)
}

fn row_of(rows: &[(&[u8], Operator)], text: &[u8]) -> Option<Operator> {
    for row in rows {
        if row.0 == text {
            return Some(row.1);
        }
    }
    None
}

impl Operator {
    /// How tightly it binds.
    pub(crate) fn strength(self) -> u8 {
        match self {
            Operator::Open => 0,
            Operator::Or => 1,
            Operator::Exclusive => 2,
            Operator::And => 3,
            Operator::Equal | Operator::Different => 4,
            Operator::Less | Operator::Greater | Operator::AtMost | Operator::AtLeast => 5,
            Operator::Left | Operator::Right => 6,
            Operator::Plus | Operator::Minus => 7,
            Operator::Times | Operator::Over | Operator::Modulo => 8,
            Operator::Negative | Operator::Positive | Operator::Inverted | Operator::Not => 9,
        }
    }

    /// Whether it has one operand.
    pub(crate) fn is_unary(self) -> bool {
        self.strength() == 9
    }
}

/// What an operator of one value gives.
pub(crate) fn of_one(operator: Operator, value: i64) -> Option<i64> {
    match operator {
        Operator::Negative => value.checked_neg(),
        Operator::Inverted => Some(!value),
        Operator::Not => Some(i64::from(value == 0)),
        _ => Some(value),
    }
}

/// What an operator of two values gives.
pub(crate) fn of_two(operator: Operator, left: i64, right: i64) -> Option<i64> {
    match operator {
        Operator::Times => left.checked_mul(right),
        Operator::Over => left.checked_div(right),
        Operator::Modulo => left.checked_rem(right),
        Operator::Plus => left.checked_add(right),
        Operator::Minus => left.checked_sub(right),
        Operator::Left => shifted(left, right),
        Operator::Right => halved(left, right),
        Operator::And => Some(left & right),
        Operator::Exclusive => Some(left ^ right),
        Operator::Or => Some(left | right),
        _ => compared(operator, left, right),
    }
}

/// What a comparison of two values gives.
fn compared(operator: Operator, left: i64, right: i64) -> Option<i64> {
    let holds = match operator {
        Operator::Less => left < right,
        Operator::Greater => left > right,
        Operator::AtMost => left <= right,
        Operator::AtLeast => left >= right,
        Operator::Equal => left == right,
        Operator::Different => left != right,
        _ => return None,
    };
    Some(i64::from(holds))
}

/// A value shifted to the left. An amount has 5 bits.
fn shifted(left: i64, right: i64) -> Option<i64> {
    if right < 0 || right > 31 {
        return None;
    }
    left.checked_mul(1i64 << right)
}

fn halved(left: i64, right: i64) -> Option<i64> {
    if right < 0 || right > 31 {
        return None;
    }
    Some(left >> right)
}

/// A number that has 31 bits and a sign, and no sign where one of the operands is unsigned.
pub(crate) fn fitting(value: i64, is_unsigned: bool) -> Option<i64> {
    let low = if is_unsigned { 0 } else { -2_147_483_648 };
    if low <= value && value <= 2_147_483_647 {
        Some(value)
    } else {
        None
    }
}
