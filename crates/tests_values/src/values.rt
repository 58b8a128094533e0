//! Values worked out by hand.
use gang_types::{
    BinaryOp, FaultName, IntType, UnaryOp, add, binary, convert, div, equal, less, mul, rem, shl,
    shr, sub, unary, value, wrap,
};

#[test]
fn sums_and_products_wrap(rt: HostRuntime) {
    let ty = IntType::Int8;
    assert_eq!(&rt; value(ty, add(ty, 100, 100)), -56);
    assert_eq!(&rt; value(IntType::Uint8, add(IntType::Uint8, 200, 100)), 44);
    assert_eq!(&rt;
        value(IntType::Uint32, sub(IntType::Uint32, 0, 1)),
        4294967295
    );
    assert_eq!(&rt; value(IntType::Int16, mul(IntType::Int16, 300, 300)), 24464);
    assert_eq!(&rt; add(IntType::Bool, 1, 1), 1);
}

#[test]
fn division_truncates_toward_zero(rt: HostRuntime) {
    let ty = IntType::Int32;
    let rows: [(BinaryOp, i128, i128, i128); 8] = [
        (BinaryOp::Div, -2147483648, -1, -2147483648),
        (BinaryOp::Rem, -2147483648, -1, 0),
        (BinaryOp::Div, -7, 2, -3),
        (BinaryOp::Rem, -7, 2, -1),
        (BinaryOp::Div, 7, -2, -3),
        (BinaryOp::Rem, 7, -2, 1),
        (BinaryOp::Greater, 3, 2, 1),
        (BinaryOp::GreaterEqual, 2, 3, 0),
    ];
    for (op, a, b, want) in rows {
        assert_eq!(&rt;
            binary(op, ty, wrap(ty, a), wrap(ty, b)) == Ok(wrap(ty, want)),
            true
        );
    }
    assert_eq!(&rt;
        binary(BinaryOp::Div, ty, 7, 0) == Err(FaultName::DivideByZero),
        true
    );
    assert_eq!(&rt;
        binary(BinaryOp::Rem, ty, 7, 0) == Err(FaultName::DivideByZero),
        true
    );
    assert_eq!(&rt; div(ty, 7, 2), 3);
    assert_eq!(&rt; rem(ty, 7, 2), 1);
}

#[test]
fn shifts_reduce_their_amount(rt: HostRuntime) {
    assert_eq!(&rt; shl(IntType::Int32, 5, 32), 5);
    assert_eq!(&rt; shl(IntType::Uint8, 100, 1), 200);
    assert_eq!(&rt; value(IntType::Int8, shl(IntType::Int8, 100, 1)), -56);
    let minus_128 = wrap(IntType::Int8, -128);
    assert_eq!(&rt; value(IntType::Int8, shr(IntType::Int8, minus_128, 3)), -16);
    assert_eq!(&rt;
        value(IntType::Int8, shr(IntType::Int8, minus_128, 11)),
        -16
    );
    assert_eq!(&rt; shr(IntType::Uint8, 128, 3), 16);
}

#[test]
fn comparisons_follow_the_sign(rt: HostRuntime) {
    let minus_one = wrap(IntType::Int64, -1);
    assert_eq!(&rt; less(IntType::Int64, minus_one, 1), 1);
    assert_eq!(&rt; less(IntType::Uint64, minus_one, 1), 0);
    assert_eq!(&rt; equal(IntType::Uint8, 7, 7), 1);
    assert_eq!(&rt;
        binary(BinaryOp::Greater, IntType::Int8, 3, 2) == Ok(1),
        true
    );
    assert_eq!(&rt;
        binary(BinaryOp::GreaterEqual, IntType::Int8, 2, 3) == Ok(0),
        true
    );
}

#[test]
fn conversions_keep_the_value_or_wrap_it(rt: HostRuntime) {
    let minus_one = wrap(IntType::Int8, -1);
    assert_eq!(&rt;
        value(
            IntType::Int64,
            convert(IntType::Int8, IntType::Int64, minus_one)
        ),
        -1
    );
    assert_eq!(&rt; convert(IntType::Int8, IntType::Uint16, minus_one), 65535);
    assert_eq!(&rt; convert(IntType::Int32, IntType::Bool, 2), 1);
    assert_eq!(&rt;
        value(IntType::Int8, unary(UnaryOp::Negate, IntType::Int8, 5)),
        -5
    );
    assert_eq!(&rt;
        value(IntType::Int8, unary(UnaryOp::Complement, IntType::Int8, 5)),
        -6
    );
    assert_eq!(&rt; unary(UnaryOp::Complement, IntType::Uint8, 5), 250);
    assert_eq!(&rt; unary(UnaryOp::Not, IntType::Int8, 5), 0);
    assert_eq!(&rt; unary(UnaryOp::Plus, IntType::Int8, 5), 5);
}
