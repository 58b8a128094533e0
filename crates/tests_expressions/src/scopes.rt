//! What names stand for at each step.
use crate::placed::type_of;
use crate::told::holds;
use gang_types::{IntType, Rate};

/// The steps are the declaration of `a`, the inner declaration of `v`, two assignments and the closing brace.
const SOURCE: &str = "int8 v; uniform uint16 a; bool best; \
    export void go(uniform int32 n) { int64 a = 1; { uint8 v = 2; a = 3; } a = 4; }";

/// A name at a step, with the type and the rate of what it stands for.
const NAMES: &[(usize, &str, IntType, Rate)] = &[
    (0, "a", IntType::Uint16, Rate::Uniform),
    (1, "a", IntType::Int64, Rate::Varying),
    (4, "a", IntType::Int64, Rate::Varying),
    (1, "v", IntType::Int8, Rate::Varying),
    (2, "v", IntType::Uint8, Rate::Varying),
    (3, "v", IntType::Int8, Rate::Varying),
    (0, "n", IntType::Int32, Rate::Uniform),
    (4, "n", IntType::Int32, Rate::Uniform),
    (2, "best", IntType::Bool, Rate::Varying),
    (5, "a", IntType::Uint16, Rate::Uniform),
];

#[test]
fn names_stand_for_what_is_in_scope_at_the_step(rt: HostRuntime) {
    for &(step, text, value_type, rate) in NAMES {
        let found = type_of(rt.alloc(), SOURCE, step, text);
        holds(&rt, found == Ok((value_type, rate)), text);
    }
}
