//! The ends of the types, and lanes that take them in turn: what operations and calls across lanes are tested on.
ghost use Rattle.std.specs.Prelude.{◌≤◌, ◌<◌};

use gang_types::{IntType, half, low_bits, wrap};

/// All types.
pub const TYPES: [IntType; 9] = [
    IntType::Bool,
    IntType::Int8,
    IntType::Int16,
    IntType::Int32,
    IntType::Int64,
    IntType::Uint8,
    IntType::Uint16,
    IntType::Uint32,
    IntType::Uint64,
];

/// 0, 1, -1, and the least and the greatest value of the type, as words of the type.
pub fn ends(ty: IntType) -> [u64; 5] {
    let below = half(ty) as i128;
    let values = low_bits(ty) as i128;
    [
        0,
        1,
        wrap(ty, -1),
        wrap(ty, -below),
        wrap(ty, values - below),
    ]
}

/// The ends in turn, from one of them on.
pub fn lanes<const W: usize>(ends: [u64; 5], from: usize) -> [u64; W]
    requires { (W ≤ 16) × (from < 5) }
{
    let mut words = [0; W];
    for i in 0..W {
        words[i] = ends[(from + i) % 5];
    }
    words
}
